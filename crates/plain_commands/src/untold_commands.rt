// Which function does which of the commands that work on no file and no line.
ghost use Rattle.std.specs.Prelude.{◌≡◌, Bool, Err};
ghost use Rattle.file_traits.specs.State.{FileState};
ghost use Rattle.unit_list.specs.Bus.{kinds_of};
ghost use Rattle.file_commands.specs.Notes.{notes_said};
ghost use Rattle.host_lines.specs.Told.{Heard};
ghost use Rattle.nova_machine.specs.Machine.{attached_files};
ghost use Rattle.nova_machine.specs.Comes.{output};
ghost use Rattle.command_session.specs.declared.fault.CommandFault.TheVariants.{OutOfMemory};
ghost use Rattle.command_session.specs.Live.{Beyond, live_in, standing};
ghost use Rattle.command_session.specs.Nature.{nature, IsUntold};
ghost use Rattle.command_session.specs.Remains.{AreLeft};
ghost use Rattle.command_session.specs.Refusals.{IsUnrefused};
ghost use Rattle.command_session.specs.Doing.{Did, Does, IsRefused, Keeps, ConsoleCounts, MayWant, IsUndone, says_files, IsExitAnswer};
ghost use Rattle.plain_commands.specs.UntoldEffect.{untold_effect, IsUntoldAnswer, WantedMemory};

use crate::list_commands::{deposit_list, examine_list};
use crate::reset_command::reset;
use crate::script_commands::{assert_condition, echo};
use crate::set_command::{set_autobit, set_size};
use crate::show_command::show;
use crate::watch_commands::{
    add_break, add_expect, remove_breaks, remove_expects, remove_sends, send,
};
use command_session::{CommandFault, Next, Session};
use file_traits::Sink;
use scp_parser::{Command, Verb};
use unit_trait::Unit;

/// Does a command that works on no file and no line of the host, and prints what it has to say. Where it is refused,
/// all is as it was. `OutOfMemory` comes from BREAK and EXPECT alone, where nothing was done.
pub fn obey_untold<U: Unit, S: Sink>(
    session: &mut Session<U>,
    command: &Command,
    out: &mut S,
) -> Result<Next, CommandFault>
    requires { IsUntold command.now }
    ensures refused { IsRefused result
        → AreLeft (nature command.now).flushes session.old session.new }
    ensures told { (files : Beyond) (heard : Heard)
        → Did (λ notes. untold_effect (live_in session.old files) command.now) session.old.command result
        (live_in session.new files) S.tells (output (S.written out.old) heard) (output (S.written out.new) heard)
        (notes_said session.old.notes) (notes_said session.new.notes) }
    ensures undone { result ≡ Err OutOfMemory → (tells : Bool) (state : FileState)
        → IsUndone (nature command.now).flushes (nature command.now).reads_whole (says_files tells command.now)
        session.old session.new (S.written out.old) (S.written out.new) state state }
    ensures want { result ≡ Err OutOfMemory → MayWant 16 command.now }
    ensures unrefused { result ≡ Err OutOfMemory
        → IsUnrefused command.now session.old.machine session.old.watch }
    ensures keeps { (tells : Bool) (state : FileState) → Keeps session.old.command session.new.machine.time tells
        result session.old.notes session.new.notes state state }
    ensures rest { session.new
        ≡ record session.old { machine = session.new.machine; watch = session.new.watch } }
    ensures attached { attached_files session.new.machine ≡ attached_files session.old.machine }
    ensures slots { session.new.machine.slots ≡ session.old.machine.slots }
    ensures terminals { session.new.machine.lines ≡ session.old.machine.lines }
    ensures kinds { kinds_of session.new.machine.units ≡ kinds_of session.old.machine.units }
    ensures counts { ConsoleCounts result (S.fault_count out.old) (S.fault_count out.new) }
    ensures answer { IsUntoldAnswer result }
    ensures exit { IsExitAnswer result }
{
    do_untold(session, command, out)
}

// The same, in what each of them says of itself.
fn do_untold<U: Unit, S: Sink>(
    session: &mut Session<U>,
    command: &Command,
    out: &mut S,
) -> Result<Next, CommandFault>
    requires { IsUntold command.now }
    ensures refused { IsRefused result
        → (session.new.machine ≡ session.old.machine) × (session.new.watch ≡ session.old.watch) }
    ensures told { (files : Beyond) (heard : Heard)
        → Does (untold_effect (live_in session.old files) command.now) result (standing 0 (live_in session.new files))
        S.tells (output (S.written out.old) heard) (output (S.written out.new) heard) }
    ensures wanted { result ≡ Err OutOfMemory
        → WantedMemory command.now session.old session.new (S.written out.old) (S.written out.new) }
    ensures rest { session.new
        ≡ record session.old { machine = session.new.machine; watch = session.new.watch } }
    ensures attached { attached_files session.new.machine ≡ attached_files session.old.machine }
    ensures terminals { session.new.machine.lines ≡ session.old.machine.lines }
    ensures kinds { kinds_of session.new.machine.units ≡ kinds_of session.old.machine.units }
    ensures counts { ConsoleCounts result (S.fault_count out.old) (S.fault_count out.new) }
    ensures answer { IsUntoldAnswer result }
    ensures exit { IsExitAnswer result }
{
    match &command.verb {
        Verb::Nothing => Ok(Next::Go),
        Verb::Examine(listing) => examine_list(session, listing, out),
        Verb::Deposit(listing, value) => deposit_list(session, listing, *value),
        Verb::Reset => reset(session),
        Verb::Break { at, count, .. } => add_break(session, *at, *count, command.text()),
        Verb::NoBreak(at) => remove_breaks(session, *at),
        Verb::Expect { count, .. } => {
            add_expect(session, *count, command.quoted(), command.text())
        }
        Verb::NoExpect => remove_expects(session),
        Verb::Send { after, delay, .. } => send(session, *after, *delay, command.quoted()),
        Verb::NoSend => remove_sends(session),
        Verb::SetSize(k) => set_size(session, *k),
        Verb::SetAutobit(before) => set_autobit(session, *before),
        Verb::Show(subject) => show(session, *subject, out),
        Verb::Goto(_) => Ok(Next::Goto),
        Verb::Assert(what) => assert_condition(session, what),
        Verb::Echo(_) => echo(command.text(), out),
        _ => unreachable!(),
    }
}
