// SET CPU.
ghost use Rattle.std.specs.Prelude.{◌≡◌, ◌*◌, Bool};
ghost use Rattle.nova_memory.specs.Memory.{IsSize};
ghost use Rattle.unit_list.specs.Bus.{kinds_of};
ghost use Rattle.nova_machine.specs.Machine.{attached_files};
ghost use Rattle.nova_machine.specs.Comes.{Output};
ghost use Rattle.command_session.specs.Live.{standing, live_in, Beyond};
ghost use Rattle.plain_commands.specs.SetEffects.{sized, ruled, set_size_reply, set_autobit_reply};
ghost use Rattle.command_session.specs.Doing.{Does, IsPlain, IsExitAnswer, IsRefused};

use command_session::{CommandFault, Next, Session};
use nova_machine::Machine;
use nova_memory::is_size;
use unit_trait::Unit;

/// SET CPU gives the machine that many K of memory, each of 1024 words: 4, 8 and so on up to 32. The words below that
/// stay, and all others are 0 from then on. It prints nothing.
pub fn set_size<U: Unit>(session: &mut Session<U>, k: u64) -> Result<Next, CommandFault>
    ensures refused { IsRefused result
        → (session.new.machine ≡ session.old.machine) × (session.new.watch ≡ session.old.watch) }
    ensures told { (files : Beyond) (tells : Bool) (text : Output)
        → Does (set_size_reply (live_in session.old files) k) result (standing 0 (live_in session.new files)) tells
        text text }
    ensures own { IsPlain result }
    ensures exit { IsExitAnswer result }
    ensures rest { session.new ≡ record session.old { machine = session.new.machine } }
    ensures kinds { kinds_of session.new.machine.units ≡ kinds_of session.old.machine.units }
    ensures attached { attached_files session.new.machine ≡ attached_files session.old.machine }
    ensures time { session.new.machine.time ≡ session.old.machine.time }
    ensures terminals { session.new.machine.lines ≡ session.old.machine.lines }
{
    if !is_size(k) {
        return Err(CommandFault::OutOfRange);
    }
    resize(&mut session.machine, k);
    Ok(Next::Go)
}

// Gives a machine that many K of memory.
fn resize<U: Unit>(machine: &mut Machine<U>, k: u64)
    requires { IsSize (1024 * k) }
    ensures { machine.new ≡ sized machine.old k }
{
    machine.memory_mut().set_size((1024 * k) as u16);
}

/// SET CPU AUTOBIT lets an indirect reference through an auto-index location test bit 0 of the word there before its
/// change, or else of the changed word. It is refused for nothing, and prints nothing.
pub fn set_autobit<U: Unit>(session: &mut Session<U>, before: bool) -> Result<Next, CommandFault>
    ensures refused { IsRefused result
        → (session.new.machine ≡ session.old.machine) × (session.new.watch ≡ session.old.watch) }
    ensures told { (files : Beyond) (tells : Bool) (text : Output)
        → Does (set_autobit_reply (live_in session.old files) before) result (standing 0 (live_in session.new files))
        tells text text }
    ensures own { IsPlain result }
    ensures exit { IsExitAnswer result }
    ensures rest { session.new ≡ record session.old { machine = session.new.machine } }
    ensures kinds { kinds_of session.new.machine.units ≡ kinds_of session.old.machine.units }
    ensures attached { attached_files session.new.machine ≡ attached_files session.old.machine }
    ensures time { session.new.machine.time ≡ session.old.machine.time }
    ensures terminals { session.new.machine.lines ≡ session.old.machine.lines }
{
    choose_rule(&mut session.machine, before);
    Ok(Next::Go)
}

// Chooses whether a machine tests bit 0 of an auto-index word before its change.
fn choose_rule<U: Unit>(machine: &mut Machine<U>, before: bool)
    ensures { machine.new ≡ ruled machine.old before }
{
    machine.memory_mut().set_autobit(before);
}
