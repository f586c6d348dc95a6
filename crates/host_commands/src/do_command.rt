// DO.
ghost use Rattle.std.specs.Prelude.{◌≡◌, ◌≤◌, ◌^◌, ℕ, Bool, List, false, Some, IsTrue, IfOk, Err, length};
ghost use Rattle.file_traits.specs.State.{Opened};
ghost use Rattle.unit_list.specs.Bus.{kinds_of};
ghost use Rattle.unit_files.specs.Open.{AllOpen, Around};
ghost use Rattle.file_commands.specs.declared.note.Subject.TheVariants.{Script};
ghost use Rattle.file_commands.specs.OwnFiles.{AreOwn};
ghost use Rattle.file_commands.specs.Notes.{notes_said};
ghost use Rattle.host_lines.specs.Traffic.{Answer as LineAnswer};
ghost use Rattle.host_lines.specs.State.{LineState};
ghost use Rattle.nova_machine.specs.Comes.{Output};
ghost use Rattle.command_session.specs.declared.fault.CommandFault.TheVariants.{OutOfMemory};
ghost use Rattle.command_session.specs.Live.{live_in, beyond};
ghost use Rattle.host_commands.specs.DoEffects.{script_of, do_reply};
ghost use Rattle.command_session.specs.WholeCalls.{whole_answer};
ghost use Rattle.command_session.specs.Refusals.{UnreadCause};
ghost use Rattle.command_session.specs.Answers.{OfDo};
ghost use Rattle.command_session.specs.FileWorks.{DoWorks};
ghost use Rattle.command_session.specs.Doing.{Did, KeepsOwn, IsUndone, IsOwn, IsExitAnswer, IsRefused};

use command_session::{CommandFault, DoFile, Next, ScriptText, Session, note_reading, stamp_of};
use file_commands::Subject;
use file_traits::Files;
use std::alloc::Global;
use unit_trait::Unit;
use whole_files::{WholeFault, read_file};

/// DO reads the script of a name whole, closes it again, and answers its bytes. It prints nothing, and no file changes.
///
/// `NoFile` comes where there is no such file, `FileTooLong` where it is longer than 1048576 bytes, `FileFailed` where
/// its opening, its length or a read failed, and `OutOfMemory` where there is no memory for it. Each call that failed
/// is noted, the closing too.
#[tactic(auto, unfolding(whole_files::specs::Whole::longest_file))]
pub fn do_script<U: Unit, F: Files>(
    alloc: Global,
    session: &mut Session<U>,
    echo: bool,
    strict: bool,
    name: &str,
    files: &mut F,
) -> Result<Next, CommandFault>
    requires room { 16 ≤ session.old.spare }
    requires open { AllOpen session.old.machine.slots (F.state files.old).opened }
    ensures refused { IsRefused result
        → (session.new.machine ≡ session.old.machine) × (session.new.watch ≡ session.old.watch) }
    ensures told { (lines : LineState) (whole : List LineAnswer) (tells : Bool) (text : Output) → IsTrue F.tells
        → Did (λ notes. do_reply notes (live_in session.old (beyond (F.state files.old).files lines whole))
        echo strict name.now) session.old.command result
        (live_in session.new (beyond (F.state files.new).files lines whole)) tells text text
        (notes_said session.old.notes) (notes_said session.new.notes) }
    ensures undone { (text : List ℕ) → result ≡ Err OutOfMemory
        → IsUndone false (Some Script) F.tells session.old session.new text text (F.state files.old)
        (F.state files.new) }
    ensures keeps { KeepsOwn session.old.command session.new.machine.time F.tells result session.old.notes
        session.new.notes (F.state files.old) (F.state files.new) }
    ensures whose { AreOwn session.old.machine.slots session.new.machine.slots session.old.notes session.new.notes
        (F.state files.old) (F.state files.new) }
    ensures whole { UnreadCause F.tells name.now result (F.state files.old) (F.state files.new) }
    ensures answers { OfDo echo strict result }
    ensures works { DoWorks result (F.state files.old) (F.state files.new) }
    ensures machine { session.new.machine ≡ session.old.machine }
    ensures own { IsOwn result }
    ensures exit { IsExitAnswer result }
    ensures watch { session.new.watch ≡ session.old.watch }
    ensures terminals { session.new.machine.lines ≡ session.old.machine.lines }
    ensures keys { session.new.keys ≡ session.old.keys }
    ensures limit { session.new.limit ≡ session.old.limit }
    ensures command { session.new.command ≡ session.old.command }
    ensures kinds { kinds_of session.new.machine.units ≡ kinds_of session.old.machine.units }
    ensures open { AllOpen session.new.machine.slots (F.state files.new).opened }
    ensures around { (base : List Opened) → Around session.old.machine.slots base (F.state files.old).opened
        → Around session.new.machine.slots base (F.state files.new).opened }
{
    let stamp = stamp_of(session);
    let whole = read_file(alloc, name, files);
    note_reading(&mut session.notes, Subject::Script, &whole, stamp);
    script_answer(whole.bytes, echo, strict)
}

// What is answered of a script that was read, or not.
fn script_answer(
    bytes: Result<Vec<u8>, WholeFault>,
    echo: bool,
    strict: bool,
) -> Result<Next, CommandFault>
    requires { IfOk bytes (λ v. length v.items ≤ 2 ^ 20) }
    ensures { result ≡ whole_answer Script (script_of echo strict) bytes }
{
    match bytes {
        Ok(bytes) => Ok(Next::Do(DoFile {
            text: ScriptText::new(bytes),
            echo,
            strict,
        })),
        Err(fault) => Err(CommandFault::of_whole(Subject::Script, fault)),
    }
}
