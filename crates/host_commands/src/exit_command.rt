// EXIT, QUIT and BYE.
ghost use Rattle.std.specs.Prelude.{◌≡◌, ◌≤◌, Bool, List};
ghost use Rattle.file_traits.specs.State.{Opened};
ghost use Rattle.unit_list.specs.Bus.{kinds_of};
ghost use Rattle.unit_files.specs.InStep.{InStep};
ghost use Rattle.unit_files.specs.Open.{AllOpen, Around};
ghost use Rattle.file_commands.specs.OwnFiles.{AreOwn};
ghost use Rattle.file_commands.specs.Notes.{notes_said};
ghost use Rattle.host_lines.specs.Traffic.{Answer as LineAnswer};
ghost use Rattle.nova_machine.specs.Machine.{attached_files};
ghost use Rattle.nova_machine.specs.Comes.{Output};
ghost use Rattle.nova_machine.specs.LineChanges.{AreLinesTold};
ghost use Rattle.command_session.specs.Live.{live_in, beyond};
ghost use Rattle.command_session.specs.ExitEffects.{exit_reply, status_fits};
ghost use Rattle.command_session.specs.DiskFile.{StaysInStep};
ghost use Rattle.command_session.specs.LinesLeft.{LinesLeft};
ghost use Rattle.command_session.specs.PortAnswers.{ClosesAll};
ghost use Rattle.command_session.specs.Answers.{IsByTables, OfExit, out_of_range};
ghost use Rattle.command_session.specs.Doing.{Did, Keeps, IsPlain, IsExitAnswer, IsRefused};

use command_session::{CommandFault, Next, Session};
use file_traits::Files;
use host_lines::Lines;
use unit_files::DetachFault;
use unit_trait::Unit;

/// The end of a session, with a status from 0 to 99; 0 where none is given. All units lose their files before it, then
/// the second teletype its port, and then the multiplexer its ports; where what the disk holds can't be written back,
/// the session does not end.
#[tactic(auto, unfolding(command_session::specs::ExitEffects::exit_reply))]
pub fn exit<U: Unit, F: Files, L: Lines>(
    session: &mut Session<U>,
    status: Option<u64>,
    files: &mut F,
    lines: &mut L,
) -> Result<Next, CommandFault>
    requires room { 16 ≤ session.old.spare }
    requires open { AllOpen session.old.machine.slots (F.state files.old).opened }
    ensures refused { IsRefused result
        → (session.new.machine ≡ session.old.machine) × (session.new.watch ≡ session.old.watch) }
    ensures told { AreLinesTold L.tells (L.state lines.old) session.old.machine.lines
        → InStep (attached_files session.old.machine) (F.state files.old).files
        → (whole : List LineAnswer) (tells : Bool) (text : Output)
        → Did (λ notes. exit_reply notes
        (live_in session.old (beyond (F.state files.old).files (L.state lines.old) whole)) status)
        session.old.command result
        (live_in session.new (beyond (F.state files.new).files (L.state lines.new) whole)) tells text text
        (notes_said session.old.notes) (notes_said session.new.notes) }
    ensures step { StaysInStep session.old session.new (F.state files.old).files (F.state files.new).files }
    ensures keeps { Keeps session.old.command session.new.machine.time F.tells result session.old.notes
        session.new.notes (F.state files.old) (F.state files.new) }
    ensures whose { AreOwn session.old.machine.slots session.new.machine.slots session.old.notes session.new.notes
        (F.state files.old) (F.state files.new) }
    ensures tables { IsByTables (out_of_range (status_fits status)) result }
    ensures answers { OfExit status result }
    ensures own { IsPlain result }
    ensures exit { IsExitAnswer result }
    ensures watch { session.new.watch ≡ session.old.watch }
    ensures left { LinesLeft L.tells (L.state lines.old) session.old.machine.lines (L.state lines.new)
        session.new.machine.lines }
    ensures unasked { IsRefused result → lines.new ≡ lines.old }
    ensures line { ClosesAll result (L.state lines.old) session.old.machine.lines (L.state lines.new)
        session.new.machine.lines }
    ensures sent { (L.state lines.new).sent ≡ (L.state lines.old).sent }
    ensures keys { session.new.keys ≡ session.old.keys }
    ensures limit { session.new.limit ≡ session.old.limit }
    ensures command { session.new.command ≡ session.old.command }
    ensures kinds { kinds_of session.new.machine.units ≡ kinds_of session.old.machine.units }
    ensures open { AllOpen session.new.machine.slots (F.state files.new).opened }
    ensures around { (base : List Opened) → Around session.old.machine.slots base (F.state files.old).opened
        → Around session.new.machine.slots base (F.state files.new).opened }
{
    match status.unwrap_or(0) {
        status @ 0..=99 => {
            match session.detach_all(files, lines) {
                Ok(()) => Ok(Next::Exit(status as u8)),
                Err(fault) => Err(CommandFault::of_detach(DetachFault::Failed(fault))),
            }
        }
        _ => Err(CommandFault::OutOfRange),
    }
}
