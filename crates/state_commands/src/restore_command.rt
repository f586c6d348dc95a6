// RESTORE.
ghost use Rattle.std.specs.Prelude.{◌≡◌, ◌≢◌, ◌<◌, ◌≤◌, ◌++◌, ℕ, Bool, true, false, List, Some, IsTrue, IfOk, OnOk, Err, length, vec_len, vec_capacity};
ghost use Rattle.file_traits.specs.State.{Opened};
ghost use Rattle.unit_files.specs.Buffer.{nothing_attached};
ghost use Rattle.unit_files.specs.Open.{AllOpen, Around};
ghost use Rattle.file_commands.specs.declared.note.Subject.TheVariants.{State as of_state};
ghost use Rattle.file_commands.specs.OwnFiles.{AreOwn};
ghost use Rattle.file_commands.specs.Notes.{notes_said};
ghost use Rattle.host_lines.specs.Traffic.{Answer as LineAnswer};
ghost use Rattle.host_lines.specs.Told.{IsFirst, record_in};
ghost use Rattle.telnet_lines.specs.Many.{AreApart};
ghost use Rattle.nova_machine.specs.Comes.{Output};
ghost use Rattle.nova_machine.specs.Machine.{attached_files};
ghost use Rattle.nova_machine.specs.Seen.{attached_in};
ghost use Rattle.state_transfer.specs.Listening.{AreClosed};
ghost use Rattle.saved_session.specs.Parts.{state_in};
ghost use Rattle.state_text.specs.Pieces.{IsFed};
ghost use Rattle.state_text.specs.Gives.{Gives};
ghost use Rattle.state_text.specs.Reading.{reading};
ghost use Rattle.state_transfer.specs.SavedValid.{AreStandard};
ghost use Rattle.saved_session.specs.Valid.{Valid};
ghost use Rattle.scp_parser.specs.Command.{Restore};
ghost use Rattle.command_session.specs.declared.fault.CommandFault.TheVariants.{OutOfMemory};
ghost use Rattle.whole_files.specs.declared.whole.WholeFault.TheVariants.{OutOfMemory as whole_want};
ghost use Rattle.whole_files.specs.Claims.{WholeCause};
ghost use Rattle.command_session.specs.Live.{live_in, beyond};
ghost use Rattle.command_session.specs.DiskFile.{StaysInStep};
ghost use Rattle.command_session.specs.LinesLeft.{LinesLeft, Unlistened, RestoreCause};
ghost use Rattle.state_commands.specs.RestoredLines.{RestoresLines};
ghost use Rattle.command_session.specs.Refusals.{IsUnrefused};
ghost use Rattle.state_commands.specs.StateAnswers.{PutsBack};
ghost use Rattle.state_commands.specs.StateReading.{WasFed};
ghost use Rattle.command_session.specs.Occupied.{has_port, is_occupied};
ghost use Rattle.state_commands.specs.StateEffects.{restore_notes, restore_reply};
ghost use Rattle.command_session.specs.Answers.{IsByTables, OfRestore, occupied_fault};
ghost use Rattle.state_commands.specs.StateWorks.{RestoreWorks};
ghost use Rattle.command_session.specs.Doing.{Did, OpensSaved, KeepsBy, IsUndone, IsRestoreAnswer, IsExitAnswer, IsRefused};

use crate::state_faults::{fault_of_restore, fault_of_state};
use crate::state_notes::note_state_reading;
use crate::state_reading::{StateRead, read_state_file};
use command_session::{CommandFault, Next, Session, stamp_of};
use file_commands::{FaultNote, Stamp, Subject, keep, note_of};
use file_traits::Files;
use host_lines::Lines;
use nova_machine::Machine;
use saved_files::RestoreFault;
use saved_session::Saved;
use state_text::{StateFault, StateReader};
use state_transfer::set_state;
use std::alloc::Global;
use telnet_lines::Line;
use unit_trait::Unit;
use whole_files::WholeFault;

/// RESTORE reads the state file of a name piece by piece and closes it again, attaches the files that it names in bus
/// order, each only to be read where it was and else to be changed, listens on its ports, and puts the machine and the
/// watch tables back as they were saved. Unless that is forced, each file has to have the length and the digest that it
/// had. It prints nothing, and resets nothing. The file may be one of this version or of the first one.
///
/// The refusals, in this order: `AlreadyAttached` where a unit has a file or a line a port, that of the console too;
/// `NoFile`, `FileFailed` and `FileTooLong` of the state file, which has at most 1048576 bytes; the faults of its
/// bytes; `MissingUnit` where the machine lacks a unit of the session, before the file of any unit is opened; then of
/// each file `NoFile`, `FileFailed` of its opening or its length, `FileTooLong`, `FileFailed` of a read, and `Changed`;
/// and last `PortFailed`, of the first port that is not to be had. `OutOfMemory` may come from the reading on. Behind a
/// refusal the session is as it was, and each file that was opened is closed. Each call that failed is noted, but for
/// the closing of a unit's file that was refused.
#[tactic(auto, unfolding(crate::specs::StateEffects::restore_reply))]
pub fn restore<U: Unit, F: Files, L: Lines>(
    alloc: Global,
    session: &mut Session<U>,
    force: bool,
    name: &str,
    files: &mut F,
    lines: &mut L,
) -> Result<Next, CommandFault>
    requires room { 16 ≤ session.old.spare }
    requires standard { AreStandard session.old.machine.units }
    requires open { AllOpen session.old.machine.slots (F.state files.old).opened }
    ensures refused { IsRefused result
        → (session.new.machine ≡ session.old.machine) × (session.new.watch ≡ session.old.watch) }
    ensures told { IsTrue F.tells → IsTrue L.tells → AreApart (L.state lines.old) session.old.machine.lines
        → (whole : List LineAnswer) → IsFirst (record_in (L.state lines.new).told) whole
        → (tells : Bool) (text : Output) → Did (λ notes. restore_reply notes
        (live_in session.old (beyond (F.state files.old).files (L.state lines.old) whole)) force name.now)
        session.old.command result
        (live_in session.new (beyond (F.state files.new).files (L.state lines.new) whole)) tells text text
        (notes_said session.old.notes) (notes_said session.new.notes) }
    ensures left { LinesLeft L.tells (L.state lines.old) session.old.machine.lines (L.state lines.new)
        session.new.machine.lines }
    ensures sent { (L.state lines.new).sent ≡ (L.state lines.old).sent }
    ensures unasked { IsRefused result → (Unlistened result → ⊥) → lines.new ≡ lines.old }
    ensures listening { RestoreCause L.tells result (L.state lines.old) (L.state lines.new) }
    ensures line { result ≢ Err OutOfMemory → RestoresLines L.tells result (L.state lines.old)
        session.old.machine.lines (L.state lines.new) session.new.machine.lines }
    ensures step { IsTrue F.tells
        → StaysInStep session.old session.new (F.state files.old).files (F.state files.new).files }
    ensures back { OnOk result (PutsBack F.tells (F.state files.old).files name.now session.old session.new) }
    ensures undone { (text : List ℕ) → result ≡ Err OutOfMemory
        → IsUndone false (Some of_state) F.tells session.old session.new text text (F.state files.old)
        (F.state files.new) }
    ensures unrefused { result ≡ Err OutOfMemory
        → IsUnrefused (Restore force name.now) session.old.machine session.old.watch }
    ensures measured { result ≡ Err OutOfMemory
        → WholeCause F.tells name.now (Err whole_want) (F.state files.old) (F.state files.new) }
    ensures keeps { KeepsBy true OpensSaved session.old.command session.old.machine.time session.new.machine.time F.tells result
        session.old.notes session.new.notes (F.state files.old) (F.state files.new) }
    ensures whose { AreOwn session.old.machine.slots session.new.machine.slots session.old.notes session.new.notes
        (F.state files.old) (F.state files.new) }
    ensures tables { IsByTables (occupied_fault (is_occupied (attached_in session.old.machine) session.old.machine.lines)) result }
    ensures answers { OfRestore force result }
    ensures works { RestoreWorks result (F.state files.old) (F.state files.new) }
    ensures own { IsRestoreAnswer result }
    ensures exit { IsExitAnswer result }
    ensures standard { AreStandard session.new.machine.units }
    ensures keys { session.new.keys ≡ session.old.keys }
    ensures limit { session.new.limit ≡ session.old.limit }
    ensures command { session.new.command ≡ session.old.command }
    ensures open { AllOpen session.new.machine.slots (F.state files.new).opened }
    ensures around { (base : List Opened) → Around session.old.machine.slots base (F.state files.old).opened
        → Around session.new.machine.slots base (F.state files.new).opened }
{
    if is_occupied(&session.machine) {
        return Err(CommandFault::AlreadyAttached);
    }
    let stamp = stamp_of(session);
    let read = read_state_file(alloc, name, files);
    note_state_reading(&mut session.notes, &read, stamp);
    let reader = match reader_of(read) {
        Ok(reader) => reader,
        Err(fault) => return Err(CommandFault::of_whole(Subject::State, fault)),
    };
    let saved = match saved_in(reader) {
        Ok(saved) => saved,
        Err(fault) => return Err(fault_of_state(fault)),
    };
    match set_state(
        alloc,
        &saved,
        force,
        &mut session.machine,
        &mut session.watch,
        files,
        lines,
    ) {
        Ok(()) => Ok(Next::Go),
        Err(fault) => {
            note_restoring(&mut session.notes, fault, stamp);
            Err(fault_of_restore(fault))
        }
    }
}

// What was fed the bytes of a state file.
fn reader_of(read: StateRead) -> Result<StateReader, WholeFault>
    ensures reader { read.reader ≡ result }
{
    read.reader
}

// What the bytes of a state file say.
fn saved_in(reader: StateReader) -> Result<Saved, StateFault>
    requires { WasFed reader }
    ensures valid { IfOk result (λ saved. Valid (state_in saved)) }
    ensures exact { (bytes : List ℕ) → IsFed reader bytes → Gives state_in result (reading bytes) }
{
    reader.finish()
}

// Whether a unit has a file, or a line a port, that of the console too.
fn is_occupied<U: Unit>(machine: &Machine<U>) -> bool
    ensures test { result ≡ is_occupied (attached_in machine.now) machine.now.lines }
    ensures nothing { result ≡ false → attached_files machine.now ≡ nothing_attached }
    ensures closed { result ≡ false → AreClosed machine.now.lines }
    ensures there { result ≡ false → 0 < length machine.now.lines }
{
    !machine.attached().is_empty() || is_ported(machine)
}

// Whether the console line or a terminal line has a port.
#[tactic(auto, using(crate::proofs::ConsoleFirst::console_first, crate::proofs::ConsoleFirst::console_there))]
fn is_ported<U: Unit>(machine: &Machine<U>) -> bool
    ensures test { result ≡ has_port machine.now.lines }
    ensures closed { result ≡ false → AreClosed machine.now.lines }
    ensures there { 0 < length machine.now.lines }
{
    machine.console_at().port().is_some() || has_port(machine.lines())
}

// Whether one of these lines has a port.
fn has_port(lines: &[Line]) -> bool
    ensures test { result ≡ has_port lines.now }
    ensures closed { result ≡ false → AreClosed lines.now }
{
    match lines.split_first() {
        None => false,
        Some((line, others)) => line.port().is_some() || has_port(others),
    }
}

// Notes the call on a unit's file for which a session was not put back.
fn note_restoring(notes: &mut Vec<FaultNote>, fault: RestoreFault, stamp: Stamp)
    requires { vec_len notes.old < vec_capacity notes.old }
    ensures notes { notes.new.items ≡ notes.old.items ++ restore_notes stamp fault }
    ensures capacity { vec_capacity notes.old ≤ vec_capacity notes.new }
{
    match fault {
        RestoreFault::Failed(fault) => keep(notes, note_of(fault, stamp)),
        _ => (),
    }
}
