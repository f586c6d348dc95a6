// SAVE.
ghost use Rattle.std.specs.Prelude.{◌≡◌, ◌≢◌, ◌<◌, ◌≤◌, ◌+◌, ◌++◌, ℕ, Bool, true, List, None, IsTrue, IfSome, Err, length, vec_len, vec_capacity, if◌then◌else◌};
ghost use Rattle.fault_counts.specs.Faults.{raised};
ghost use Rattle.file_traits.specs.State.{Opened};
ghost use Rattle.unit_files.specs.InStep.{InStep};
ghost use Rattle.unit_files.specs.Open.{AllOpen, Around};
ghost use Rattle.file_commands.specs.OwnFiles.{AreOwn};
ghost use Rattle.file_commands.specs.Notes.{notes_said};
ghost use Rattle.whole_files.specs.Claims.{raised_by, IsNew};
ghost use Rattle.whole_files.specs.Writing.{write_act, said_of_writing, claimed_in_writing, HasWriteShape, WasNotOpened};
ghost use Rattle.whole_files.specs.Writing.{write_claims_on, unmade_counted};
ghost use Rattle.whole_files.specs.declared.whole.WholeFault.TheVariants as whole;
ghost use Rattle.host_lines.specs.Traffic.{Answer as LineAnswer};
ghost use Rattle.host_lines.specs.State.{LineState};
ghost use Rattle.nova_machine.specs.Comes.{Output};
ghost use Rattle.nova_machine.specs.Machine.{attached_files};
ghost use Rattle.saved_session.specs.Parts.{state_in};
ghost use Rattle.state_transfer.specs.SavedValid.{AreStandard};
ghost use Rattle.state_text.specs.Text.{text};
ghost use Rattle.saved_session.specs.Valid.{Fits};
ghost use Rattle.command_session.specs.declared.fault.CommandFault.TheVariants.{OutOfMemory};
ghost use Rattle.command_session.specs.Live.{live_in, beyond};
ghost use Rattle.command_session.specs.DiskFile.{StaysWhereAlone};
ghost use Rattle.command_session.specs.Remains.{AreLeft, MachineRemains};
ghost use Rattle.state_commands.specs.StateEffects.{save_notes, save_reply};
ghost use Rattle.command_session.specs.Answers.{OfSave};
ghost use Rattle.command_session.specs.Doing.{Did, KeepsOwn, IsUndone, IsOwn, IsExitAnswer, IsRefused};

use crate::state_faults::fault_of_save;
use command_session::{CommandFault, Next, Session, note_writing, stamp_of, written_answer};
use file_commands::{FaultNote, Stamp, Subject, keep, note_of};
use file_traits::Files;
use saved_files::SaveFault;
use saved_session::Saved;
use state_text::write_state;
use state_transfer::take_state;
use std::alloc::Global;
use unit_trait::Unit;
use whole_files::{WholeFault, Written, write_file};

/// SAVE writes back what the disk holds of its file, reads the files of all units in bus order for their lengths and
/// digests, makes the state file of a name, or empties it, and writes the session into it. It prints nothing.
///
/// `FileFailed` of a unit comes where the disk's copy could not be written back, or a length or a read failed: the
/// state file is as it was then. `FileFailed` of the state file comes where its opening or its write failed: behind a
/// write it has its first bytes and no others, and what it held before is lost. `OutOfMemory` comes before all that, or
/// behind the writing back, and the state file is as it was. What was written back stays so in each case, and nothing
/// else of the session changes. Each call that failed is noted, the closing too.
#[tactic(auto, unfolding(crate::specs::StateEffects::save_reply))]
pub fn save<U: Unit, F: Files>(
    alloc: Global,
    session: &mut Session<U>,
    name: &str,
    files: &mut F,
) -> Result<Next, CommandFault>
    requires room { 16 ≤ session.old.spare }
    requires standard { AreStandard session.old.machine.units }
    requires open { AllOpen session.old.machine.slots (F.state files.old).opened }
    ensures refused { IsRefused result → AreLeft true session.old session.new }
    ensures told { IsTrue F.tells → InStep (attached_files session.old.machine) (F.state files.old).files
        → (lines : LineState) (whole : List LineAnswer) (tells : Bool) (text : Output)
        → Did (λ notes. save_reply notes (live_in session.old (beyond (F.state files.old).files lines whole)) name.now)
        session.old.command result (live_in session.new (beyond (F.state files.new).files lines whole)) tells text text
        (notes_said session.old.notes) (notes_said session.new.notes) }
    ensures step { IsTrue F.tells
        → StaysWhereAlone session.old session.new (F.state files.old).files (F.state files.new).files }
    ensures undone { (text : List ℕ) → result ≡ Err OutOfMemory
        → IsUndone true None true session.old session.new text text (F.state files.old) (F.state files.new) }
    ensures keeps { KeepsOwn session.old.command session.new.machine.time F.tells result session.old.notes
        session.new.notes (F.state files.old) (F.state files.new) }
    ensures whose { AreOwn session.old.machine.slots session.new.machine.slots session.old.notes session.new.notes
        (F.state files.old) (F.state files.new) }
    ensures answers { OfSave result }
    ensures machine { MachineRemains true session.old.machine session.new.machine }
    ensures own { IsOwn result }
    ensures exit { IsExitAnswer result }
    ensures watch { session.new.watch ≡ session.old.watch }
    ensures units { session.new.machine.units ≡ session.old.machine.units }
    ensures terminals { session.new.machine.lines ≡ session.old.machine.lines }
    ensures keys { session.new.keys ≡ session.old.keys }
    ensures limit { session.new.limit ≡ session.old.limit }
    ensures command { session.new.command ≡ session.old.command }
    ensures open { AllOpen session.new.machine.slots (F.state files.new).opened }
    ensures around { (base : List Opened) → Around session.old.machine.slots base (F.state files.old).opened
        → Around session.new.machine.slots base (F.state files.new).opened }
{
    let stamp = stamp_of(session);
    match take_state(alloc, &mut session.machine, &session.watch, files) {
        Ok(saved) => {
            let written = write_saved(alloc, &saved, name, files);
            note_writing(&mut session.notes, Subject::State, written, stamp);
            written_answer(Subject::State, written.answer)
        }
        Err(fault) => {
            note_saving(&mut session.notes, fault, stamp);
            Err(fault_of_save(fault))
        }
    }
}

// Notes the call on a unit's file for which a session was not saved.
fn note_saving(notes: &mut Vec<FaultNote>, fault: SaveFault, stamp: Stamp)
    requires { vec_len notes.old < vec_capacity notes.old }
    ensures notes { notes.new.items ≡ notes.old.items ++ save_notes stamp fault }
    ensures capacity { vec_capacity notes.old ≤ vec_capacity notes.new }
{
    match fault {
        SaveFault::Failed(fault) => keep(notes, note_of(fault, stamp)),
        SaveFault::OutOfMemory => (),
    }
}

// Writes a saved session as the file of a name.
fn write_saved<F: Files>(alloc: Global, saved: &Saved, name: &str, files: &mut F) -> Written
    requires { Fits (state_in saved.now) }
    ensures said { IsTrue F.tells → IfSome (said_of_writing result.answer) (λ said.
        write_act (claimed_in_writing result) name.now (text (state_in saved.now)) (F.state files.old).files
        ≡ record { said = said; met = length (claimed_in_writing result); files = (F.state files.new).files }) }
    ensures made { IsTrue F.tells → result.answer ≢ Err whole.NoFile }
    ensures unmade { WasNotOpened result.answer → (F.state files.new).files ≡ (F.state files.old).files }
    ensures shape { HasWriteShape (text (state_in saved.now)) result }
    ensures opened { (F.state files.new).opened ≡ (F.state files.old).opened }
    ensures counts { (file : ℕ) → (F.state files.new).faults file
        ≡ raised_by (write_claims_on result file) ((F.state files.old).faults file) }
    ensures openings { (F.state files.new).open_faults ≡ (if unmade_counted F.tells result
        then raised (F.state files.old).open_faults else (F.state files.old).open_faults) }
    ensures failed { IsNew result.failed (F.state files.old) (F.state files.new) }
    ensures closing { IsNew result.closing (F.state files.old) (F.state files.new) }
    ensures ids { (F.state files.old).given ≤ (F.state files.new).given }
    ensures one { (F.state files.new).given ≤ (F.state files.old).given + 1 }
{
    match write_state(alloc, saved) {
        Ok(text) => write_file(alloc, name, text.as_slice(), files),
        Err(_) => Written {
            answer: Err(WholeFault::OutOfMemory),
            failed: None,
            done: 0,
            closing: None,
        },
    }
}
