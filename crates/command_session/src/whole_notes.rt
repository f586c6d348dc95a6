// The notes of the calls on a file that a command reads or writes whole.
ghost use Rattle.std.specs.Prelude.{◌≡◌, ◌≤◌, ◌+◌, ◌++◌, vec_len, vec_capacity};
ghost use Rattle.command_session.specs.WholeCalls.{call_notes, read_notes, write_notes, written_answer};

use crate::fault::CommandFault;
use crate::next::Next;
use file_commands::{FaultNote, Stamp, Subject, keep};
use whole_files::{FailedCall, Whole, WholeFault, Written};

/// Notes the calls of a reading that failed.
pub fn note_reading(notes: &mut Vec<FaultNote>, whose: Subject, whole: &Whole, stamp: Stamp)
    requires { vec_len notes.old + 2 ≤ vec_capacity notes.old }
    ensures notes { notes.new.items ≡ notes.old.items ++ read_notes whose stamp whole.now }
    ensures capacity { vec_capacity notes.old ≤ vec_capacity notes.new }
{
    note_call(notes, whose, 0, whole.failed, stamp);
    note_call(notes, whose, 0, whole.closing, stamp);
}

/// Notes the calls of a writing that failed.
pub fn note_writing(notes: &mut Vec<FaultNote>, whose: Subject, written: Written, stamp: Stamp)
    requires { vec_len notes.old + 2 ≤ vec_capacity notes.old }
    ensures notes { notes.new.items ≡ notes.old.items ++ write_notes whose stamp written }
    ensures capacity { vec_capacity notes.old ≤ vec_capacity notes.new }
{
    note_call(notes, whose, written.done, written.failed, stamp);
    note_call(notes, whose, 0, written.closing, stamp);
}

/// What is answered of a file that was written, or not.
pub fn written_answer(whose: Subject, answer: Result<(), WholeFault>) -> Result<Next, CommandFault>
    ensures { result ≡ written_answer whose answer }
{
    match answer {
        Ok(()) => Ok(Next::Go),
        Err(fault) => Err(CommandFault::of_whole(whose, fault)),
    }
}

/// Notes a call, where it failed. It had written so many bytes.
pub fn note_call(
    notes: &mut Vec<FaultNote>,
    whose: Subject,
    done: u64,
    failed: Option<FailedCall>,
    stamp: Stamp,
)
    requires { vec_len notes.old + 1 ≤ vec_capacity notes.old }
    ensures notes { notes.new.items ≡ notes.old.items ++ call_notes whose stamp done failed }
    ensures few { vec_len notes.new ≤ vec_len notes.old + 1 }
    ensures capacity { vec_capacity notes.old ≤ vec_capacity notes.new }
{
    match failed {
        None => (),
        Some(failed) => keep(
            notes,
            FaultNote {
                command: stamp.command,
                time: stamp.time,
                subject: whose,
                file: failed.file,
                call: failed.call,
                done,
            },
        ),
    }
}
