ghost use Rattle.std.specs.Prelude.{◌≡◌, ◌≤◌, ◌+◌, ◌++◌, vec_len, vec_capacity};
ghost use Rattle.file_commands.specs.declared.note.Subject.TheVariants.{State as of_state};
ghost use Rattle.state_commands.specs.StateReading.{whole_of};
ghost use Rattle.command_session.specs.WholeCalls.{read_notes};

use crate::state_reading::StateRead;
use command_session::note_call;
use file_commands::{FaultNote, Stamp, Subject};

/// Notes the calls of a state file's reading that failed.
pub fn note_state_reading(notes: &mut Vec<FaultNote>, read: &StateRead, stamp: Stamp)
    requires { vec_len notes.old + 2 ≤ vec_capacity notes.old }
    ensures notes { notes.new.items ≡ notes.old.items ++ read_notes of_state stamp (whole_of read.now) }
    ensures few { vec_len notes.new ≤ vec_len notes.old + 2 }
    ensures capacity { vec_capacity notes.old ≤ vec_capacity notes.new }
{
    note_call(notes, Subject::State, 0, read.failed, stamp);
    note_call(notes, Subject::State, 0, read.closing, stamp);
}
