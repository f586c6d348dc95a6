ghost use Rattle.std.specs.Prelude.{◌≡◌, ◌+◌, ◌-◌, ◌≤◌, ◌<◌, ◌++◌, ◌∷◌, [], vec_len, vec_capacity, OnOk, OnErr};

use crate::note::FaultNote;
use std::alloc::AllocError;

/// How many notes a command keeps at most: the files of all units may fail to be closed.
pub const NOTES_OF_A_COMMAND: usize = 16;

/// Takes the memory for the notes of one more command. Where it is there already, it is not refused.
pub fn take_room(notes: &mut Vec<FaultNote>) -> Result<(), AllocError>
    ensures notes { notes.new.items ≡ notes.old.items }
    ensures room { OnOk result (vec_len notes.new + 16 ≤ vec_capacity notes.new) }
    ensures refused { OnErr result (vec_capacity notes.old < vec_len notes.old + 16) }
    ensures capacity { vec_capacity notes.old ≤ vec_capacity notes.new }
{
    if notes.capacity() - notes.len() >= NOTES_OF_A_COMMAND {
        return Ok(());
    }
    notes.reserve(NOTES_OF_A_COMMAND)
}

/// Keeps a note, whose memory was taken before.
pub fn keep(notes: &mut Vec<FaultNote>, note: FaultNote)
    requires { vec_len notes.old < vec_capacity notes.old }
    ensures notes { notes.new.items ≡ notes.old.items ++ note ∷ [] }
    ensures room { vec_capacity notes.old ≤ vec_capacity notes.new }
{
    notes.push(note).unwrap();
}
