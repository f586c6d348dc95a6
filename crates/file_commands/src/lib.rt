//! What ATTACH and DETACH do with the files of units, and the notes of a session: one for each call on a file that
//! failed, in order. Each says in which command it failed, when, for whom, which file and which call it was, and how
//! many bytes a write had written.
#![tactic(auto)]

pub mod all_units;
mod keeping;
pub mod laws;
pub mod note;
pub mod one_unit;
pub mod stamp;

pub use all_units::{ATTACHABLE, detach_all};
pub use keeping::{NOTES_OF_A_COMMAND, keep, take_room};
pub use laws::{commands_take_their_notes, counts_add_up};
pub use note::{FaultNote, Subject};
pub use one_unit::{attach_unit, detach_unit};
pub use stamp::{Stamp, note_of};
pub use std::alloc::AllocError as OutOfMemory;
