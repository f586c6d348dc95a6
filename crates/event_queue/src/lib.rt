//! The events that wait: each unit has at most one, which is due after so many instructions.
#![tactic(auto)]

mod active;
mod delta;
mod deltas;
mod differences;
pub mod events;
pub mod laws;
mod pairs;
mod waiting;

pub use delta::Delta;
pub use events::Events;
pub use laws::{agenda_stands_again, lists_stay_sound, remaining_times_are_due_times};
pub use std::alloc::AllocError as OutOfMemory;
