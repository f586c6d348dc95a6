//! What comes to a run from outside it, and what stops it and goes on: keys that are typed at given times, bytes that
//! are sent to the keyboard, breaks, expects, and the actions that wait to be done.
#![tactic(auto)]

pub mod actions;
pub mod breaks;
pub mod expects;
pub mod full;
pub mod keys;
mod keys_lines;
mod marks;
pub mod sends;
mod splits;
mod texts;
pub mod watch;

pub use actions::{Actions, actions_are_pieces};
pub use breaks::{Breaks, breaks_are_a_map};
pub use expects::Expects;
pub use full::{AddFault, Full};
pub use keys::{Keys, KeysFault, keys_files_have_one_answer};
pub use sends::{Sends, sends_stay_in_time};
pub use std::alloc::AllocError as OutOfMemory;
pub use watch::{Watch, tables_are_filled};
