//! SAVE and RESTORE.
#![tactic(auto)]

mod restore_command;
mod save_command;
mod state_faults;
mod state_notes;
mod state_reading;

pub use restore_command::restore;
pub use save_command::save;
