//! All commands by one call: which crate does each of them, its effect, and what is said of every command.
#![tactic(auto)]

mod execute_command;
mod family;

pub use command_session::{
    CommandFault, DoFile, MOST_INSTRUCTIONS, Next, ScriptText, Session, is_count,
};
pub use execute_command::execute;
pub use file_commands::{FaultNote, Subject};
