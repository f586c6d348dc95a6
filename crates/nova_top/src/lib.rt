//! The top of the control program: from words, an input and a console to a status and a machine.
#![tactic(auto)]

pub mod program;

pub use command_words::is_standard;
pub use program::{Ending, simulate};
