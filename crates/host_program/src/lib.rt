//! What a program of sessions runs with on a system: the words of its command line, the standard units, the standard
//! streams, the files of the system and sockets of this machine.
#![tactic(auto)]

pub mod program;
mod running;
mod words;

pub use program::Program;
pub use running::run_on_host;
