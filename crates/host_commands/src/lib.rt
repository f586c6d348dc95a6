//! The commands that work on files and lines of the host: ATTACH, DETACH and SET DISCONNECT, DO, LOAD and DUMP, and
//! EXIT.
#![tactic(auto)]

mod do_command;
mod dump_command;
mod exit_command;
mod hosted;
mod line_commands;
mod load_command;
mod unit_commands;

pub use hosted::obey_host;
