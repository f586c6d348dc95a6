//! The commands that run: RUN, GO, CONT and STEP, and what a stop prints.
#![tactic(auto)]

mod run_commands;
mod running;
mod stop_line;

pub use running::obey_run;
