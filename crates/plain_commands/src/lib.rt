//! The commands that work on no file and no line: EXAMINE, DEPOSIT, RESET, those of breaks, of expected and of sent
//! texts, SET, SHOW, GOTO, ASSERT and ECHO.
#![tactic(auto)]

mod list_commands;
mod list_faults;
mod quoted_text;
mod reset_command;
mod script_commands;
mod set_command;
mod show_command;
mod show_ports;
mod show_watch;
mod untold_commands;
mod watch_commands;

pub use untold_commands::obey_untold;
