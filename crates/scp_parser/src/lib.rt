//! The grammar of command lines: which line is which command, and the one fault of a line that is none.
#![tactic(auto)]

mod attachment;
pub mod command;
pub mod fault;
mod media;
pub mod names;
mod operands;
pub mod reader;
mod script_commands;
mod settings;
mod subject;
mod tail;
mod watches;

pub use command::{Command, LONGEST_FILE_NAME, LONGEST_LINE, Piece, Shown, Verb};
pub use fault::ParseFault;
pub use names::{AloneName, CommandName, command_named};
pub use operand_forms::{
    Condition, Item, Items, Listing, MOST_ITEMS, Name, Rel, Test, register_name,
};
pub use reader::{
    each_line_has_a_command_or_a_fault, no_line_is_two_commands, read_command, requests_are_kept,
};
