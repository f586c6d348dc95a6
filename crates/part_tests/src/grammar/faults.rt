use crate::checked::holds;
use crate::grammar::words::place;
use scp_parser::{Command, ParseFault, read_command};
use std::process::Abort;

/// The fault that a row names, if it names one.
pub fn fault(wanted: &str) -> Option<ParseFault> {
    let (name, at) = wanted.split_once(' ').unwrap_or((wanted, ""));
    match name {
        "Unknown" => Some(ParseFault::Unknown),
        "Missing" => Some(ParseFault::Missing),
        "BadNumber" => Some(ParseFault::BadNumber(place(at))),
        "BadName" => Some(ParseFault::BadName(place(at))),
        "BadSymbol" => Some(ParseFault::BadSymbol(place(at))),
        "Extra" => Some(ParseFault::Extra(place(at))),
        _ => None,
    }
}

/// A line of these bytes is no command, for that fault.
pub fn refused(rt: &impl Abort, command: &mut Command, line: &[u8], fault: ParseFault) {
    holds(
        rt,
        read_command(line, command) == Err(fault),
        "a line is not refused so",
    );
}

/// A line of these bytes is a command.
pub fn taken(rt: &impl Abort, command: &mut Command, line: &[u8]) {
    holds(
        rt,
        read_command(line, command) == Ok(()),
        "a line is not taken",
    );
}
