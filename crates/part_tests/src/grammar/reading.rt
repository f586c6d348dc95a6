// Rows of tables: a command line, a bar, and what it reads as.
use crate::checked::holds;
use crate::grammar::faults::fault;
use crate::grammar::lists::{same_condition, same_list, same_test};
use crate::grammar::seen::seen;
use crate::grammar::words::numbers;
use scp_parser::{Command, Verb, read_command};
use std::process::Abort;

/// Reads the line of each row into the same command, and compares.
///
/// Behind the bar stands a fault and its place, or a command and its operands: numbers and places in the line, of which -
/// is one that was left out and `max` is 2^64 - 1. `Items` and `Where` are the list and the condition of an EXAMINE or a
/// DEPOSIT. Behind a second bar stands the name of a file.
pub fn all(rt: &impl Abort, table: &str) {
    let mut command = Command::new();
    for row in table.lines() {
        match row.split_once('|') {
            Some((line, wanted)) => reads(rt, &mut command, line, wanted),
            None => holds(rt, row.is_empty(), row),
        }
    }
}

fn reads(rt: &impl Abort, command: &mut Command, line: &str, wanted: &str) {
    let answer = read_command(line.as_bytes(), command);
    match fault(wanted) {
        Some(fault) => holds(rt, answer == Err(fault), line),
        None => {
            holds(rt, answer == Ok(()) && command.length == line.len(), line);
            asks(rt, command, line, wanted);
        }
    }
}

fn asks(rt: &impl Abort, command: &Command, line: &str, wanted: &str) {
    match wanted.split_once('|') {
        Some((wanted, name)) => {
            verb_is(rt, &command.verb, line, wanted);
            names(rt, command, line, name);
        }
        None => verb_is(rt, &command.verb, line, wanted),
    }
}

fn verb_is(rt: &impl Abort, verb: &Verb, line: &str, wanted: &str) {
    let (name, operands) = wanted.split_once(' ').unwrap_or((wanted, ""));
    match name {
        "Items" => same_list(rt, verb, line, operands),
        "Where" => same_condition(rt, verb, line, operands),
        "Assert" => same_test(rt, verb, line, operands),
        _ => {
            let (given, held) = seen(verb);
            holds(rt, given == name && held == numbers(operands), line);
        }
    }
}

fn names(rt: &impl Abort, command: &Command, line: &str, name: &str) {
    match &command.verb {
        Verb::Attach { .. } => holds(rt, command.file_name() == name, line),
        _ => holds(rt, false, line),
    }
}
