// What there is to be behind a row.
use crate::names::{Place, kind_of, value_of};
use crate::places::{REGISTERS, held, is};
use crate::row::{Row, byte_of, check, cut, decimal, field, text};
use event_queue::Events;
use host_files::{ByteSink, MemFiles, Sink};
use nova_machine::Machine;
use std::process::Abort;
use unit_trait::{Unit, UnitName};

pub fn stands<U: Unit>(
    rt: &impl Abort,
    machine: &Machine<U>,
    row: Row<'_>,
    stood: &[Option<u32>; 22],
) {
    check(rt, is_number(row, "time", machine.time()), row.line);
    check(rt, is_number(row, "taken", machine.keys_taken()), row.line);
    check(rt, events_wait(machine.events(), row), row.line);
    check(rt, shows(machine, text(row, "shows")), row.line);
    check(rt, has(machine, row, stood), row.line);
    machine.core();
}

fn is_number(row: Row<'_>, name: &str, found: u64) -> bool {
    match field(row, name) {
        Some(wanted) => found == decimal(wanted),
        None => true,
    }
}

/// Whether these events wait, in this order, and no others: `TTI=97`.
fn events_wait(events: &Events, row: Row<'_>) -> bool {
    let Some(queue) = field(row, "queue") else {
        return true;
    };
    let mut wanted = queue.split_whitespace();
    for place in 0..4usize {
        match (events.in_order(place), wanted.next()) {
            (Some(found), Some(word)) => {
                if !is_event(found, word) {
                    return false;
                }
            }
            (None, None) => return true,
            _ => return false,
        }
    }
    false
}

fn is_event(found: (UnitName, u64), word: &str) -> bool {
    let (device, time) = cut(word, '=');
    kind_of(device) == Some(found.0.kind) && found.0.unit == 0 && found.1 == decimal(time)
}

/// Whether the machine holds these values.
fn shows<U: Unit>(machine: &Machine<U>, words: &str) -> bool {
    for word in words.split_whitespace() {
        if !is(machine, word) {
            return false;
        }
    }
    true
}

/// Whether the machine holds the values that are named, and else what it held before.
fn has<U: Unit>(machine: &Machine<U>, row: Row<'_>, stood: &[Option<u32>; 22]) -> bool {
    match field(row, "has") {
        Some(named) => {
            shows(machine, named)
                && registers_stand(machine, named, stood)
                && words_stand(machine, named, text(row, "put"))
        }
        None => true,
    }
}

fn registers_stand<U: Unit>(machine: &Machine<U>, named: &str, stood: &[Option<u32>; 22]) -> bool {
    for (place, value) in REGISTERS.iter().zip(stood.iter()) {
        if held(machine, *place) != value_in(named, *place).or(*value) {
            return false;
        }
    }
    true
}

/// What was put is there still, unless it is named behind.
fn words_stand<U: Unit>(machine: &Machine<U>, named: &str, words: &str) -> bool {
    for word in words.split_whitespace() {
        if !stays(machine, named, word) {
            return false;
        }
    }
    true
}

fn stays<U: Unit>(machine: &Machine<U>, named: &str, word: &str) -> bool {
    match value_of(word) {
        Some((place, value)) => held(machine, place) == value_in(named, place).or(Some(value)),
        None => false,
    }
}

/// The value that is named for a place.
fn value_in(words: &str, wanted: Place) -> Option<u32> {
    for word in words.split_whitespace() {
        if let Some((place, value)) = value_of(word) {
            if place == wanted {
                return Some(value);
            }
        }
    }
    None
}

/// The console has these bytes, and has refused so many.
pub fn prints(rt: &impl Abort, console: &ByteSink, row: Row<'_>) {
    check(rt, has_printed(console, row), row.line);
    check(rt, is_number(row, "faults", console.faults()), row.line);
}

fn has_printed(console: &ByteSink, row: Row<'_>) -> bool {
    match field(row, "prints") {
        Some(wanted) => console.bytes() == wanted.as_bytes(),
        None => true,
    }
}

/// Whether files have the bytes that are named, and else those that they had.
pub fn files_stand(files: &MemFiles, row: Row<'_>) -> bool {
    are_as_named(files, text(row, "left")) && are_as_before(files, row)
}

fn are_as_named(files: &MemFiles, words: &str) -> bool {
    for word in words.split(' ') {
        if let Some((name, text)) = word.split_once('=') {
            if !is_file(files, name, text) {
                return false;
            }
        }
    }
    true
}

fn are_as_before(files: &MemFiles, row: Row<'_>) -> bool {
    for word in text(row, "files").split(' ') {
        if let Some((name, text)) = word.split_once('=') {
            if !is_file(files, name, text_in(row, name).unwrap_or(text)) {
                return false;
            }
        }
    }
    true
}

/// What is named for a file.
fn text_in<'a>(row: Row<'a>, wanted: &str) -> Option<&'a str> {
    for word in text(row, "left").split(' ') {
        if let Some((name, text)) = word.split_once('=') {
            if name == wanted {
                return Some(text);
            }
        }
    }
    None
}

fn is_file(files: &MemFiles, name: &str, text: &str) -> bool {
    match files.file_bytes(name) {
        Some(bytes) => stand_for(bytes, text),
        None => false,
    }
}

fn stand_for(bytes: &[u8], text: &str) -> bool {
    for (byte, letter) in bytes.iter().zip(text.chars()) {
        if *byte != byte_of(letter) {
            return false;
        }
    }
    bytes.len() == text.chars().count()
}
