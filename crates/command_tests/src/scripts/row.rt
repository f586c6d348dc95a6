// Rows of tables: a line of fields between bars, each of which is its name, = and its text.
use std::alloc::{AllocError, Global};

/// A line, and the one that has the fields which it does not have.
#[derive(Clone, Copy)]
pub struct Row<'a> {
    pub base: &'a str,
    pub line: &'a str,
}

/// The text of a field, if there is one.
pub fn text<'a>(row: Row<'a>, name: &str) -> Option<&'a str> {
    match field(row.line, name) {
        Some(text) => Some(text),
        None => field(row.base, name),
    }
}

fn field<'a>(line: &'a str, name: &str) -> Option<&'a str> {
    for part in line.split(" | ") {
        if let Some((found, text)) = part.split_once('=') {
            if found == name {
                return Some(text);
            }
        }
    }
    None
}

/// The number in a field, or another where there is no such field.
pub fn number(row: Row<'_>, name: &str, usual: u64) -> u64 {
    match text(row, name) {
        Some(text) => decimal(text),
        None => usual,
    }
}

pub fn decimal(digits: &str) -> u64 {
    digits.parse::<u64>().unwrap_or(u64::MAX)
}

/// The bytes of a text, in which ~ ends a line.
pub fn bytes(alloc: Global, text: &str) -> Result<Vec<u8>, AllocError> {
    let mut bytes = Vec::new(alloc);
    for byte in text.as_bytes() {
        bytes.push(if *byte == b'~' { b'\n' } else { *byte })?;
    }
    Ok(bytes)
}
