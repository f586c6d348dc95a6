// Rows of tables: a line of fields between bars, each of which is its name, = and its text.
use std::alloc::{AllocError, Global};

/// A line, and the one that has the fields which it does not have.
#[derive(Clone, Copy)]
pub struct Row<'a> {
    pub base: &'a str,
    pub line: &'a str,
}

/// The text of a field, if there is one.
pub fn text<'a>(row: Row<'a>, name: &str) -> Option<&'a str> {
    match field(row.line, name) {
        Some(text) => Some(text),
        None => field(row.base, name),
    }
}

fn field<'a>(line: &'a str, name: &str) -> Option<&'a str> {
    for part in line.split(" | ") {
        if let Some((found, text)) = part.split_once('=') {
            if found == name {
                return Some(text);
            }
        }
    }
    None
}

/// The number in a field, or another where there is no such field.
pub fn number(row: Row<'_>, name: &str, usual: u64) -> u64 {
    match text(row, name) {
        Some(text) => decimal(text),
        None => usual,
    }
}

pub fn decimal(digits: &str) -> u64 {
    digits.parse::<u64>().unwrap_or(u64::MAX)
}

/// The bytes of these fields, one behind the other.
pub fn bytes(
    alloc: Global,
    row: Row<'_>,
    first: &str,
    second: &str,
) -> Result<Vec<u8>, AllocError> {
    let mut bytes = Vec::new(alloc);
    add(&mut bytes, text(row, first).unwrap_or(""))?;
    add(&mut bytes, text(row, second).unwrap_or(""))?;
    Ok(bytes)
}

/// Adds the bytes that a text stands for: each character is the byte of its number, but ~, which ends a line, and …, which
/// stands for as many bytes of 0 as its sector of 512 lacks.
pub fn add(bytes: &mut Vec<u8>, text: &str) -> Result<(), AllocError> {
    for letter in text.chars() {
        match letter {
            '~' => bytes.push(b'\n')?,
            '…' => fill(bytes)?,
            _ => bytes.push((u32::from(letter) % 256) as u8)?,
        }
    }
    Ok(())
}

fn fill(bytes: &mut Vec<u8>) -> Result<(), AllocError> {
    for _ in 0..511 {
        if bytes.len() % 512 != 0 {
            bytes.push(0)?;
        }
    }
    Ok(())
}
