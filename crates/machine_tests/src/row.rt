// Rows of tables: a line of fields between bars, each of which is its name, a colon and its text.
use nova_word::{read_decimal, read_octal};
use std::alloc::{AllocError, Global};
use std::process::Abort;

/// A line, and the one that has the fields which it does not have.
#[derive(Clone, Copy)]
pub struct Row<'a> {
    pub base: &'a str,
    pub line: &'a str,
}

/// It is so at that line.
pub fn check(rt: &impl Abort, so: bool, line: &str) {
    assert!(rt; so, "{line}");
}

/// The text of a field, if there is one.
pub fn field<'a>(row: Row<'a>, name: &str) -> Option<&'a str> {
    match field_of(row.line, name) {
        Some(text) => Some(text),
        None => field_of(row.base, name),
    }
}

fn field_of<'a>(line: &'a str, name: &str) -> Option<&'a str> {
    for part in line.split(" | ") {
        if let Some((found, text)) = part.split_once(':') {
            if found == name {
                return Some(text.strip_prefix(' ').unwrap_or(text));
            }
        }
    }
    None
}

/// The text of a field; nothing where there is none.
pub fn text<'a>(row: Row<'a>, name: &str) -> &'a str {
    field(row, name).unwrap_or("")
}

/// What stands before and behind a sign; nothing behind it where it is not there.
pub fn cut(word: &str, sign: char) -> (&str, &str) {
    word.split_once(sign).unwrap_or((word, ""))
}

pub fn octal(digits: &str) -> Option<u32> {
    read_octal(digits.as_bytes()).ok()
}

/// An octal number of 16 bits.
pub fn octal_word(digits: &str) -> u16 {
    (octal(digits).unwrap_or(0) % 65536) as u16
}

/// A decimal number.
pub fn decimal(digits: &str) -> u64 {
    read_decimal(digits.as_bytes()).unwrap_or(u64::MAX)
}

/// A decimal number below 65536.
pub fn small(digits: &str) -> usize {
    (read_decimal(digits.as_bytes()).unwrap_or(0) % 65536) as usize
}

/// A decimal number of 32 bits.
pub fn count(digits: &str) -> u32 {
    (read_decimal(digits.as_bytes()).unwrap_or(0) % 4294967296) as u32
}

/// The byte that a letter stands for: that of its number, but ~, which ends a line.
pub fn byte_of(letter: char) -> u8 {
    if letter == '~' {
        b'\n'
    } else {
        (u32::from(letter) % 256) as u8
    }
}

/// The bytes that a text stands for.
pub fn bytes(alloc: Global, text: &str) -> Result<Vec<u8>, AllocError> {
    let mut bytes = Vec::new(alloc);
    for letter in text.chars() {
        bytes.push(byte_of(letter))?;
    }
    Ok(bytes)
}
