// Lines of text: columns with bars between them, calls with what they answer, and what is asserted of them.
use host_files::FileCall;
use std::fmt::Debug;
use std::process::Abort;

/// A call and its answer, as `write@6:abc=ok`.
#[derive(Clone, Copy)]
pub struct Call<'a> {
    pub word: &'a str,
    pub verb: &'a str,
    pub first: &'a str,
    pub second: &'a str,
    pub third: &'a str,
    pub answer: &'a str,
}

pub fn call_of(word: &str) -> Call {
    let (call, answer) = word.split_once('=').unwrap_or((word, "no answer"));
    let (verb, rest) = call.split_once('@').unwrap_or((call, ""));
    let (first, rest) = rest.split_once(':').unwrap_or((rest, ""));
    let (second, third) = rest.split_once(':').unwrap_or((rest, ""));
    Call {
        word,
        verb,
        first,
        second,
        third,
        answer,
    }
}

/// The columns of a line; those that it has not are empty.
#[derive(Clone, Copy)]
pub struct Columns<'a> {
    pub first: &'a str,
    pub second: &'a str,
    pub third: &'a str,
    pub fourth: &'a str,
}

pub fn columns_of(line: &str) -> Columns {
    let (first, rest) = cut(line);
    let (second, rest) = cut(rest);
    let (third, fourth) = cut(rest);
    Columns {
        first,
        second,
        third,
        fourth,
    }
}

/// What stands before and behind the first bar.
fn cut(line: &str) -> (&str, &str) {
    let (before, behind) = line.split_once(" |").unwrap_or((line, ""));
    (before, behind.strip_prefix(' ').unwrap_or(behind))
}

/// A decimal number.
pub fn number(digits: &str) -> Option<u64> {
    digits.parse().ok()
}

/// A decimal number that counts bytes.
pub fn size(digits: &str) -> Option<usize> {
    digits.parse().ok()
}

/// A call on a file, by its name.
pub fn file_call(name: &str) -> Option<FileCall> {
    match name {
        "Opening" => Some(FileCall::Opening),
        "Length" => Some(FileCall::Length),
        "Read" => Some(FileCall::Read),
        "Write" => Some(FileCall::Write),
        "Closing" => Some(FileCall::Closing),
        _ => None,
    }
}

/// It is so at that line.
pub fn holds(rt: &impl Abort, so: bool, line: &str) {
    assert!(rt; so, "{line}");
}

/// At that line this was found, and that was wanted.
pub fn equal<T: PartialEq + Debug>(rt: &impl Abort, found: &T, wanted: &T, line: &str) {
    assert_eq!(rt; found, wanted, "{line}");
}

/// Whether the bytes are those of a text, in which a dot stands for a zero byte.
pub fn stand_for(bytes: &[u8], text: &str) -> bool {
    for (byte, wanted) in bytes.iter().zip(text.as_bytes()) {
        if *byte != *wanted && (*byte != 0 || *wanted != b'.') {
            return false;
        }
    }
    bytes.len() == text.len()
}
