// Lines of text, and bytes as hexadecimal digits.
ghost use Rattle.std.specs.Prelude.{◌≤◌, IfSome};

use std::alloc::Global;

/// What stands before and behind a sign; nothing behind it where it is not there.
pub fn cut(text: &str, sign: char) -> (&str, &str) {
    text.split_once(sign).unwrap_or((text, ""))
}

/// The bytes that a text has as two digits each, with blanks between; a text of one dash has none.
pub fn bytes_of(alloc: Global, text: &str) -> Option<Vec<u8>> {
    let mut bytes = Vec::new(alloc);
    if text == "-" {
        return Some(bytes);
    }
    for word in text.split(' ') {
        bytes.push(byte_of(word)?).ok()?;
    }
    Some(bytes)
}

/// A byte of two digits.
pub fn byte_of(word: &str) -> Option<u8> {
    match word.as_bytes() {
        [high, low] => Some(digit(*high)? * 16 + digit(*low)?),
        _ => None,
    }
}

fn digit(byte: u8) -> Option<u8>
    ensures { IfSome result (λ n. n ≤ 15) }
{
    match byte {
        b'0'..=b'9' => Some(byte - b'0'),
        b'A'..=b'F' => Some(byte - b'A' + 10),
        _ => None,
    }
}
