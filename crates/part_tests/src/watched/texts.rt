// Words of lines.
/// What stands before and behind a sign; nothing behind it where it is not there.
pub fn cut(text: &str, sign: char) -> (&str, &str) {
    text.split_once(sign).unwrap_or((text, ""))
}

/// A decimal number.
pub fn number(digits: &str) -> u64 {
    digits.parse().unwrap_or(u64::MAX)
}

/// A decimal number of 32 bits.
pub fn count(digits: &str) -> u32 {
    digits.parse().unwrap_or(u32::MAX)
}

/// A decimal number of a place in a list.
pub fn place(digits: &str) -> Option<usize> {
    digits.parse().ok()
}
