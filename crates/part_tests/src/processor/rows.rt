// Rows of tables: octal numbers, with bars between the columns.
use nova_word::{Addr, Word, read_octal};

/// The octal numbers of a column, where it has that many, each of 16 bits.
pub fn octals<const N: usize>(column: &str) -> Option<[u16; N]> {
    if column.split_whitespace().count() != N {
        return None;
    }
    let mut list = [0; N];
    for (number, word) in list.iter_mut().zip(column.split_whitespace()) {
        match octal(word) {
            Some(n) => *number = n,
            None => return None,
        }
    }
    Some(list)
}

/// An octal number of 16 bits.
pub fn octal(word: &str) -> Option<u16> {
    match read_octal(word.as_bytes()) {
        Ok(number) => u16::try_from(number).ok(),
        Err(_) => None,
    }
}

/// The first column of a line, and those behind it.
pub fn cut(line: &str) -> (&str, &str) {
    line.split_once(" | ").unwrap_or((line, ""))
}

/// The address with that number.
pub fn at(number: u16) -> Addr {
    Addr::of_word(Word(number))
}

pub fn words(numbers: [u16; 4]) -> [Word; 4] {
    let [ac0, ac1, ac2, ac3] = numbers;
    [Word(ac0), Word(ac1), Word(ac2), Word(ac3)]
}
