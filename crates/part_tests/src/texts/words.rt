// The words of a line.
use crate::checked::holds;
use line_text::{is_spelled, past_blanks, trimmed, word_at};

/// A text, its first word, and what follows that.
const FIRST: [(&str, &str, &str); 6] = [
    ("", "", ""),
    (" \t ", "", ""),
    ("E 100", "E", " 100"),
    ("\t E\t100", "E", "\t100"),
    ("E", "E", ""),
    ("  E ", "E", " "),
];

fn begins(text: &[u8], word: &[u8], rest: &[u8]) -> bool {
    let (first, behind) = word_at(past_blanks(text));
    first == word && behind == rest
}

#[test]
fn words_stand_between_blanks(rt: HostRuntime) {
    for row in FIRST.iter() {
        let so = begins(row.0.as_bytes(), row.1.as_bytes(), row.2.as_bytes());
        holds(&rt, so, row.0);
    }
}

/// A text, and what is left without the blanks at its end.
const TRIMMED: [(&str, &str); 5] = [
    ("", ""),
    (" \t", ""),
    ("a b", "a b"),
    (" a \t", " a"),
    ("a\n ", "a\n"),
];

#[test]
fn blanks_at_the_end_are_cut_off(rt: HostRuntime) {
    for row in TRIMMED.iter() {
        holds(&rt, trimmed(row.0.as_bytes()) == row.1.as_bytes(), row.0);
    }
}

/// A word, a name, and whether the word is that name.
const SPELLED: [(&str, &str, bool); 7] = [
    ("stop_dev", "STOP_DEV", true),
    ("Mta0", "MTA0", true),
    ("LDA", "LDA", true),
    ("LD", "LDA", false),
    ("LDAS", "LDA", false),
    ("AC0", "AC1", false),
    ("", "", true),
];

#[test]
fn names_are_spelled_in_either_case(rt: HostRuntime) {
    for row in SPELLED.iter() {
        let so = is_spelled(row.0.as_bytes(), row.1.as_bytes());
        holds(&rt, so == row.2, row.0);
    }
}
