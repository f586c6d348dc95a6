// Quoted texts, and the bytes that they stand for.
use crate::checked::holds;
use nova_word::read_quoted;

/// A text, the bytes of the quoted text that it begins with, and the place behind that.
const QUOTED: [(&str, &[u8], usize); 9] = [
    ("\"\"", b"", 2),
    ("\"OK\"", b"OK", 4),
    ("\" ~\" more", b" ~", 4),
    ("\"a\"b\"", b"a", 3),
    ("\"\\r\\n\\t\"", b"\r\n\t", 8),
    ("\"\\\\\\\"\"", b"\\\"", 6),
    ("\"\\005\"\n", b"\x05", 6),
    ("\"\\000\\377\"", b"\x00\xff", 10),
    ("\"\\1018\"", b"A8", 7),
];

fn reads(text: &[u8], bytes: &[u8], behind: usize) -> bool {
    let mut out = [0u8; 32];
    if text.len() > 32 {
        return false;
    }
    match read_quoted(text, &mut out) {
        None => false,
        Some((count, place)) => place == behind && &out[..count] == bytes,
    }
}

#[test]
fn quoted_texts_stand_for_their_bytes(rt: HostRuntime) {
    for row in QUOTED.iter() {
        holds(&rt, reads(row.0.as_bytes(), row.1, row.2), row.0);
    }
}

const OTHERS: [&str; 14] = [
    "",
    "OK",
    " \"OK\"",
    "\"",
    "\"OK",
    "\"OK\\\"",
    "\"\\x\"",
    "\"\\R\"",
    "\"\\400\"",
    "\"\\08\"",
    "\"\\12\"",
    "\"\t\"",
    "\"\x7f\"",
    "\"\\",
];

fn is_refused(text: &[u8]) -> bool {
    let mut out = [0u8; 32];
    text.len() <= 32 && read_quoted(text, &mut out).is_none()
}

#[test]
fn other_texts_are_not_quoted(rt: HostRuntime) {
    for text in OTHERS.iter() {
        holds(&rt, is_refused(text.as_bytes()), text);
    }
}
