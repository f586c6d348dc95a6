// Texts of octal and decimal digits.
ghost use Rattle.std.specs.Prelude.{◌^◌, ◌<◌, ◌≤◌};

use crate::checked::holds;
use nova_word::{NumberFault, octal_width, read_decimal, read_octal, write_octal};

const OCTAL: [(&str, Result<u32, NumberFault>); 14] = [
    ("", Err(NumberFault::Empty)),
    ("0", Ok(0)),
    ("17", Ok(15)),
    ("0000000000000000017", Ok(15)),
    ("177777", Ok(65535)),
    ("37777777777", Ok(4294967295)),
    ("40000000000", Err(NumberFault::TooLarge)),
    (
        "2000000000000000000000000000000000000000000001",
        Err(NumberFault::TooLarge),
    ),
    ("8", Err(NumberFault::BadDigit(0))),
    ("-1", Err(NumberFault::BadDigit(0))),
    ("1 ", Err(NumberFault::BadDigit(1))),
    ("12/9", Err(NumberFault::BadDigit(2))),
    ("400000000008", Err(NumberFault::BadDigit(11))),
    ("77:", Err(NumberFault::BadDigit(2))),
];

#[test]
fn reads_octal_texts(rt: HostRuntime) {
    for row in OCTAL.iter() {
        holds(&rt, read_octal(row.0.as_bytes()) == row.1, row.0);
    }
}

const DECIMAL: [(&str, Result<u64, NumberFault>); 13] = [
    ("", Err(NumberFault::Empty)),
    ("0", Ok(0)),
    ("19", Ok(19)),
    ("000000000000000000000000000000000000000000000000009", Ok(9)),
    ("1152921504606846976", Ok(1 << 60)),
    ("9223372036854775808", Ok(1 << 63)),
    ("9223372036854775809", Err(NumberFault::TooLarge)),
    ("18446744073709551616", Err(NumberFault::TooLarge)),
    (
        "340282366920938463463374607431768211456000000",
        Err(NumberFault::TooLarge),
    ),
    ("a", Err(NumberFault::BadDigit(0))),
    ("+5", Err(NumberFault::BadDigit(0))),
    ("99999999999999999999x", Err(NumberFault::BadDigit(20))),
    ("1:2/", Err(NumberFault::BadDigit(1))),
];

#[test]
fn reads_decimal_texts(rt: HostRuntime) {
    for row in DECIMAL.iter() {
        holds(&rt, read_decimal(row.0.as_bytes()) == row.1, row.0);
    }
}

/// Whether the digits of a number stand before what stood in the rest of the buffer.
fn writes(n: u32, digits: usize, wanted: &[u8]) -> bool
    requires digits { (0 < digits) × (digits ≤ 11) }
    requires fits { n < 8 ^ digits }
{
    let mut out = [b'-'; 12];
    let count = write_octal(n, digits, &mut out);
    count == digits && out.as_slice() == wanted
}

#[test]
fn writes_octal_digits(rt: HostRuntime) {
    holds(&rt, writes(0, 1, b"0-----------"), "0");
    holds(&rt, writes(8, 2, b"10----------"), "10");
    holds(&rt, writes(0o377, 6, b"000377------"), "377");
    holds(&rt, writes(0o177777, 6, b"177777------"), "177777");
    holds(&rt, writes(4294967295, 11, b"37777777777-"), "37777777777");
}

const WIDTHS: [(u32, usize); 6] = [
    (0, 1),
    (7, 1),
    (8, 2),
    (0o77777, 5),
    (0o100000, 6),
    (4294967295, 11),
];

fn have_their_width() -> bool {
    for row in WIDTHS.iter() {
        if octal_width(row.0) != row.1 {
            return false;
        }
    }
    true
}

#[test]
fn numbers_have_their_octal_width(rt: HostRuntime) {
    holds(&rt, have_their_width(), "the width of a number");
}
