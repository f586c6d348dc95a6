// The tables of the manual once more, in plain numbers and with nothing of the crate's, over every arithmetic word.
use crate::checked::holds;
use crate::processor::rows::{octals, words};
use nova_alu::{Arith, arith};
use nova_word::Word;

fn base(word: u16, carry: bool) -> bool {
    match word / 16 % 4 {
        0 => carry,
        1 => false,
        2 => true,
        _ => !carry,
    }
}

/// What the function gives of source and destination, of which the low 16 bits are the result.
fn computed(word: u16, source: u16, destination: u16) -> u64 {
    let s = u64::from(source);
    let d = u64::from(destination);
    match word / 256 % 8 {
        0 => 65535 - s,
        1 => 65536 - s,
        2 => s,
        3 => s + 1,
        4 => d + 65535 - s,
        5 => d + 65536 - s,
        6 => d + s,
        _ => s & d,
    }
}

/// Whether it complements the base carry.
fn complements(word: u16, source: u16, destination: u16) -> bool {
    let s = u64::from(source);
    let d = u64::from(destination);
    match word / 256 % 8 {
        1 => s == 0,
        3 => s == 65535,
        4 => d > s,
        5 => d >= s,
        6 => d + s >= 65536,
        _ => false,
    }
}

/// A carry and a result, of which the low 16 bits count.
#[derive(Clone, Copy)]
struct Number {
    c: u64,
    r: u64,
}

fn unshifted(word: u16, s: u16, d: u16, carry: bool) -> Number {
    Number {
        c: u64::from(base(word, carry) != complements(word, s, d)),
        r: computed(word, s, d) % 65536,
    }
}

fn shifted(word: u16, number: Number) -> Number {
    let r = number.r % 65536;
    let c = number.c % 2;
    match word / 64 % 4 {
        0 => Number { c, r },
        1 => Number {
            c: r / 32768,
            r: r % 32768 * 2 + c,
        },
        2 => Number {
            c: r % 2,
            r: r / 2 + c * 32768,
        },
        _ => Number {
            c,
            r: r / 256 + r % 256 * 256,
        },
    }
}

fn skips(word: u16, number: Number) -> bool {
    let c = number.c;
    let r = number.r;
    match word % 8 {
        0 => false,
        1 => true,
        2 => c == 0,
        3 => c == 1,
        4 => r == 0,
        5 => r != 0,
        6 => c == 0 || r == 0,
        _ => c == 1 && r != 0,
    }
}

fn number_of(word: u16, acs: [u16; 4], carry: bool) -> Number {
    let s = acs[usize::from(word / 8192 % 4)];
    let d = acs[usize::from(word / 2048 % 4)];
    shifted(word, unshifted(word, s, d, carry))
}

fn plain(word: u16, acs: [u16; 4], carry: bool) -> Arith {
    let number = number_of(word, acs, carry);
    let skip = skips(word, number);
    if word / 8 % 2 == 1 {
        return Arith {
            acs: words(acs),
            carry,
            skip,
        };
    }
    let mut numbers = acs;
    numbers[usize::from(word / 2048 % 4)] = (number.r % 65536) as u16;
    Arith {
        acs: words(numbers),
        carry: number.c == 1,
        skip,
    }
}

fn is_plain(word: u16, acs: [u16; 4], carry: bool) -> bool {
    arith(Word(word), words(acs), carry) == plain(word, acs, carry)
}

fn are_plain(acs: [u16; 4]) -> bool {
    for word in 32768..=65535u16 {
        if !is_plain(word, acs, false) || !is_plain(word, acs, true) {
            return false;
        }
    }
    true
}

/// AC0 to AC3.
const OPERANDS: &str = "0 1 77777 100000
177777 0 1 177776
100000 77777 177777 0
12345 165432 52525 125252
0 0 0 0
177777 177777 177777 177777
100001 100001 40000 100000";

fn are_plain_at(line: &str) -> bool {
    match octals::<4>(line) {
        Some(acs) => are_plain(acs),
        None => false,
    }
}

#[test]
fn every_word_does_what_the_tables_say(rt: HostRuntime) {
    for line in OPERANDS.lines() {
        holds(&rt, are_plain_at(line), line);
    }
}
