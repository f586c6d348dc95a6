// Addresses: which numbers are some, and their sums.
use crate::checked::holds;
use crate::processor::rows::{at, cut, octal, octals};
use nova_word::Addr;

/// A number, and that of its address.
const NUMBERS: &str = "0 | 0
77777 | 77777
100000 | none
177777 | none";

fn address_of(n: u16) -> Option<u16> {
    match Addr::new(n) {
        Some(address) => Some(address.number()),
        None => None,
    }
}

fn has_its_address(line: &str) -> bool {
    let (number, address) = cut(line);
    match octal(number) {
        Some(n) => address_of(n) == octal(address),
        None => false,
    }
}

#[test]
fn addresses_are_below_32768(rt: HostRuntime) {
    for line in NUMBERS.lines() {
        holds(&rt, has_its_address(line), line);
    }
}

/// A word, and its low 15 bits.
const CUT: &str = "0 0
77777 77777
100000 0
177777 77777";

fn is_cut(line: &str) -> bool {
    match octals::<2>(line) {
        Some(row) => {
            let [word, address] = row;
            at(word).number() == address
        }
        None => false,
    }
}

#[test]
fn a_word_is_cut_to_its_low_15_bits(rt: HostRuntime) {
    for line in CUT.lines() {
        holds(&rt, is_cut(line), line);
    }
}

/// An address, a number, and the address that many words further on.
const SUMS: &str = "100 1 101
77777 1 0
77777 77777 77776
1 177777 0";

fn is_sum(line: &str) -> bool {
    match octals::<3>(line) {
        Some(row) => {
            let [a, n, sum] = row;
            at(a).plus(n).number() == sum
        }
        None => false,
    }
}

#[test]
fn sums_go_around_the_end_of_memory(rt: HostRuntime) {
    for line in SUMS.lines() {
        holds(&rt, is_sum(line), line);
    }
}
