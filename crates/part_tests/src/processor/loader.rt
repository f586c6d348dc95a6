// Loader tapes that are read.
use crate::checked::holds;
use crate::processor::rows::{at, octals};
use binary_load::{LoadFault, Start, load};
use nova_memory::Memory;
use nova_word::Word;
use std::alloc::{AllocError, Global};
use std::test::Fail;

const TAPE: [u8; 36] = [
    // zero bytes before the first block
    0x00, 0x00, //
    // two words at 40: fffe + 0040 + 41c1 + 1234 + abcd = 20000
    0xfe, 0xff, 0x40, 0x00, 0xc1, 0x41, 0x34, 0x12, 0xcd, 0xab, //
    // a zero byte, and a block of count 2, which ends with its first byte of all ones
    0x00, 0x02, 0x00, 0x41, 0x00, 0x42, 0xff, //
    // a word at 17 addresses from 200 on: ffef + 0200 + fe0a + 0007 = 20000
    0xef, 0xff, 0x00, 0x02, 0x0a, 0xfe, 0x07, 0x00, //
    // the start: 0001 + 0040 + ffbf = 10000, and what is behind it
    0x01, 0x00, 0x40, 0x00, 0xbf, 0xff, 0x55, 0x00, 0x01,
];

/// Addresses, and the words there behind that tape.
const LOADED: &str = "77 0
100 11064
101 125715
102 0
777 0
1000 7
1010 7
1020 7
1021 0";

fn starts_at(tape: &[u8], memory: &mut Memory, start: u16) -> bool {
    load(tape, memory)
        == Ok(Start {
            at: Some(at(start)),
        })
}

fn has(memory: &Memory, line: &str) -> bool {
    match octals::<2>(line) {
        Some(row) => {
            let [place, word] = row;
            memory.read(at(place)) == Word(word)
        }
        None => false,
    }
}

#[test]
fn a_tape_with_each_kind_of_block(rt: HostRuntime) -> Result<(), Fail> {
    let mut memory = Memory::new(rt.alloc())?;
    holds(&rt, starts_at(&TAPE, &mut memory, 0x40), "the start");
    for line in LOADED.lines() {
        holds(&rt, has(&memory, line), line);
    }
    Ok(())
}

/// A memory of 4096 words.
fn small(alloc: Global) -> Result<Memory, AllocError> {
    let mut memory = Memory::new(alloc)?;
    memory.set_size(4096);
    Ok(memory)
}

/// What a tape shows, the tape, and its start.
const TAPES: [(&str, &[u8], Option<u16>); 7] = [
    ("no byte", b"", None),
    ("zero bytes", b"\x00\x00\x00", None),
    (
        "one word at 40, and no start block",
        b"\xff\xff\x40\x00\xc0\xff\x01\x00",
        None,
    ),
    (
        "bit 0 of the origin is set",
        b"\x01\x00\x00\x80\xff\x7f",
        None,
    ),
    (
        "a zero byte is no count's low byte",
        b"\x00\x01\x00\x40\x00\xbf\xff",
        Some(0x40),
    ),
    (
        "a start past the memory",
        b"\x01\x00\xff\x7f\x00\x80",
        Some(0x7fff),
    ),
    (
        "a block that is ignored has no sum, and may have no byte but its last",
        b"\xff\x7f\xff",
        None,
    ),
];

fn is_loaded(alloc: Global, tape: &[u8], start: Option<u16>) -> Result<bool, AllocError> {
    let mut memory = small(alloc)?;
    Ok(loads(tape, &mut memory, start))
}

fn loads(tape: &[u8], memory: &mut Memory, start: Option<u16>) -> bool {
    match start {
        Some(start) => starts_at(tape, memory, start),
        None => load(tape, memory) == Ok(Start { at: None }),
    }
}

#[test]
fn tapes_without_a_fault(rt: HostRuntime) -> Result<(), Fail> {
    for row in TAPES.iter() {
        holds(&rt, is_loaded(rt.alloc(), row.1, row.2)?, row.0);
    }
    Ok(())
}

/// What a tape shows, the tape, and its fault for a memory of 4096 words.
const FAULTS: [(&str, &[u8], LoadFault); 14] = [
    ("half a count", b"\xff", LoadFault::Truncated(1)),
    (
        "a count that is ignored",
        b"\x02\x00",
        LoadFault::Truncated(2),
    ),
    (
        "a block that is ignored",
        b"\x03\x00\x01\x02",
        LoadFault::Truncated(4),
    ),
    (
        "half a checksum",
        b"\x01\x00\x40\x00\xbf",
        LoadFault::Truncated(5),
    ),
    (
        "the sum of a start block",
        b"\x01\x00\x40\x00\xc0\xff",
        LoadFault::BadSum(0),
    ),
    (
        "a sum that is 1",
        b"\x00\xff\xff\x40\x00\xc0\xff\x02\x00",
        LoadFault::BadSum(1),
    ),
    (
        "the same where the last byte is missing",
        b"\x00\xff\xff\x40\x00\xc0\xff\x02",
        LoadFault::Truncated(8),
    ),
    (
        "16 words are wanted",
        b"\xf0\xff\x40\x00\xd0\xff\x00\x00",
        LoadFault::Truncated(8),
    ),
    (
        "17 addresses have one word",
        b"\xef\xff\x40\x00\xd0\xff\x00\x00",
        LoadFault::BadSum(0),
    ),
    (
        "past the memory",
        b"\xff\xff\x00\x10\x01\xf0\x00\x00",
        LoadFault::PastMemory(4096),
    ),
    (
        "the same with another sum",
        b"\xff\xff\x00\x10\x00\xf0\x00\x00",
        LoadFault::BadSum(0),
    ),
    (
        "past every address",
        b"\xff\xff\x00\x80\x01\x80\x00\x00",
        LoadFault::PastMemory(32768),
    ),
    (
        "17 addresses, of which 16 have memory",
        b"\xef\xff\xf0\x0f\x21\xf0\x00\x00",
        LoadFault::PastMemory(0xff0),
    ),
    (
        "a block without a fault before the one with it",
        b"\xff\xff\x40\x00\xc0\xff\x01\x00\xff\xff",
        LoadFault::Truncated(10),
    ),
];

fn fails(tape: &[u8], memory: &mut Memory, fault: LoadFault) -> bool {
    memory.write(at(0x40), Word(0x55));
    load(tape, memory) == Err(fault) && memory.read(at(0x40)) == Word(0x55)
}

fn has_fault(alloc: Global, tape: &[u8], fault: LoadFault) -> Result<bool, AllocError> {
    let mut memory = small(alloc)?;
    Ok(fails(tape, &mut memory, fault))
}

#[test]
fn the_first_fault_is_answered(rt: HostRuntime) -> Result<(), Fail> {
    for row in FAULTS.iter() {
        holds(&rt, has_fault(rt.alloc(), row.1, row.2)?, row.0);
    }
    Ok(())
}
