// Loader tapes that are written.
use crate::checked::holds;
use crate::processor::rows::at;
use binary_load::{Start, dump, dumps_read_back, load, tapes_are_read};
use nova_memory::Memory;
use nova_word::Word;
use std::alloc::{AllocError, Global};
use std::test::Fail;

// ffff + 0040 + 9982 + 663f = 20000, and 0001 + 0040 + ffbf = 10000
const HALT: [u8; 14] = [
    0xff, 0xff, 0x40, 0x00, 0x82, 0x99, 0x3f, 0x66, //
    0x01, 0x00, 0x40, 0x00, 0xbf, 0xff,
];

// ffff + 7fff + d435 + abcd = 30000, and 0001 + 0000 + ffff = 10000
const LAST: [u8; 14] = [
    0xff, 0xff, 0xff, 0x7f, 0x35, 0xd4, 0xcd, 0xab, //
    0x01, 0x00, 0x00, 0x00, 0xff, 0xff,
];

// fff0 + 0010 + ff78 + 0088 = 20000, and 0001 + 0010 + ffef = 10000
const SIXTEEN: [u8; 44] = [
    0xf0, 0xff, 0x10, 0x00, 0x78, 0xff, //
    1, 0, 2, 0, 3, 0, 4, 0, 5, 0, 6, 0, 7, 0, 8, 0, //
    9, 0, 10, 0, 11, 0, 12, 0, 13, 0, 14, 0, 15, 0, 16, 0, //
    0x01, 0x00, 0x10, 0x00, 0xef, 0xff,
];

// the same, and ffff + 0020 + ffd0 + 0011 = 20000
const SEVENTEEN: [u8; 52] = [
    0xf0, 0xff, 0x10, 0x00, 0x78, 0xff, //
    1, 0, 2, 0, 3, 0, 4, 0, 5, 0, 6, 0, 7, 0, 8, 0, //
    9, 0, 10, 0, 11, 0, 12, 0, 13, 0, 14, 0, 15, 0, 16, 0, //
    0xff, 0xff, 0x20, 0x00, 0xd0, 0xff, 17, 0, //
    0x01, 0x00, 0x10, 0x00, 0xef, 0xff,
];

/// A tape of the words from one address up to another, with that start, where the memory has these.
fn dumped(
    alloc: Global,
    memory: &Memory,
    range: (u16, u16),
    start: u16,
) -> Result<Vec<u8>, AllocError> {
    let from = at(range.0);
    let to = at(range.1);
    if from.number() > to.number() || to.number() >= memory.size() {
        return Ok(Vec::new(alloc));
    }
    dump(alloc, memory, from, to, at(start))
}

fn is_dumped(
    alloc: Global,
    memory: &Memory,
    range: (u16, u16),
    start: u16,
    wanted: &[u8],
) -> Result<bool, AllocError> {
    let tape = dumped(alloc, memory, range, start)?;
    Ok(tape.as_slice() == wanted)
}

/// The numbers from 1 on from 10 on, a HALT at 100 in octal, and a word at the last address.
fn fill(memory: &mut Memory) {
    for n in 1..18u16 {
        memory.write(at(0xf + n), Word(n));
    }
    memory.write(at(0o100), Word(0o63077));
    memory.write(at(0o77777), Word(0xabcd));
}

#[test]
fn dumps_of_one_word(rt: HostRuntime) -> Result<(), Fail> {
    let mut memory = Memory::new(rt.alloc())?;
    fill(&mut memory);
    let halt = is_dumped(rt.alloc(), &memory, (0o100, 0o100), 0o100, &HALT)?;
    holds(&rt, halt, "a HALT");
    let last = is_dumped(rt.alloc(), &memory, (0o77777, 0o77777), 0, &LAST)?;
    holds(&rt, last, "the last word of a memory");
    Ok(())
}

#[test]
fn dumps_of_16_and_17_words(rt: HostRuntime) -> Result<(), Fail> {
    let mut memory = Memory::new(rt.alloc())?;
    fill(&mut memory);
    let sixteen = is_dumped(rt.alloc(), &memory, (0x10, 0x1f), 0x10, &SIXTEEN)?;
    holds(&rt, sixteen, "16 words");
    let seventeen = is_dumped(rt.alloc(), &memory, (0x10, 0x20), 0x10, &SEVENTEEN)?;
    holds(&rt, seventeen, "17 words");
    Ok(())
}

/// A word of its own for each of 100 addresses.
fn word_at(n: u16) -> Word {
    Word((n % 100) * 3 + 0o100000)
}

fn fill_100(memory: &mut Memory) {
    for n in 0..100u16 {
        memory.write(at(n), word_at(n));
    }
}

/// The words from 10 up to 59 of a memory that has 100.
fn dump_of_50(alloc: Global) -> Result<Vec<u8>, AllocError> {
    let mut memory = Memory::new(alloc)?;
    fill_100(&mut memory);
    dumped(alloc, &memory, (10, 59), 59)
}

fn is_loaded(tape: &[u8], memory: &mut Memory) -> bool {
    load(tape, memory) == Ok(Start { at: Some(at(59)) })
}

fn has_50(memory: &Memory) -> bool {
    for n in 0..100u16 {
        let inside = (10..60).contains(&n);
        let word = if inside { word_at(n) } else { Word(0) };
        if memory.read(at(n)) != word {
            return false;
        }
    }
    true
}

#[test]
fn a_dump_is_loaded_into_another_memory(rt: HostRuntime) -> Result<(), Fail> {
    dumps_read_back();
    tapes_are_read();
    let tape = dump_of_50(rt.alloc())?;
    let mut memory = Memory::new(rt.alloc())?;
    holds(&rt, is_loaded(&tape, &mut memory), "the loading");
    holds(&rt, has_50(&memory), "the words");
    Ok(())
}
