// Memory: its words, and its sizes.
ghost use Rattle.std.specs.Prelude.{◌≤◌};

use crate::checked::holds;
use crate::processor::rows::{at, octals};
use nova_memory::{Memory, is_size};
use nova_word::Word;
use std::test::Fail;

fn has(memory: &Memory, place: u16, word: u16) -> bool {
    memory.read(at(place)) == Word(word)
}

fn put(memory: &mut Memory, place: u16, word: u16) {
    memory.write(at(place), Word(word));
}

/// A place, and the word that is put there.
const PUT: &str = "0 123456
20 1
77777 177777";

fn keeps(memory: &mut Memory, line: &str) -> bool {
    match octals::<2>(line) {
        Some(row) => {
            let [place, word] = row;
            let zero = has(memory, place, 0);
            put(memory, place, word);
            zero && has(memory, place, word) && has(memory, place ^ 1, 0)
        }
        None => false,
    }
}

#[test]
fn a_word_stays_where_it_is_put(rt: HostRuntime) -> Result<(), Fail> {
    let mut memory = Memory::new(rt.alloc())?;
    holds(&rt, memory.size() == 32768, "the size");
    for line in PUT.lines() {
        holds(&rt, keeps(&mut memory, line), line);
    }
    Ok(())
}

/// Gives a memory that many K, where it may have them.
fn set_size(memory: &mut Memory, k: u64) -> bool {
    if !is_size(k) {
        return false;
    }
    memory.set_size((1024 * k) as u16);
    u64::from(memory.size()) == 1024 * k
}

fn holds_0_past_its_size(memory: &mut Memory) -> bool {
    put(memory, 0o7777, 5);
    put(memory, 0o10000, 5);
    put(memory, 0o77777, 5);
    has(memory, 0o7777, 5) && has(memory, 0o10000, 0) && has(memory, 0o77777, 0)
}

/// Whether an indirect reference through 10000, from there, comes to 0.
fn refers_to_0(memory: &mut Memory) -> bool {
    memory.address(Word(0o2400), at(0o10000), [Word(0); 4]) == Ok(at(0))
}

#[test]
fn a_place_past_the_size_holds_0(rt: HostRuntime) -> Result<(), Fail> {
    let mut memory = Memory::new(rt.alloc())?;
    holds(&rt, set_size(&mut memory, 4), "4K");
    holds(&rt, holds_0_past_its_size(&mut memory), "the words");
    holds(&rt, memory.size() == 4096, "the size");
    holds(&rt, refers_to_0(&mut memory), "a reference");
    Ok(())
}

/// Whether a chain through 24, and a word at 30, are done on the words that a memory lends.
fn lends(memory: &mut Memory) -> bool {
    let words = memory.words();
    let size = words.size();
    let end = words.chain(at(0o24));
    words.write(at(0o30), Word(7));
    size == 32768 && end == Ok(at(0o51))
}

#[test]
fn words_are_lent_where_they_stand(rt: HostRuntime) -> Result<(), Fail> {
    let mut memory = Memory::new(rt.alloc())?;
    put(&mut memory, 0o24, 0o50);
    holds(&rt, lends(&mut memory), "the words that are lent");
    let so = has(&memory, 0o24, 0o51) && has(&memory, 0o30, 7);
    holds(&rt, so, "the words then");
    Ok(())
}

fn fill(memory: &mut Memory) {
    put(memory, 0, 0o123456);
    put(memory, 0o17777, 0o123456);
    put(memory, 0o20000, 0o123456);
    put(memory, 0o77777, 0o123456);
}

fn has_lost_its_end(memory: &Memory) -> bool {
    has(memory, 0, 0o123456)
        && has(memory, 0o17777, 0o123456)
        && has(memory, 0o20000, 0)
        && has(memory, 0o77777, 0)
}

#[test]
fn words_past_the_size_are_lost_for_good(rt: HostRuntime) -> Result<(), Fail> {
    let mut memory = Memory::new(rt.alloc())?;
    fill(&mut memory);
    holds(&rt, set_size(&mut memory, 8), "8K");
    put(&mut memory, 0o20000, 7);
    holds(&rt, set_size(&mut memory, 32), "32K");
    holds(&rt, has_lost_its_end(&memory), "the words then");
    put(&mut memory, 0o20000, 7);
    holds(&rt, has(&memory, 0o20000, 7), "a word that is put there");
    Ok(())
}

const SIZES: [u64; 8] = [4, 8, 12, 16, 20, 24, 28, 32];

/// Whether a memory has that many K, and the last word stays where one is put behind it.
fn ends_at(memory: &mut Memory, k: u64) -> bool {
    if !set_size(memory, k) {
        return false;
    }
    let size = memory.size();
    put(memory, size.wrapping_sub(1), 5);
    put(memory, size, 6);
    has(memory, size.wrapping_sub(1), 5)
}

#[test]
fn a_machine_may_have_eight_sizes(rt: HostRuntime) -> Result<(), Fail> {
    let mut memory = Memory::new(rt.alloc())?;
    for k in SIZES.iter() {
        holds(&rt, ends_at(&mut memory, *k), "the end of a memory");
    }
    Ok(())
}

const OTHERS: [u64; 9] = [0, 1, 3, 6, 31, 36, 64, 0x1_0000_0004, u64::MAX];

fn all_are_sizes() -> bool {
    for k in SIZES.iter() {
        if !is_size(*k) {
            return false;
        }
    }
    true
}

fn none_is_a_size() -> bool {
    for k in OTHERS.iter() {
        if is_size(*k) {
            return false;
        }
    }
    true
}

#[test]
fn a_number_of_k_is_a_size(rt: HostRuntime) {
    holds(&rt, all_are_sizes(), "the sizes");
    holds(&rt, none_is_a_size(), "other numbers");
}

/// The words of a machine of 4K.
const WORDS: [u16; 4096] = [0o123456; 4096];

fn has_no_more(memory: &Memory) -> bool {
    memory.size() == 4096
        && memory.as_slice() == WORDS.as_slice()
        && has(memory, 0o7777, 0o123456)
        && has(memory, 0o10000, 0)
}

#[test]
fn a_memory_is_given_all_its_words(rt: HostRuntime) -> Result<(), Fail> {
    let mut memory = Memory::new(rt.alloc())?;
    fill(&mut memory);
    holds(&rt, memory.as_slice().len() == 32768, "the words before");
    memory.set_words(&WORDS);
    holds(&rt, has_no_more(&memory), "the words then");
    holds(&rt, set_size(&mut memory, 32), "32K");
    holds(&rt, has(&memory, 0o20000, 0), "the words behind them");
    Ok(())
}
