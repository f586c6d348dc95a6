// The effective address of a memory reference.
use crate::checked::holds;
use crate::processor::rows::{at, cut, octal, octals};
use nova_memory::{ChainLimit, Memory};
use nova_word::{Addr, Word};
use std::test::Fail;

/// The word, its address, AC2, AC3, and the effective address.
const SUMS: &str = "000000 1000 2000 3000 0 | the displacement alone, without a sign
000177 1000 2000 3000 177
000200 1000 2000 3000 200
000377 1000 2000 3000 377
000400 1000 2000 3000 1000 | the instruction's own address
000577 1000 2000 3000 1177
000600 1000 2000 3000 600
000777 1000 2000 3000 777
000577 77777 2000 3000 176
000600 0 2000 3000 77600
000777 0 2000 3000 77777
001177 1000 2000 3000 2177 | AC2, of which the low 15 bits count
001200 1000 2000 3000 1600
001377 1000 2000 3000 1777
001001 1000 77777 3000 0
001000 1000 177777 3000 77777
001001 1000 177777 3000 0
001377 1000 100000 3000 77777
001377 1000 0 3000 77777
001577 1000 2000 3000 3177 | AC3
001600 1000 2000 3000 2600
001777 1000 2000 3000 2777
054401 1000 2000 3000 1001 | STA 3,.+1, where bits 0 to 4 play no part
004020 1000 2000 3000 20 | JSR 20";

fn comes_to(memory: &mut Memory, line: &str) -> bool {
    let (numbers, _what) = cut(line);
    match octals::<5>(numbers) {
        Some(row) => {
            let [word, pc, ac2, ac3, wanted] = row;
            let acs = [Word(0o4000), Word(0o5000), Word(ac2), Word(ac3)];
            memory.address(Word(word), at(pc), acs) == Ok(at(wanted))
        }
        None => false,
    }
}

#[test]
fn sums_of_the_displacement(rt: HostRuntime) -> Result<(), Fail> {
    let mut memory = Memory::new(rt.alloc())?;
    for line in SUMS.lines() {
        holds(&rt, comes_to(&mut memory, line), line);
    }
    Ok(())
}

/// A place, the word there, the effective address of an indirect reference through it, and the word there after.
const AUTO_INDEX: &str = "17 1234 1234 1234
20 1234 1235 1235
27 1234 1235 1235
30 1234 1233 1233
37 1234 1233 1233
40 1234 1234 1234
20 77777 123 100000 | bit 0 of the changed word decides whether 0 and 77777 are passed
20 177777 0 0
30 0 55 177777
30 100000 77777 77777";

/// What a reference at 200 comes to, whose index is none.
fn reference(memory: &mut Memory, word: u16) -> Result<Addr, ChainLimit> {
    memory.address(Word(word), at(0o200), [Word(0); 4])
}

fn stays(memory: &mut Memory, place: u16, word: u16) -> bool {
    memory.write(at(place), Word(word));
    reference(memory, place) == Ok(at(place)) && memory.read(at(place)) == Word(word)
}

fn changes(memory: &mut Memory, line: &str) -> bool {
    let (numbers, _what) = cut(line);
    match octals::<4>(numbers) {
        Some(row) => {
            let [place, before, wanted, after] = row;
            stays(memory, place, before)
                && reference(memory, 0o2000 | place) == Ok(at(wanted))
                && memory.read(at(place)) == Word(after)
        }
        None => false,
    }
}

/// The same where bit 0 of the word is tested before its change.
const TESTED_BEFORE: &str = "17 1234 1234 1234
20 1234 1235 1235
37 1234 1233 1233
40 1234 1234 1234
20 77777 0 100000 | the word that was read has bit 0 clear, and the changed one set
20 177777 123 0 | and the other way round: 0 is passed
27 100000 66 100001
30 0 77777 177777
30 100000 55 77777";

/// A memory with words at 0, 1 and 77777, by that rule.
fn by_rule(memory: &mut Memory, before: bool) {
    memory.write(at(0), Word(0o123));
    memory.write(at(1), Word(0o66));
    memory.write(at(0o77777), Word(0o55));
    memory.set_autobit(before);
}

#[test]
fn auto_index_locations(rt: HostRuntime) -> Result<(), Fail> {
    let mut memory = Memory::new(rt.alloc())?;
    by_rule(&mut memory, false);
    for line in AUTO_INDEX.lines() {
        holds(&rt, changes(&mut memory, line), line);
    }
    Ok(())
}

#[test]
fn auto_index_locations_tested_before_the_change(rt: HostRuntime) -> Result<(), Fail> {
    let mut memory = Memory::new(rt.alloc())?;
    by_rule(&mut memory, true);
    for line in TESTED_BEFORE.lines() {
        holds(&rt, changes(&mut memory, line), line);
    }
    Ok(())
}

#[test]
fn a_new_memory_tests_the_changed_word(rt: HostRuntime) -> Result<(), Fail> {
    let mut memory = Memory::new(rt.alloc())?;
    holds(&rt, !memory.autobit(), "a new memory");
    memory.set_autobit(true);
    holds(&rt, memory.autobit(), "a rule that was set");
    memory.set_size(4096);
    holds(&rt, memory.autobit(), "behind another size");
    Ok(())
}

/// Two places with the words there; the words there after an indirect reference through the first; and the address that
/// it comes to. 100 leads to itself.
const CHAINS: &str = "50 100020 20 1000 | 100020 1001 | 1001
20 100017 21 0 | 100021 1 | 1
50 100100 51 0 | 100100 0 | no end
20 100077 21 0 | 100100 0 | no end
37 100040 36 100101 | 100036 100100 | no end";

fn leads(memory: &mut Memory, line: &str) -> bool {
    let (given, rest) = cut(line);
    let (after, end) = cut(rest);
    match octals::<4>(given) {
        Some(row) => {
            let [first, word, second, other] = row;
            memory.write(at(first), Word(word));
            memory.write(at(second), Word(other));
            ends(memory, first, end) && are(memory, first, second, after)
        }
        None => false,
    }
}

fn ends(memory: &mut Memory, first: u16, end: &str) -> bool {
    match reference(memory, 0o2000 | first) {
        Ok(address) => Some(address.number()) == octal(end),
        Err(ChainLimit) => end == "no end",
    }
}

fn are(memory: &Memory, first: u16, second: u16, words: &str) -> bool {
    match octals::<2>(words) {
        Some(row) => {
            let [word, other] = row;
            memory.read(at(first)) == Word(word) && memory.read(at(second)) == Word(other)
        }
        None => false,
    }
}

#[test]
fn every_level_of_a_chain_changes_its_word(rt: HostRuntime) -> Result<(), Fail> {
    let mut memory = Memory::new(rt.alloc())?;
    memory.write(at(0o100), Word(0o100100));
    for line in CHAINS.lines() {
        holds(&rt, leads(&mut memory, line), line);
    }
    Ok(())
}

/// The same where bit 0 is tested before the change. 0 leads to 444.
const CHAINS_TESTED_BEFORE: &str = "50 100020 20 1000 | 100020 1001 | 1001
20 100017 21 0 | 100021 1 | 1
20 77777 21 0 | 100000 0 | 0
20 100026 27 177777 | 100027 0 | 444
37 100031 30 0 | 100030 177777 | 77777
30 100000 77777 1234 | 77777 1234 | 1234
20 100077 21 0 | 100100 0 | no end";

#[test]
fn every_level_of_a_chain_is_tested_before_its_change(rt: HostRuntime) -> Result<(), Fail> {
    let mut memory = Memory::new(rt.alloc())?;
    memory.write(at(0), Word(0o444));
    memory.write(at(0o100), Word(0o100100));
    memory.set_autobit(true);
    for line in CHAINS_TESTED_BEFORE.lines() {
        holds(&rt, leads(&mut memory, line), line);
    }
    Ok(())
}

/// How many levels a chain has, and whether it comes to an end.
const LEVELS: [(u16, bool); 4] = [(1, true), (15, true), (16, true), (17, false)];

/// Puts a chain of that many levels into a memory, from 1000 on, which comes to 555.
fn put_chain(memory: &mut Memory, levels: u16) {
    for n in 1..levels {
        let place = at(0o777).plus(n);
        memory.write(place, Word(0o100000 | place.plus(1).number()));
    }
    memory.write(at(0o777).plus(levels), Word(0o555));
}

fn is_followed(memory: &mut Memory, levels: u16, ends: bool) -> bool {
    put_chain(memory, levels);
    let acs = [Word(0), Word(0), Word(0o1000), Word(0)];
    let got = memory.address(Word(0o3000), at(0), acs);
    if ends {
        got == Ok(at(0o555))
    } else {
        got == Err(ChainLimit)
    }
}

#[test]
fn a_chain_has_up_to_16_levels(rt: HostRuntime) -> Result<(), Fail> {
    let mut memory = Memory::new(rt.alloc())?;
    for row in LEVELS.iter() {
        holds(&rt, is_followed(&mut memory, row.0, row.1), "a chain");
    }
    Ok(())
}

/// The rule, the word at 20, and whether a chain ends whose 16th level is 20.
const LAST_LEVELS: [(bool, u16, bool); 4] = [
    (false, 0o177777, true),
    (false, 0o77777, false),
    (true, 0o177777, false),
    (true, 0o77777, true),
];

/// Puts a chain of 15 levels into a memory, from 1000 on, which goes on through 20.
fn put_chain_to_auto_index(memory: &mut Memory, word: u16) {
    put_chain(memory, 15);
    memory.write(at(0o1016), Word(0o100020));
    memory.write(at(0o20), Word(word));
}

fn is_last_level(memory: &mut Memory, before: bool, word: u16, ends: bool) -> bool {
    put_chain_to_auto_index(memory, word);
    memory.set_autobit(before);
    let acs = [Word(0), Word(0), Word(0o1000), Word(0)];
    let got = memory.address(Word(0o3000), at(0), acs);
    if ends {
        got == Ok(at(0))
    } else {
        got == Err(ChainLimit)
    }
}

#[test]
fn the_16th_tested_word_ends_a_chain(rt: HostRuntime) -> Result<(), Fail> {
    let mut memory = Memory::new(rt.alloc())?;
    for row in LAST_LEVELS.iter() {
        holds(
            &rt,
            is_last_level(&mut memory, row.0, row.1, row.2),
            "a 16th level",
        );
    }
    Ok(())
}
