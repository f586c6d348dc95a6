ghost use Rattle.std.specs.Prelude.{◌≡◌, ◌+◌, ◌-◌, ◌%◌, ◌/◌, ◌^◌, ◌<◌, ◌≤◌, ◌∷◌, [], ◌++◌, IfOk, length, sum};
ghost use Rattle.binary_load.specs.Dump.{dumped, words_from, block, blocks_of, start_block, checksum};
ghost use Rattle.binary_load.specs.Runs.{start_origin};

use byteorder::{ByteOrder, LittleEndian};
use nova_memory::Memory;
use nova_word::{Addr, Word};
use std::alloc::{AllocError, Global};

/// A tape of the words from one address up to another, with that start: blocks of 16 words, of which the last may be
/// shorter, and a start block. `load` reads it back.
pub fn dump(
    alloc: Global,
    memory: &Memory,
    from: Addr,
    to: Addr,
    start: Addr,
) -> Result<Vec<u8>, AllocError>
    requires ordered { from ≤ to }
    requires within { to < memory.now.size }
    ensures { IfOk result (λ tape. tape.items ≡ dumped memory.now from to start) }
{
    let words = words_from(alloc, memory, from, to)?;
    let mut tape = Vec::new(alloc);
    push_words(&mut tape, from.number(), &words)?;
    push_start(&mut tape, Some(start))?;
    Ok(tape)
}

// The words of a memory from one address up to another.
fn words_from(alloc: Global, memory: &Memory, from: Addr, to: Addr) -> Result<Vec<u16>, AllocError>
    requires { from ≤ to }
    ensures words { IfOk result (λ words. words.items ≡ words_from memory.now from (to + 1 - from)) }
    ensures length { IfOk result (λ words. length words.items ≡ to + 1 - from) }
{
    let mut words = Vec::new(alloc);
    for at in from.number()..to.number() + 1 {
        words.push(memory.read(Addr::of_word(Word(at))).0)?;
    }
    Ok(words)
}

/// Puts words behind a tape, for the addresses from an origin on, 16 to a block. Want of memory leaves a part of them
/// there.
pub fn push_words(tape: &mut Vec<u8>, origin: u16, words: &[u16]) -> Result<(), AllocError>
    requires { origin + length words.now ≤ 2 ^ 15 }
    ensures { IfOk result (λ _. tape.new.items ≡ tape.old.items ++ blocks_of origin words.now) }
{
    let mut at = origin;
    let mut rest = words;
    while !rest.is_empty() {
        let (first, others) = rest.split_at(rest.len().min(16));
        let count = first.len() as u16;
        push_block(tape, u16::MAX - count + 1, at, first)?;
        at += count;
        rest = others;
    }
    Ok(())
}

/// Puts a start block behind a tape, or one that says that there is no start. Want of memory leaves a part of it there.
pub fn push_start(tape: &mut Vec<u8>, start: Option<Addr>) -> Result<(), AllocError>
    ensures { IfOk result (λ _. tape.new.items ≡ tape.old.items ++ start_block (start_origin start)) }
{
    push_block(tape, 1, origin_of(start), &[])
}

// The origin of a start block: bit 0 alone where there is no start.
fn origin_of(start: Option<Addr>) -> u16
    ensures { result ≡ start_origin start }
{
    match start {
        Some(at) => at.number(),
        None => 1 << 15,
    }
}

// Puts a block behind a tape.
fn push_block(tape: &mut Vec<u8>, count: u16, origin: u16, words: &[u16]) -> Result<(), AllocError>
    ensures { IfOk result (λ _. tape.new.items ≡ tape.old.items ++ block count origin words.now) }
{
    push_word(tape, count)?;
    push_word(tape, origin)?;
    push_word(tape, checksum(count, origin, words))?;
    for word in words {
        push_word(tape, *word)?;
    }
    Ok(())
}

// The word with which the others of a block add up to 0.
fn checksum(count: u16, origin: u16, words: &[u16]) -> u16
    ensures { result ≡ checksum (count ∷ origin ∷ words.now) }
{
    let mut sum = count.wrapping_add(origin);
    for word in words {
        sum = sum.wrapping_add(*word);
    }
    0u16.wrapping_sub(sum)
}

// Puts a word behind a tape, its low byte first.
fn push_word(tape: &mut Vec<u8>, word: u16) -> Result<(), AllocError>
    ensures { IfOk result (λ _. tape.new.items ≡ tape.old.items ++ (word % 2 ^ 8) ∷ (word / 2 ^ 8) ∷ []) }
{
    let mut bytes = [0; 2];
    LittleEndian::write_u16(&mut bytes, word);
    tape.push(bytes[0])?;
    tape.push(bytes[1])?;
    Ok(())
}
