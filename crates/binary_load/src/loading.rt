ghost use Rattle.std.specs.Prelude.{◌≡◌, ℕ, ◌+◌, ◌*◌, ◌<◌, ◌≤◌, ◌^◌, length, replicate, OnErr, IsOk};
ghost use Rattle.nova_memory.specs.Memory.{IsMemory};
ghost use Rattle.binary_load.specs.Tape.{tape, loaded, answer, put_all, start_at, stores_from, words_of};
ghost use Rattle.binary_load.specs.Pieces.{stores_in, AreWithin};

use crate::blocks::{Item, Stores, next_item, word_of};
use crate::faults::{LoadFault, Start};
use nova_memory::Memory;
use nova_word::{Addr, Word};

/// Loads a tape: its words go to their addresses, in their order, and the start is answered. A start past the memory is
/// no fault. The whole tape is checked before the first word is stored, so that after a fault the memory is as it was.
///
/// A tape is blocks, with zero bytes before, between and behind them, and all words stand with their low byte first.
/// The first word of a block is its count. As a signed number, -1 to -16 is a block of that many words; one below -16 a
/// block of one word, for that many addresses; 1 the start block, which ends the tape; and a block with a count above 1
/// is ignored, up to its first byte of all ones. The others have their origin, a checksum and their words behind the
/// count, and all of it adds up to 0.
pub fn load(bytes: &[u8], memory: &mut Memory) -> Result<Start, LoadFault>
    ensures answer { result ≡ answer (tape memory.old.size bytes.now) }
    ensures memory { memory.new ≡ loaded memory.old (tape memory.old.size bytes.now) }
    ensures unchanged { OnErr result (memory.new ≡ memory.old) }
    ensures size { memory.new.size ≡ memory.old.size }
{
    let start = check(bytes, memory.size())?;
    store_all(bytes, memory);
    Ok(start)
}

// Checks a whole tape, for a memory of that size, and finds its start.
fn check(bytes: &[u8], size: u16) -> Result<Start, LoadFault>
    ensures { result ≡ answer (tape size bytes.now) }
{
    let mut rest = bytes;
    loop {
        match next_item(rest, bytes.len() - rest.len(), size) {
            Ok(Item::Passed { bytes: passed, .. }) => rest = &rest[passed..],
            Ok(Item::Start { origin }) => {
                return Ok(Start {
                    at: start_at(origin),
                });
            }
            Ok(Item::End) => return Ok(Start { at: None }),
            Err(fault) => return Err(fault),
        }
    }
}

// The start that the origin of a start block is.
fn start_at(origin: u16) -> Option<Addr>
    ensures { result ≡ start_at origin }
{
    Addr::new(origin)
}

// Stores what a tape says, which has no fault.
fn store_all(bytes: &[u8], memory: &mut Memory)
    requires { IsOk (tape memory.old.size bytes.now) }
    ensures memory { memory.new ≡ loaded memory.old (tape memory.old.size bytes.now) }
    ensures size { memory.new.size ≡ memory.old.size }
{
    let mut rest = bytes;
    loop {
        match next_item(rest, bytes.len() - rest.len(), memory.size()) {
            Ok(
                Item::Passed {
                    stores,
                    bytes: passed,
                },
            ) => {
                store(rest, stores, memory);
                rest = &rest[passed..];
            }
            Ok(Item::Start { .. }) => return,
            Ok(Item::End) => return,
            // no block has a fault
            Err(_) => return,
        }
    }
}

// Stores what the block at the front of `rest` says.
fn store(rest: &[u8], stores: Stores, memory: &mut Memory)
    requires within { AreWithin memory.old.size rest.now stores }
    requires size { memory.old.size ≤ 2 ^ 15 }
    ensures memory { memory.new ≡ put_all memory.old (stores_in rest.now stores) }
    ensures size { memory.new.size ≡ memory.old.size }
{
    match stores {
        Stores::Nothing => {}
        Stores::Words { origin, count } => {
            store_words(&rest[6..6 + 2 * usize::from(count)], origin, memory);
        }
        Stores::Repeated {
            origin,
            word,
            count,
        } => store_repeated(Word(word), origin, count, memory),
    }
}

// Stores the words that these bytes are from an address on.
fn store_words(bytes: &[u8], origin: u16, memory: &mut Memory)
    requires { origin + length (words_of bytes.now) ≤ 2 ^ 15 }
    ensures memory { memory.new ≡ put_all memory.old (stores_from origin (words_of bytes.now)) }
    ensures size { memory.new.size ≡ memory.old.size }
{
    let mut at = origin;
    let mut rest = bytes;
    while let [low, high, others @ ..] = rest {
        memory.write(Addr::of_word(Word(at)), Word(word_of(*low, *high)));
        at += 1;
        rest = others;
    }
}

// Stores one word at that many addresses from one on.
fn store_repeated(word: Word, origin: u16, count: u16, memory: &mut Memory)
    requires { origin + count ≤ 2 ^ 15 }
    ensures memory { memory.new ≡ put_all memory.old (stores_from origin (replicate count word)) }
    ensures size { memory.new.size ≡ memory.old.size }
{
    for at in origin..origin + count {
        memory.write(Addr::of_word(Word(at)), word);
    }
}
