ghost use Rattle.std.specs.Prelude.{◌≡◌, ◌+◌, ◌*◌, ◌%◌, ◌^◌, ◌<◌, ◌≤◌, ◌==◌, length, sum, drop, IfOk};
ghost use Rattle.std.specs.Result.{result_err};
ghost use Rattle.std.specs.List.{position};
ghost use Rattle.binary_load.specs.Tape.{words_of, word_at, kind_of, block_fault, stores_fault, block, front};
ghost use Rattle.binary_load.specs.Pieces.{found, IsWithin};

use crate::faults::LoadFault;
use byteorder::{ByteOrder, LittleEndian};

/// What a block is, by its count.
#[derive(Clone, Copy)]
pub enum Kind {
    /// That many words, 1 to 16.
    Words(u16),
    /// One word for that many addresses, 17 to 32768.
    Repeated(u16),
    /// The start block.
    Start,
    /// A block that says nothing.
    Ignored,
}

/// What a block stores.
#[derive(Clone, Copy)]
pub enum Stores {
    /// Nothing.
    Nothing,
    /// That many words, which stand behind its checksum, from the origin on.
    Words { origin: u16, count: u16 },
    /// One word at that many addresses from the origin on.
    Repeated { origin: u16, word: u16, count: u16 },
}

/// What stands at the front of what is left of a tape.
#[derive(Clone, Copy)]
pub enum Item {
    /// A block or a zero byte, and how many bytes it has.
    Passed { stores: Stores, bytes: usize },
    /// The start block.
    Start { origin: u16 },
    /// The end of the bytes.
    End,
}

/// What stands at the front of `rest`, which is what is left of a tape from that place on, for a memory of that size.
#[tactic(auto, unfolding(crate::specs::Tape::front))]
pub(crate) fn next_item(rest: &[u8], place: usize, size: u16) -> Result<Item, LoadFault>
    requires { place + length rest.now < 2 ^ 64 }
    ensures item { found rest.now result ≡ front size place rest.now }
    ensures within { IfOk result (λ item. IsWithin size rest.now item) }
{
    if rest.is_empty() {
        return Ok(Item::End);
    }
    if rest[0] == 0 {
        return Ok(Item::Passed {
            stores: Stores::Nothing,
            bytes: 1,
        });
    }
    if rest.len() == 1 {
        return Err(LoadFault::Truncated(place + rest.len()));
    }
    next_block(rest, place, size, kind_of(word_at(rest, 0)))
}

// The block of that kind at the front of `rest`.
#[tactic(auto, unfolding(crate::specs::Tape::block))]
fn next_block(rest: &[u8], place: usize, size: u16, kind: Kind) -> Result<Item, LoadFault>
    requires place { place + length rest.now < 2 ^ 64 }
    requires kind { kind ≡ kind_of (word_at rest.now 0) }
    requires count { 2 ≤ length rest.now }
    ensures item { found rest.now result ≡ block size place rest.now kind }
    ensures within { IfOk result (λ item. IsWithin size rest.now item) }
{
    match kind {
        Kind::Words(count) => {
            check_stores(rest, place, size, usize::from(count), count)?;
            Ok(Item::Passed {
                stores: Stores::Words {
                    origin: word_at(rest, 2),
                    count,
                },
                bytes: 6 + 2 * usize::from(count),
            })
        }
        Kind::Repeated(count) => {
            check_stores(rest, place, size, 1, count)?;
            Ok(Item::Passed {
                stores: Stores::Repeated {
                    origin: word_at(rest, 2),
                    word: word_at(rest, 6),
                    count,
                },
                bytes: 8,
            })
        }
        Kind::Start => {
            check_block(rest, place, 0)?;
            Ok(Item::Start {
                origin: word_at(rest, 2),
            })
        }
        Kind::Ignored => match all_ones_place(&rest[2..]) {
            Some(others) => Ok(Item::Passed {
                stores: Stores::Nothing,
                bytes: 2 + others + 1,
            }),
            None => Err(LoadFault::Truncated(place + rest.len())),
        },
    }
}

// What a block is, by its count as a signed number.
fn kind_of(count: u16) -> Kind
    ensures { result ≡ kind_of count }
{
    match count {
        0xfff0.. => Kind::Words(u16::MAX - count + 1),
        0x8000..=0xffef => Kind::Repeated(u16::MAX - count + 1),
        1 => Kind::Start,
        _ => Kind::Ignored,
    }
}

// Checks a block for that many addresses, which has so many words behind its checksum.
#[tactic(auto, unfolding(crate::specs::Tape::stores_fault))]
fn check_stores(
    rest: &[u8],
    place: usize,
    size: u16,
    words: usize,
    addresses: u16,
) -> Result<(), LoadFault>
    requires place { place + length rest.now < 2 ^ 64 }
    requires few { words ≤ 16 }
    ensures fault { result_err result ≡ stores_fault size place rest.now words addresses }
    ensures whole { IfOk result (λ _. 6 + 2 * words ≤ length rest.now) }
    ensures within { IfOk result (λ _. word_at rest.now 2 + addresses ≤ size) }
{
    check_block(rest, place, words)?;
    let origin = word_at(rest, 2);
    if u32::from(origin) + u32::from(addresses) > u32::from(size) {
        return Err(LoadFault::PastMemory(origin));
    }
    Ok(())
}

// Checks a block by itself, which has so many words behind its checksum.
#[tactic(auto, unfolding(crate::specs::Tape::block_fault))]
fn check_block(rest: &[u8], place: usize, words: usize) -> Result<(), LoadFault>
    requires place { place + length rest.now < 2 ^ 64 }
    requires few { words ≤ 16 }
    ensures fault { result_err result ≡ block_fault place rest.now words }
    ensures whole { IfOk result (λ _. 6 + 2 * words ≤ length rest.now) }
{
    let bytes = 6 + 2 * words;
    if rest.len() < bytes {
        return Err(LoadFault::Truncated(place + rest.len()));
    }
    if sum(&rest[..bytes]) != 0 {
        return Err(LoadFault::BadSum(place));
    }
    Ok(())
}

// The place of the first byte of all ones.
fn all_ones_place(bytes: &[u8]) -> Option<usize>
    ensures { result ≡ position (λ b. b == 0xff) bytes.now }
{
    bytes.iter().position(|b| *b == 0xff)
}

// The sum of the words that these bytes are, without what is carried out of 16 bits.
fn sum(bytes: &[u8]) -> u16
    ensures { result ≡ sum (words_of bytes.now) % 2 ^ 16 }
{
    let mut sum = 0u16;
    let mut rest = bytes;
    while let [low, high, others @ ..] = rest {
        sum = sum.wrapping_add(word_of(*low, *high));
        rest = others;
    }
    sum
}

// The word at a place.
fn word_at(bytes: &[u8], place: usize) -> u16
    requires { place + 1 < length bytes.now }
    ensures { result ≡ word_at bytes.now place }
{
    word_of(bytes[place], bytes[place + 1])
}

/// A word of its two bytes.
pub(crate) fn word_of(low: u8, high: u8) -> u16
    ensures { result ≡ low + 2 ^ 8 * high }
{
    LittleEndian::read_u16(&[low, high])
}
