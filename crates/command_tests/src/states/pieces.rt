// State files that come in pieces.
ghost use Rattle.std.specs.Prelude.{◌<◌};

use crate::checked::check;
use crate::states::same::same;
use crate::states::texts::{BUSY, BUSY_DIGEST, FIRST, FIRST_DIGEST, both_of, equal};
use state_file::{OutOfMemory, Saved, StateFault, StateReader, read_state};
use std::alloc::Global;
use std::process::Abort;
use std::test::Fail;

/// Feeds bytes in pieces of a size.
fn feed_all(reader: &mut StateReader, bytes: &[u8], size: usize) -> Result<(), OutOfMemory>
    requires { 0 < size }
{
    for piece in bytes.chunks(size) {
        if piece.len() <= 4096 {
            reader.feed(piece)?;
        }
    }
    Ok(())
}

/// What bytes say that come in pieces of a size.
fn read_pieces(alloc: Global, bytes: &[u8], size: usize) -> Result<Saved, StateFault>
    requires { 0 < size }
{
    let mut reader = StateReader::new(alloc)?;
    feed_all(&mut reader, bytes, size)?;
    reader.finish()
}

/// What bytes say of which a piece ends at a place.
fn read_cut(alloc: Global, front: &[u8], rest: &[u8]) -> Result<Saved, StateFault> {
    let mut reader = StateReader::new(alloc)?;
    feed_all(&mut reader, front, 4096)?;
    feed_all(&mut reader, rest, 4096)?;
    reader.finish()
}

/// The fault of bytes that come in pieces of a size, if they have one.
pub fn fault_in_pieces(alloc: Global, bytes: &[u8], size: usize) -> Option<StateFault>
    requires { 0 < size }
{
    match read_pieces(alloc, bytes, size) {
        Ok(_) => None,
        Err(fault) => Some(fault),
    }
}

fn is_same(rt: &impl Abort, found: &Result<Saved, StateFault>, wanted: &Saved, line: &str) {
    match found {
        Ok(saved) => check(rt, same(saved, wanted), line),
        Err(_) => check(rt, false, line),
    }
}

fn says_the_same(rt: &impl Abort, alloc: Global, bytes: &[u8], line: &str) {
    match read_state(alloc, bytes) {
        Ok(wanted) => {
            is_same(rt, &read_pieces(alloc, bytes, 1), &wanted, line);
            is_same(rt, &read_pieces(alloc, bytes, 7), &wanted, line);
            is_same(rt, &read_pieces(alloc, bytes, 4095), &wanted, line);
            is_same(rt, &read_pieces(alloc, bytes, 4096), &wanted, line);
        }
        Err(_) => check(rt, false, line),
    }
}

#[test]
fn the_first_state_says_the_same_in_pieces(rt: HostRuntime) -> Result<(), Fail> {
    let bytes = both_of(rt.alloc(), FIRST, FIRST_DIGEST)?;
    says_the_same(&rt, rt.alloc(), &bytes, "the first");
    Ok(())
}

#[test]
fn a_busy_state_says_the_same_in_pieces(rt: HostRuntime) -> Result<(), Fail> {
    let bytes = both_of(rt.alloc(), BUSY, BUSY_DIGEST)?;
    says_the_same(&rt, rt.alloc(), &bytes, "the busy one");
    Ok(())
}

fn is_same_at_each_cut(rt: &impl Abort, alloc: Global, bytes: &[u8], wanted: &Saved) {
    for place in 0..bytes.len() {
        if place < 64 || place > 8200 || place % 97 == 0 {
            let (front, rest) = bytes.split_at(place);
            is_same(rt, &read_cut(alloc, front, rest), wanted, "a cut");
        }
    }
}

// Of the words of memory, which stand at 46 to 8237, at some; else a piece ends in each field, and between any two.
#[test]
fn a_piece_may_end_anywhere(rt: HostRuntime) -> Result<(), Fail> {
    let bytes = both_of(rt.alloc(), BUSY, BUSY_DIGEST)?;
    match read_state(rt.alloc(), &bytes) {
        Ok(wanted) => is_same_at_each_cut(&rt, rt.alloc(), &bytes, &wanted),
        Err(_) => check(&rt, false, "it is read"),
    }
    Ok(())
}

fn has_fault(rt: &impl Abort, alloc: Global, bytes: &[u8], wanted: StateFault, line: &str) {
    equal(rt, &fault_in_pieces(alloc, bytes, 1), &Some(wanted), line);
    equal(rt, &fault_in_pieces(alloc, bytes, 7), &Some(wanted), line);
    equal(
        rt,
        &fault_in_pieces(alloc, bytes, 4096),
        &Some(wanted),
        line,
    );
}

#[test]
fn bytes_behind_the_end_are_a_field_too_many(rt: HostRuntime) -> Result<(), Fail> {
    let mut bytes = both_of(rt.alloc(), BUSY, BUSY_DIGEST)?;
    let end = StateFault::BadField(bytes.len());
    bytes.push(0)?;
    has_fault(&rt, rt.alloc(), &bytes, end, "one byte");
    bytes.resize(20000, 0)?;
    has_fault(&rt, rt.alloc(), &bytes, end, "many bytes");
    Ok(())
}

#[test]
fn what_is_cut_short_is_so_in_pieces(rt: HostRuntime) -> Result<(), Fail> {
    let mut bytes = both_of(rt.alloc(), BUSY, BUSY_DIGEST)?;
    bytes.truncate(bytes.len().saturating_sub(1));
    has_fault(&rt, rt.alloc(), &bytes, StateFault::Truncated, "the end");
    has_fault(&rt, rt.alloc(), b"NOVA", StateFault::Truncated, "the front");
    has_fault(&rt, rt.alloc(), b"", StateFault::Truncated, "no byte");
    has_fault(&rt, rt.alloc(), b"NOVAK", StateFault::NotState, "no state");
    Ok(())
}
