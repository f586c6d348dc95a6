// The keys of bytes, wherever these are cut. A line has the bytes, and the keys that they give.
use crate::terminal::texts::{bytes_of, cut};
use crate::texts::holds;
use host_lines::ConnId;
use std::alloc::Global;
use std::test::Fail;
use telnet_lines::Line;

/// A line with a connection.
pub fn connected(alloc: Global) -> Option<Line> {
    let mut line = Line::new(alloc).ok()?;
    line.set_port(Some(4000));
    line.connect(ConnId(0));
    Some(line)
}

/// Whether a piece is taken by a line: it has a connection, and no key waits.
pub fn feeds(line: &mut Line, piece: &[u8]) -> bool {
    if line.connection().is_none() || piece.len() > 64 || line.take_key().is_some() {
        return false;
    }
    line.feed(piece);
    true
}

/// Takes all keys that wait; they are the first of those wanted, and the others are answered.
pub fn taken<'a>(line: &mut Line, wanted: &'a [u8]) -> Option<&'a [u8]> {
    let mut rest = wanted;
    for _ in 0..65 {
        match line.take_key() {
            None => return Some(rest),
            Some(key) => rest = behind(key, rest)?,
        }
    }
    None
}

/// The keys behind the first, which is that one.
pub fn behind(key: u8, wanted: &[u8]) -> Option<&[u8]> {
    match wanted.split_first() {
        Some((first, rest)) if *first == key => Some(rest),
        _ => None,
    }
}

fn fed<'a>(line: &mut Line, piece: &[u8], wanted: &'a [u8]) -> Option<&'a [u8]> {
    if !feeds(line, piece) {
        return None;
    }
    taken(line, wanted)
}

/// The keys that are left of those wanted once the bytes were received in pieces: they are cut behind the first byte
/// where the number is odd, and so on.
fn left_of<'a>(alloc: Global, bytes: &[u8], cuts: u32, wanted: &'a [u8]) -> Option<&'a [u8]> {
    let mut line = connected(alloc)?;
    let mut piece = Vec::new(alloc);
    let mut rest = wanted;
    let mut cuts = cuts;
    for byte in bytes {
        piece.push(*byte).ok()?;
        if cuts % 2 == 1 {
            rest = fed(&mut line, piece.as_slice(), rest)?;
            piece.clear();
        }
        cuts /= 2;
    }
    fed(&mut line, piece.as_slice(), rest)
}

fn are_keys(alloc: Global, bytes: &[u8], keys: &[u8]) -> bool {
    for cuts in 0..1024u32 {
        match left_of(alloc, bytes, cuts, keys) {
            Some(rest) if rest.is_empty() => (),
            _ => return false,
        }
    }
    true
}

fn is_so(alloc: Global, row: &str) -> Option<bool> {
    let (bytes, keys) = cut(row, '|');
    let bytes = bytes_of(alloc, bytes)?;
    let keys = bytes_of(alloc, keys)?;
    Some(are_keys(alloc, bytes.as_slice(), keys.as_slice()))
}

const KEYS: &str = "41 FF FF FF FD 01 42|41 FF 42
0D 00 0D 0A 0A|0D 0D 0A
0A 00 0D 0D 00 00|0A 00 0D 0D 00
FF FA 18 FF FF F0 FF F0 41|41
FF FA FF FA FF F0 41 FF FA 42|41
0D FF F1 00 0D FF FF 0A|0D 0D FF 0A
0D FF FB 01 0A 41 FF FE|0D 41
FF FF FF FF FF|FF FF
FF F0 FF F4 FF 00 41|41
FF FA FF F1 FF F0|-";

#[test]
fn keys_are_the_same_in_every_cutting(rt: HostRuntime) -> Result<(), Fail> {
    for row in KEYS.lines() {
        holds(&rt, is_so(rt.alloc(), row) == Some(true), row);
    }
    Ok(())
}

/// Whether a subnegotiation of 64000 bytes, in pieces of 64, gives no key, and the byte behind it its own.
fn is_skipped(line: &mut Line) -> bool {
    if !feeds(line, &[0xFF, 0xFA]) {
        return false;
    }
    for _ in 0..1000 {
        if !feeds(line, &[0; 64]) {
            return false;
        }
    }
    feeds(line, &[0xFF, 0xF0, 0x41]) && line.take_key() == Some(0x41) && line.take_key().is_none()
}

#[test]
fn a_subnegotiation_is_skipped_however_long(rt: HostRuntime) -> Result<(), Fail> {
    let mut line = Line::new(rt.alloc())?;
    line.set_port(Some(4000));
    line.connect(ConnId(0));
    holds(&rt, is_skipped(&mut line), "a long subnegotiation");
    Ok(())
}
