// A stream of 40 bytes with negotiations, from a caller that sends it in three pieces, cut at each two places.
use crate::terminal::cutting::behind;
use crate::terminal::texts::bytes_of;
use crate::texts::holds;
use host_lines::MemLines;
use std::alloc::Global;
use std::process::Abort;
use std::test::Fail;
use telnet_lines::Line;

const STREAM: &str =
    "41 FF FB 1F FF FA 1F 00 50 FF FF FF F0 42 0D 00 0D 0A 0A FF FF FF FE 22 FF F1 43 FF FA FF FA FF FF F0 01 FF F0 44 FF FB";

const KEYS: [u8; 8] = [0x41, 0x42, 0x0D, 0x0D, 0x0A, 0xFF, 0x43, 0x44];

/// Lines on which caller 1 connects and sends those pieces.
fn with_pieces(alloc: Global, first: &[u8], second: &[u8], third: &[u8]) -> Option<MemLines> {
    let mut lines = MemLines::with_room(alloc, 12).ok()?;
    lines.add_connect(0, 4000, 1).ok()?;
    lines.add_bytes(1, 1, first).ok()?;
    lines.add_bytes(2, 1, second).ok()?;
    lines.add_bytes(3, 1, third).ok()?;
    Some(lines)
}

/// Whether the keys that polls give are those wanted, and no others.
fn gives(line: &mut Line, lines: &mut MemLines, wanted: &[u8]) -> bool {
    let mut rest = wanted;
    for now in 0..20u64 {
        if let Some(key) = line.poll(lines, now) {
            match behind(key, rest) {
                Some(more) => rest = more,
                None => return false,
            }
        }
    }
    rest.is_empty()
}

fn is_cut(alloc: Global, line: &mut Line, bytes: &[u8], one: usize, two: usize) -> Option<bool> {
    let (front, third) = bytes.split_at_checked(two)?;
    let (first, second) = front.split_at_checked(one)?;
    let mut lines = with_pieces(alloc, first, second, third)?;
    line.set_port(Some(4000));
    Some(gives(line, &mut lines, &KEYS))
}

fn are_cut(alloc: Global, line: &mut Line, bytes: &[u8]) -> bool {
    for two in 0..bytes.len() {
        for one in 0..two {
            if is_cut(alloc, line, bytes, one, two) != Some(true) {
                return false;
            }
        }
    }
    true
}

fn is_whole(rt: &impl Abort, alloc: Global, line: &mut Line) -> Option<()> {
    let bytes = bytes_of(alloc, STREAM)?;
    holds(rt, bytes.len() == 40, "40 bytes");
    holds(
        rt,
        are_cut(alloc, line, bytes.as_slice()),
        "each two places",
    );
    Some(())
}

#[test]
fn a_stream_gives_the_same_keys_wherever_it_is_cut(rt: HostRuntime) -> Result<(), Fail> {
    let mut line = Line::new(rt.alloc())?;
    holds(
        &rt,
        is_whole(&rt, rt.alloc(), &mut line).is_some(),
        "memory",
    );
    Ok(())
}
