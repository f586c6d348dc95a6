// What is put on a line: when it is full, and what is sent of it. A row has the room of the lines, the most bytes of one
// send, how many bytes are put behind the opening, how often the line is polled, and how many bytes were sent then and how
// many wait.
use crate::terminal::texts::cut;
use crate::texts::{holds, size};
use host_lines::{ConnId, Lines, MemLines, Sent};
use std::alloc::Global;
use std::process::Abort;
use std::test::Fail;
use telnet_lines::Line;

const OPENING: [u8; 12] = [255, 251, 1, 255, 251, 3, 255, 251, 0, 255, 253, 0];

/// Whether a byte is taken so many times.
fn puts(line: &mut Line, byte: u8, times: usize) -> bool {
    for _ in 0..times {
        if line.put(byte).is_err() {
            return false;
        }
    }
    true
}

/// Whether the line has a port; a connection begins then.
fn connects(line: &mut Line, id: u32) -> bool {
    if line.port().is_none() {
        return false;
    }
    line.connect(ConnId(id));
    true
}

fn is_full_behind_1012(line: &mut Line) -> bool {
    connects(line, 0)
        && puts(line, 65, 1012)
        && line.pending() == 1024
        && line.put(65).is_err()
        && line.put(255).is_err()
        && line.pending() == 1024
}

fn is_full_behind_a_doubled_byte(line: &mut Line) -> bool {
    connects(line, 1)
        && puts(line, 65, 1011)
        && line.pending() == 1023
        && line.put(255).is_ok()
        && line.pending() == 1025
        && line.put(65).is_err()
}

#[test]
fn a_line_is_full_at_1024_coded_bytes(rt: HostRuntime) -> Result<(), Fail> {
    let mut line = Line::new(rt.alloc())?;
    line.set_port(Some(4000));
    holds(&rt, is_full_behind_1012(&mut line), "1012 bytes");
    holds(
        &rt,
        is_full_behind_a_doubled_byte(&mut line),
        "a doubled byte",
    );
    Ok(())
}

/// Whether nothing of what is put on a line is kept while nobody is connected.
fn keeps_nothing(line: &mut Line) -> bool {
    puts(line, 65, 2000) && line.pending() == 0
}

/// Whether a connection begins with the opening, and with nothing else.
fn has_its_opening(line: &mut Line) -> bool {
    connects(line, 2) && line.pending() == OPENING.len()
}

#[test]
fn bytes_to_nobody_are_not_for_the_next_caller(rt: HostRuntime) -> Result<(), Fail> {
    let mut line = Line::new(rt.alloc())?;
    holds(&rt, keeps_nothing(&mut line), "without a port");
    line.set_port(Some(4000));
    holds(&rt, keeps_nothing(&mut line), "without a connection");
    holds(&rt, has_its_opening(&mut line), "the opening alone");
    Ok(())
}

/// Whether those bytes were sent to caller 7: the opening, and then `A`.
fn are_sent(sent: &[Sent]) -> bool {
    let mut opening = OPENING.iter();
    for it in sent {
        let wanted = opening.next().copied().unwrap_or(b'A');
        if it.caller != 7 || it.byte != wanted {
            return false;
        }
    }
    true
}

/// A row, as numbers.
#[derive(Clone, Copy)]
struct Row {
    room: usize,
    most: usize,
    bytes: usize,
    polls: usize,
    sent: usize,
    left: usize,
}

fn row_of(text: &str) -> Option<Row> {
    let (room, rest) = cut(text, '|');
    let (most, rest) = cut(rest, '|');
    let (bytes, rest) = cut(rest, '|');
    let (polls, rest) = cut(rest, '|');
    let (sent, left) = cut(rest, '|');
    Some(Row {
        room: size(room)?,
        most: size(most)?,
        bytes: size(bytes)?,
        polls: size(polls)?,
        sent: size(sent)?,
        left: size(left)?,
    })
}

/// Lines on which caller 7 connects to port 4000.
fn with_caller(alloc: Global, row: Row) -> Option<MemLines> {
    let mut lines = MemLines::with_room(alloc, row.room).ok()?;
    lines.add_connect(0, 4000, 7).ok()?;
    lines.limit_send(row.most);
    Some(lines)
}

/// Accepts the caller, and puts the bytes.
fn begins(line: &mut Line, lines: &mut MemLines, row: Row) -> bool {
    match lines.accept(4000, 0) {
        Ok(Some(conn)) => connects(line, conn.0) && puts(line, b'A', row.bytes),
        _ => false,
    }
}

fn is_polled(line: &mut Line, lines: &mut MemLines, row: Row) -> bool {
    for _ in 0..row.polls {
        if line.poll(lines, 0).is_some() {
            return false;
        }
    }
    lines.sent().len() == row.sent && are_sent(lines.sent()) && line.pending() == row.left
}

fn is_so(rt: &impl Abort, alloc: Global, line: &mut Line, text: &str) -> Option<()> {
    let row = row_of(text)?;
    let mut lines = with_caller(alloc, row)?;
    line.set_port(Some(4000));
    let so = begins(line, &mut lines, row) && is_polled(line, &mut lines, row);
    holds(rt, so, text);
    Some(())
}

const SENDS: &str = "100|0|0|3|0|12
100|1|0|3|3|9
100|3|0|3|9|3
100|3|0|4|12|0
100|3|0|5|12|0
5|100|0|3|5|7
5|3|0|1|3|9
0|100|0|2|0|12
2000|2000|1000|1|256|756
2000|2000|1000|3|768|244
2000|2000|1000|4|1012|0
300|200|1000|1|200|812
300|200|1000|2|300|712";

#[test]
fn what_is_sent_is_what_was_taken(rt: HostRuntime) -> Result<(), Fail> {
    let mut line = Line::new(rt.alloc())?;
    for row in SENDS.lines() {
        holds(&rt, is_so(&rt, rt.alloc(), &mut line, row).is_some(), row);
    }
    Ok(())
}
