// A line that is polled on lines in memory where calls fail. Caller 1 connects to port 4000 at time 0, sends `41` at 50
// and hangs up at 300. Calls count from that of `listen`, which is made again where it fails. A row has the call that
// fails; each poll with its time, the key that it answers and the connection that stands then; how many bytes were sent;
// how many faults were counted.
use crate::terminal::texts::{byte_of, cut};
use crate::texts::{holds, number};
use host_lines::{ConnId, Lines, ListenFault, MemLines};
use std::alloc::Global;
use std::process::Abort;
use std::test::Fail;
use telnet_lines::Line;

/// The lines, where that call fails.
fn with_failing(alloc: Global, call: &str) -> Option<MemLines> {
    let mut lines = MemLines::with_room(alloc, 100).ok()?;
    lines.add_connect(0, 4000, 1).ok()?;
    lines.add_bytes(50, 1, b"A").ok()?;
    lines.add_hang_up(300, 1).ok()?;
    if let Some(number) = number(call) {
        lines.fail_call(number).ok()?;
    }
    Some(lines)
}

/// Whether a poll is as a word says.
fn is_polled(line: &mut Line, lines: &mut MemLines, word: &str) -> bool {
    let (time, rest) = cut(word, ':');
    let (key, connection) = cut(rest, ':');
    let Some(time) = number(time) else {
        return false;
    };
    line.poll(lines, time) == byte_of(key)
        && line.connection() == connection.parse().ok().map(ConnId)
}

fn are_polled(line: &mut Line, lines: &mut MemLines, words: &str) -> bool {
    for word in words.split(' ') {
        if !is_polled(line, lines, word) {
            return false;
        }
    }
    true
}

/// Whether the port is listened on, at the second try at the latest.
fn listens(alloc: Global, lines: &mut MemLines) -> bool {
    match lines.listen(alloc, 4000) {
        Ok(()) => true,
        Err(ListenFault::Failed) => lines.listen(alloc, 4000).is_ok(),
        Err(ListenFault::OutOfMemory) => false,
    }
}

fn is_so(rt: &impl Abort, alloc: Global, line: &mut Line, row: &str) -> Option<()> {
    let (call, rest) = cut(row, '|');
    let (words, rest) = cut(rest, '|');
    let (sent, faults) = cut(rest, '|');
    let mut lines = with_failing(alloc, call)?;
    line.set_port(Some(4000));
    holds(rt, listens(alloc, &mut lines), row);
    holds(rt, are_polled(line, &mut lines, words), row);
    let so = Some(lines.sent().len() as u64) == number(sent);
    holds(rt, so && Some(lines.faults()) == number(faults), row);
    Some(())
}

const POLLS: &str = "none|0:-:0 100:41:0 200:-:0 300:-:- 400:-:-|12|0
0|0:-:0 100:41:0 200:-:0 300:-:- 400:-:-|12|1
1|0:-:- 100:41:0 200:-:0 300:-:- 400:-:-|12|1
2|0:-:- 100:-:- 200:-:- 300:-:- 400:-:-|0|1
3|0:-:- 100:-:- 200:-:- 300:-:- 400:-:-|0|1
4|0:-:0 100:-:- 200:-:- 300:-:- 400:-:-|12|1
5|0:-:0 100:41:0 200:-:- 300:-:- 400:-:-|12|1
6|0:-:0 100:41:0 200:-:0 300:-:- 400:-:-|12|1
7|0:-:0 100:41:0 200:-:0 300:-:- 400:-:-|12|1
none|49:-:0 49:-:0 50:41:0 299:-:0 300:-:-|12|0
none|300:41:0 300:-:-|12|0";

#[test]
fn a_failing_call_ends_no_more_than_its_connection(rt: HostRuntime) -> Result<(), Fail> {
    let mut line = Line::new(rt.alloc())?;
    for row in POLLS.lines() {
        holds(&rt, is_so(&rt, rt.alloc(), &mut line, row).is_some(), row);
    }
    Ok(())
}
