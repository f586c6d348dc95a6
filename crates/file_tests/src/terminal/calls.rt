// Each call on lines in memory once, with ample memory.
use crate::texts::holds;
use host_lines::{ConnId, Lines, MemLines, Received};
use std::alloc::Global;
use std::process::Abort;
use std::test::Fail;
use telnet_lines::Line;

/// Two callers on two ports, the second of which sends more than a buffer takes.
fn with_two(alloc: Global) -> Option<MemLines> {
    let mut lines = MemLines::with_room(alloc, 10).ok()?;
    lines.add_connect(1, 4000, 8).ok()?;
    lines.add_connect(1, 4001, 9).ok()?;
    lines.add_bytes(2, 9, b"hello").ok()?;
    lines.add_hang_up(3, 9).ok()?;
    Some(lines)
}

fn are_accepted(lines: &mut MemLines) -> bool {
    lines.accept(4001, 0) == Ok(None)
        && lines.accept(4001, 1) == Ok(Some(ConnId(0)))
        && lines.accept(4001, 1) == Ok(None)
        && lines.accept(4000, 1) == Ok(Some(ConnId(1)))
}

fn is_received(lines: &mut MemLines) -> bool {
    let mut buf = [0; 3];
    lines.receive(ConnId(0), &mut buf, 1) == Ok(Received::NoneYet)
        && lines.receive(ConnId(0), &mut buf, 9) == Ok(Received::Bytes(3))
        && buf == *b"hel"
        && lines.receive(ConnId(0), &mut buf, 9) == Ok(Received::Bytes(2))
        && buf == *b"lol"
        && lines.receive(ConnId(0), &mut buf, 9) == Ok(Received::HungUp)
        && lines.receive(ConnId(0), &mut buf, 9) == Ok(Received::HungUp)
        && lines.receive(ConnId(2), &mut buf, 9) == Ok(Received::HungUp)
        && lines.receive(ConnId(1), &mut buf, 9) == Ok(Received::NoneYet)
}

fn is_sent(lines: &mut MemLines) -> bool {
    let to_one = lines.send(ConnId(1), b"ab", 9);
    let to_gone = lines.send(ConnId(0), b"cd", 9);
    lines.limit_send(1);
    let limited = lines.send(ConnId(1), b"ef", 9);
    lines.hang_up(ConnId(1));
    lines.hang_up(ConnId(1));
    let behind_end = lines.send(ConnId(1), b"g", 9);
    (to_one, to_gone, limited, behind_end) == (Ok(2), Ok(0), Ok(1), Ok(0))
}

fn are_sent(lines: &MemLines) -> bool {
    let mut wanted = b"abe".iter();
    for sent in lines.sent() {
        if sent.caller != 8 || wanted.next() != Some(&sent.byte) {
            return false;
        }
    }
    lines.sent().len() == 3
}

fn is_listened_on(alloc: Global, lines: &mut MemLines) -> bool {
    let once = lines.listen(alloc, 4000).is_ok();
    let again = lines.listen(alloc, 4000).is_ok();
    lines.unlisten(4000);
    once && again
}

/// Whether those calls are made, and none of them failed.
fn are_made(lines: &mut MemLines) -> bool {
    are_accepted(lines)
        && is_received(lines)
        && is_sent(lines)
        && are_sent(lines)
        && lines.faults() == 0
}

fn are_called(rt: &impl Abort, alloc: Global) -> Option<()> {
    let mut lines = with_two(alloc)?;
    holds(rt, is_listened_on(alloc, &mut lines), "a port");
    holds(rt, are_made(&mut lines), "its connections");
    lines.fail_call(20).ok()
}

#[test]
fn each_call_of_lines_in_memory_is_made(rt: HostRuntime) -> Result<(), Fail> {
    holds(&rt, are_called(&rt, rt.alloc()).is_some(), "memory");
    Ok(())
}

fn is_of_a_port(line: &mut Line) -> bool {
    let portless = line.port().is_none() && line.connection().is_none();
    line.set_port(Some(7));
    portless && line.port() == Some(7) && line.connection().is_none()
}

fn is_dropped(line: &mut Line) -> bool {
    let stood = line.connection() == Some(ConnId(3)) && line.pending() == 12;
    line.drop_connection();
    stood
        && line.connection().is_none()
        && line.pending() == 0
        && line.port() == Some(7)
        && line.take_key().is_none()
}

#[test]
fn each_call_of_a_line_is_made(rt: HostRuntime) -> Result<(), Fail> {
    let mut line = Line::new(rt.alloc())?;
    holds(&rt, is_of_a_port(&mut line), "a port");
    line.set_port(Some(7));
    line.connect(ConnId(3));
    holds(&rt, is_dropped(&mut line), "a connection");
    Ok(())
}
