// Ports in a row on lines in memory: all are listened on, or none is.
use crate::texts::holds;
use host_lines::{Lines, ListenFault, MemLines};
use std::alloc::Global;
use std::process::Abort;
use std::test::Fail;
use telnet_lines::Line;
use terminal_ports::{listen_for, listen_up};

/// The last ports that there are, all of the multiplexer's lines, and none.
fn are_listened_on(alloc: Global, lines: &mut MemLines) -> bool {
    let last = listen_up(alloc, 65535, 1, lines);
    let many = listen_up(alloc, 65472, 64, lines);
    let none = listen_up(alloc, 65536, 0, lines);
    (last, many, none) == (Ok(()), Ok(()), Ok(())) && lines.faults() == 0
}

/// The third call of a row fails: the fourth is not made, so that it is the next one.
fn is_refused(alloc: Global, lines: &mut MemLines) -> bool {
    let refused = listen_up(alloc, 4000, 5, lines);
    let once = lines.faults();
    let next = listen_up(alloc, 4000, 2, lines);
    (refused, once) == (Err(ListenFault::Failed), 1) && (next, lines.faults()) == (Ok(()), 1)
}

/// The 66th to 69th calls, of which the third fails.
fn are_called(rt: &impl Abort, alloc: Global) -> Option<()> {
    let mut lines = MemLines::with_room(alloc, 0).ok()?;
    lines.fail_call(67).ok()?;
    holds(rt, are_listened_on(alloc, &mut lines), "rows");
    holds(rt, is_refused(alloc, &mut lines), "a refused port");
    Some(())
}

#[test]
fn a_row_of_ports_is_listened_on_or_none_is(rt: HostRuntime) -> Result<(), Fail> {
    holds(&rt, are_called(&rt, rt.alloc()).is_some(), "memory");
    Ok(())
}

fn is_listened_for(alloc: Global, line: &mut Line, lines: &mut MemLines) -> bool {
    let refused = listen_for(alloc, line, 4000, lines);
    let without = line.port();
    let done = listen_for(alloc, line, 4001, lines);
    (refused, without) == (Err(ListenFault::Failed), None)
        && (done, line.port()) == (Ok(()), Some(4001))
}

#[test]
fn a_line_has_a_port_that_is_listened_on(rt: HostRuntime) -> Result<(), Fail> {
    let mut lines = MemLines::with_room(rt.alloc(), 0)?;
    lines.fail_call(0)?;
    let mut line = Line::new(rt.alloc())?;
    holds(
        &rt,
        is_listened_for(rt.alloc(), &mut line, &mut lines),
        "its port",
    );
    Ok(())
}
