// The lines of rows: one caller, and line 0 of the machine or its console line.
ghost use Rattle.std.specs.Prelude.{◌≡◌};

use crate::row::{Row, byte_of, bytes, check, decimal, field, small, text};
use host_lines::{Lines, MemLines};
use nova_machine::Machine;
use std::alloc::{AllocError, Global};
use std::process::Abort;
use telnet_lines::Line;
use unit_trait::Unit;

/// What is sent first on a connection.
const OPENING: [u8; 12] = [255, 251, 1, 255, 251, 3, 255, 251, 0, 255, 253, 0];

/// The port of line 0, or of the console line.
const PORT: u16 = 4000;

/// Lines on which nothing comes and nothing is sent.
pub fn no_lines(alloc: Global) -> Result<MemLines, AllocError> {
    MemLines::with_room(alloc, 0)
}

/// The lines of a row, with its caller, and those calls on them that fail.
pub fn lines_of(alloc: Global, row: Row<'_>) -> Result<MemLines, AllocError> {
    let mut lines = MemLines::with_room(alloc, small(text(row, "takes")))?;
    if let Some(typed) = field(row, "types") {
        calls(alloc, &mut lines, typed, field(row, "hangs"))?;
    }
    for number in text(row, "refuses").split_whitespace() {
        lines.fail_call(decimal(number))?;
    }
    Ok(lines)
}

/// Caller 1 connects at time 0, types that, and hangs up where a time is said for it.
fn calls(
    alloc: Global,
    lines: &mut MemLines,
    typed: &str,
    hangs: Option<&str>,
) -> Result<(), AllocError>
    requires last { lines.old.last ≡ 0 }
    requires connects { lines.old.connects ≡ 0 }
{
    let typed = bytes(alloc, typed)?;
    lines.add_connect(0, PORT, 1)?;
    lines.add_bytes(0, 1, typed.as_slice())?;
    match hangs {
        Some(time) => lines.add_hang_up(decimal(time), 1),
        None => Ok(()),
    }
}

/// Listens on a port, and line 0 or the console line gets it, where the row says so.
pub fn gives_port<U: Unit>(
    rt: &impl Abort,
    alloc: Global,
    machine: &mut Machine<U>,
    lines: &mut MemLines,
    row: Row<'_>,
)
    ensures { machine.new.slots ≡ machine.old.slots }
{
    if text(row, "port") == "given" {
        let listens = lines.listen(alloc, PORT).is_ok();
        check(rt, listens && takes_port(machine), row.line);
    } else if text(row, "port") == "console" {
        check(rt, lines.listen(alloc, PORT).is_ok(), row.line);
        machine.console().set_port(Some(PORT));
    }
}

/// Whether line 0 is there, and has that port then.
fn takes_port<U: Unit>(machine: &mut Machine<U>) -> bool
    ensures { machine.new.slots ≡ machine.old.slots }
{
    match machine.line(0) {
        Some(line) => {
            line.set_port(Some(PORT));
            true
        }
        None => false,
    }
}

/// What was sent, how many calls have failed, and how line 0 and the console line are.
pub fn lines_stand<U: Unit>(
    rt: &impl Abort,
    machine: &mut Machine<U>,
    lines: &MemLines,
    row: Row<'_>,
) {
    check(rt, are_sent(lines, field(row, "sent")), row.line);
    check(rt, have_failed(lines, field(row, "lost")), row.line);
    check(rt, line_is(machine, field(row, "line")), row.line);
    check(rt, console_is(machine, field(row, "console")), row.line);
}

fn are_sent(lines: &MemLines, wanted: Option<&str>) -> bool {
    match wanted {
        Some("nothing") => lines.sent().is_empty(),
        Some(text) => is_opened(lines) && is_heard(lines, text),
        None => true,
    }
}

/// Whether caller 1 was sent the opening first.
fn is_opened(lines: &MemLines) -> bool {
    for (sent, byte) in lines.sent().iter().zip(OPENING.iter()) {
        if sent.caller != 1 || sent.byte != *byte {
            return false;
        }
    }
    lines.sent().len() >= OPENING.len()
}

/// Whether caller 1 was sent those bytes behind the opening, and nothing else was sent.
fn is_heard(lines: &MemLines, text: &str) -> bool {
    let heard = lines.sent().iter().skip(OPENING.len());
    for (sent, letter) in heard.zip(text.chars()) {
        if sent.caller != 1 || sent.byte != byte_of(letter) {
            return false;
        }
    }
    lines.sent().len() == OPENING.len() + text.chars().count()
}

fn have_failed(lines: &MemLines, wanted: Option<&str>) -> bool {
    match wanted {
        Some(count) => lines.faults() == decimal(count),
        None => true,
    }
}

/// Whether line 0 is not there, has no connection, or has that one.
fn line_is<U: Unit>(machine: &mut Machine<U>, wanted: Option<&str>) -> bool {
    match (machine.line(0), wanted) {
        (_, None) => true,
        (None, Some(wanted)) => wanted == "none",
        (Some(line), Some(wanted)) => line_has(line, wanted),
    }
}

/// Whether the console line has no connection, or that one.
fn console_is<U: Unit>(machine: &Machine<U>, wanted: Option<&str>) -> bool {
    match wanted {
        None => true,
        Some(wanted) => line_has(machine.console_at(), wanted),
    }
}

fn line_has(line: &Line, wanted: &str) -> bool {
    match line.connection() {
        Some(id) => u64::from(id.0) == decimal(wanted),
        None => wanted == "free",
    }
}
