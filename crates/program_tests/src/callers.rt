// The terminal lines of rows, and the caller of one: it connects at time 0, types at 50, and hangs up at 300.
ghost use Rattle.std.specs.Prelude.{◌≡◌};

use crate::checked::holds;
use crate::counted_ports::CountedPorts;
use crate::row::{Row, add, decimal, number, text};
use host_lines::{Lines, MemLines, Sent};
use std::alloc::{AllocError, Global};
use std::process::Abort;

/// The port to which the caller connects.
const PORT: u16 = 4000;

/// What is sent first on a connection.
const OPENING: [u8; 12] = [255, 251, 1, 255, 251, 3, 255, 251, 0, 255, 253, 0];

/// The lines of a row, with its caller, if it says what one types, and the calls on them that fail.
pub fn lines_of(alloc: Global, row: Row<'_>) -> Result<CountedPorts<MemLines>, AllocError> {
    let mut lines = MemLines::with_room(alloc, 64)?;
    if let Some(typed) = text(row, "types") {
        calls(alloc, &mut lines, typed)?;
    }
    if let Some(call) = text(row, "refuses") {
        lines.fail_call(decimal(call))?;
    }
    Ok(CountedPorts::new(lines))
}

fn calls(alloc: Global, lines: &mut MemLines, typed: &str) -> Result<(), AllocError>
    requires last { lines.old.last ≡ 0 }
    requires connects { lines.old.connects ≡ 0 }
{
    let mut bytes = Vec::new(alloc);
    add(&mut bytes, typed)?;
    lines.add_connect(0, PORT, 1)?;
    lines.add_bytes(50, 1, bytes.as_slice())?;
    lines.add_hang_up(300, 1)
}

/// As many ports are listened on and as many calls have failed as the row says, or none. The caller of the row, if
/// there is one, was sent the opening and what the row says, or still waits to be accepted. One that was accepted was
/// hung up on once, and nobody else was, if the row says nothing else.
pub fn lines_stand(rt: &impl Abort, lines: &mut CountedPorts<MemLines>, row: Row<'_>) {
    holds(rt, lines.ports == number(row, "ports", 0), row.line);
    holds(
        rt,
        lines.hang_ups == number(row, "hangs", accepted(row)),
        row.line,
    );
    let lines = &mut lines.lines;
    holds(rt, lines.faults() == number(row, "lost", 0), row.line);
    holds(rt, are_sent(lines.sent(), text(row, "sent")), row.line);
    let waits = matches!(lines.accept(PORT, 300), Ok(Some(_)));
    let is_to_wait = text(row, "types").is_some() && text(row, "sent").is_none();
    holds(rt, waits == is_to_wait, row.line);
}

/// How many callers of a row are accepted.
fn accepted(row: Row<'_>) -> u64 {
    u64::from(text(row, "sent").is_some())
}

fn are_sent(sent: &[Sent], wanted: Option<&str>) -> bool {
    match wanted {
        Some(text) => is_opened(sent) && is_heard(sent, text),
        None => sent.is_empty(),
    }
}

/// Whether caller 1 was sent the opening first.
fn is_opened(sent: &[Sent]) -> bool {
    for (sent, byte) in sent.iter().zip(OPENING.iter()) {
        if sent.caller != 1 || sent.byte != *byte {
            return false;
        }
    }
    sent.len() >= OPENING.len()
}

/// Whether caller 1 was sent that text behind the opening, and nothing else was sent.
fn is_heard(sent: &[Sent], text: &str) -> bool {
    for (sent, letter) in sent.iter().skip(OPENING.len()).zip(text.chars()) {
        if sent.caller != 1 || u32::from(sent.byte) != u32::from(letter) {
            return false;
        }
    }
    sent.len() == OPENING.len() + text.chars().count()
}
