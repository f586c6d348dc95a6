// Rows of tables: a command line, the room of the console that it is done on and its answer, and what it prints, with bars
// between them. A $ stands for a newline.
ghost use Rattle.unit_files.specs.Open.{AllOpen};
ghost use Rattle.state_transfer.specs.SavedValid.{AreStandard};

use crate::answers::is_wanted;
use crate::checked::check;
use host_files::{ByteSink, Files, Sink};
use host_lines::{Lines, MemLines};
use nova_word::read_decimal;
use scp_commands::{CommandFault, Next, Session, execute};
use scp_parser::{Command, read_command};
use std::alloc::{AllocError, Global};
use std::process::Abort;
use unit_trait::Unit;

/// What a command is to come to.
#[derive(Clone, Copy)]
pub struct Row<'a> {
    pub line: &'a str,
    pub room: usize,
    pub answer: &'a str,
    pub text: &'a str,
}

/// Does the line of each row in one session, one behind another.
pub fn all<U: Unit, F: Files>(
    rt: &impl Abort,
    alloc: Global,
    session: &mut Session<U>,
    files: &mut F,
    table: &str,
) -> Result<(), AllocError>
    requires open { AllOpen session.old.machine.slots (F.state files.old).opened }
    requires standard { AreStandard session.old.machine.units }
    ensures open { AllOpen session.new.machine.slots (F.state files.new).opened }
    ensures standard { AreStandard session.new.machine.units }
{
    for row in table.lines() {
        does(rt, alloc, session, files, read(row))?;
    }
    Ok(())
}

fn read(row: &str) -> Row<'_> {
    let (line, others) = row.split_once('|').unwrap_or((row, ""));
    let (answer, text) = others.split_once('|').unwrap_or((others, ""));
    let (room, answer) = answer.split_once(' ').unwrap_or(("", answer));
    Row {
        line,
        room: (read_decimal(room.as_bytes()).unwrap_or(0) % 65536) as usize,
        answer,
        text,
    }
}

/// Does the line of a row.
pub fn does<U: Unit, F: Files>(
    rt: &impl Abort,
    alloc: Global,
    session: &mut Session<U>,
    files: &mut F,
    row: Row,
) -> Result<(), AllocError>
    requires open { AllOpen session.old.machine.slots (F.state files.old).opened }
    requires standard { AreStandard session.old.machine.units }
    ensures open { AllOpen session.new.machine.slots (F.state files.new).opened }
    ensures standard { AreStandard session.new.machine.units }
{
    let mut command = Command::new();
    reads(rt, &mut command, row.line);
    let mut lines = lines_of(alloc, row)?;
    answers(rt, alloc, session, &command, files, &mut lines, row)
}

/// Lines on which nothing comes and nothing is sent, and whose first call fails where the answer is to say so.
fn lines_of(alloc: Global, row: Row) -> Result<MemLines, AllocError> {
    let mut lines = MemLines::with_room(alloc, 0)?;
    if row.answer == "PortFailed" {
        lines.fail_call(0)?;
    }
    Ok(lines)
}

fn reads(rt: &impl Abort, command: &mut Command, line: &str) {
    check(rt, read_command(line.as_bytes(), command).is_ok(), line);
}

fn answers<U: Unit, F: Files, L: Lines>(
    rt: &impl Abort,
    alloc: Global,
    session: &mut Session<U>,
    command: &Command,
    files: &mut F,
    lines: &mut L,
    row: Row,
) -> Result<(), AllocError>
    requires open { AllOpen session.old.machine.slots (F.state files.old).opened }
    requires standard { AreStandard session.old.machine.units }
    ensures open { AllOpen session.new.machine.slots (F.state files.new).opened }
    ensures standard { AreStandard session.new.machine.units }
{
    let mut out = ByteSink::with_room(alloc, row.room)?;
    let answer = execute(alloc, session, command, files, lines, &mut out);
    answered(rt, &answer, row);
    printed(rt, &out, row);
    Ok(())
}

fn answered(rt: &impl Abort, answer: &Result<Next, CommandFault>, row: Row) {
    check(rt, is_wanted(answer, row.answer), row.line);
}

/// The console took that text, and refused a byte where the answer says so.
fn printed(rt: &impl Abort, out: &ByteSink, row: Row) {
    check(
        rt,
        out.faults() == u64::from(row.answer == "Console"),
        row.line,
    );
    check(rt, is_text(out.bytes(), row.text.as_bytes()), row.line);
}

/// Whether these bytes are that text.
fn is_text(bytes: &[u8], text: &[u8]) -> bool {
    if bytes.len() != text.len() {
        return false;
    }
    for (byte, wanted) in bytes.iter().zip(text.iter()) {
        let wanted = if *wanted == b'$' { b'\n' } else { *wanted };
        if *byte != wanted {
            return false;
        }
    }
    true
}
