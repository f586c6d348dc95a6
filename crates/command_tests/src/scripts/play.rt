// How a row is played. It says the script with which the session begins (`script`), whether its lines are printed and its first
// failed command ends it (`echo` and `strict`), the words of its name and its arguments (`words`), the files that are there
// (`files`), the input and its read that fails (`input` and `read`), whether it is read behind the script and after a prompt
// (`reads=no` and `prompt=no`), the budget and how many bytes the console takes (`room`); and then what is printed
// (`prints`), how the session finishes and how many reads have failed (`faults`).
ghost use Rattle.std.specs.Prelude.{List, map};
ghost use Rattle.file_traits.specs.State.{Opened};
ghost use Rattle.unit_files.specs.Open.{AllOpen};
ghost use Rattle.command_words.specs.Standard.{IsStandard};
ghost use Rattle.state_transfer.specs.SavedValid.{AreStandard};

use crate::checked::check;
use crate::scripts::row::{Row, bytes, decimal, number, text};
use crate::sessions::opened;
use crate::units::standard_units;
use host_files::{ByteSink, ByteSource, Files, MemFiles, Sink, Source};
use host_lines::MemLines;
use scp_commands::{DoFile, ScriptText, Session};
use scp_script::{Finish, Opening, perform};
use std::alloc::{AllocError, Global};
use std::process::Abort;
use std::test::Fail;
use unit_trait::Unit;

/// Plays each line of a table in a session with the standard units, but comments, which begin with a semicolon.
pub fn all(rt: &impl Abort, alloc: Global, base: &str, table: &str) -> Result<(), Fail> {
    for line in table.lines() {
        if !line.starts_with(';') {
            play(rt, alloc, Row { base, line })?;
        }
    }
    Ok(())
}

fn play(rt: &impl Abort, alloc: Global, row: Row<'_>) -> Result<(), Fail> {
    let units = standard_units(alloc)?;
    with_units(rt, alloc, units, row)
}

fn with_units<U: Unit>(
    rt: &impl Abort,
    alloc: Global,
    units: Vec<U>,
    row: Row<'_>,
) -> Result<(), Fail>
    requires { IsStandard (map U.unit_state units.items) }
{
    let mut session = opened(alloc, units)?;
    with_session(rt, alloc, &mut session, row)
}

fn with_session<U: Unit>(
    rt: &impl Abort,
    alloc: Global,
    session: &mut Session<U>,
    row: Row<'_>,
) -> Result<(), Fail>
    requires open { (opened : List Opened) → AllOpen session.old.machine.slots opened }
    requires standard { AreStandard session.old.machine.units }
{
    let mut files = files_of(rt, alloc, row)?;
    with_files(rt, alloc, session, &mut files, row)
}

/// The files that are there. They stand between &, each as its name, a colon and its bytes.
fn files_of(rt: &impl Abort, alloc: Global, row: Row<'_>) -> Result<MemFiles, Fail> {
    let mut files = MemFiles::with_room(alloc, 4096)?;
    put_all(rt, alloc, &mut files, row)?;
    Ok(files)
}

fn put_all(
    rt: &impl Abort,
    alloc: Global,
    files: &mut MemFiles,
    row: Row<'_>,
) -> Result<(), AllocError> {
    if let Some(text) = text(row, "files") {
        for file in text.split(" & ") {
            put(rt, alloc, files, file)?;
        }
    }
    Ok(())
}

fn put(rt: &impl Abort, alloc: Global, files: &mut MemFiles, file: &str) -> Result<(), AllocError> {
    let (name, text) = file.split_once(':').unwrap_or((file, ""));
    let bytes = bytes(alloc, text)?;
    let added = files.add_file(name, bytes.as_slice());
    check(rt, added.is_ok(), file);
    Ok(())
}

fn bytes_agree(rt: &impl Abort, found: &[u8], wanted: &[u8], line: &str) {
    assert_eq!(rt; found, wanted, "{line}");
}

fn with_files<U: Unit, F: Files>(
    rt: &impl Abort,
    alloc: Global,
    session: &mut Session<U>,
    files: &mut F,
    row: Row<'_>,
) -> Result<(), Fail>
    requires open { AllOpen session.old.machine.slots (F.state files.old).opened }
    requires standard { AreStandard session.old.machine.units }
{
    let room = (number(row, "room", 4096) % 65536) as usize;
    let mut console = ByteSink::with_room(alloc, room)?;
    with_console(rt, alloc, session, files, &mut console, row)?;
    prints(rt, alloc, &console, row)
}

fn prints(rt: &impl Abort, alloc: Global, console: &ByteSink, row: Row<'_>) -> Result<(), Fail> {
    let wanted = bytes(alloc, text(row, "prints").unwrap_or(""))?;
    bytes_agree(rt, console.bytes(), wanted.as_slice(), row.line);
    Ok(())
}

fn with_console<U: Unit, F: Files, S: Sink>(
    rt: &impl Abort,
    alloc: Global,
    session: &mut Session<U>,
    files: &mut F,
    console: &mut S,
    row: Row<'_>,
) -> Result<(), Fail>
    requires open { AllOpen session.old.machine.slots (F.state files.old).opened }
    requires standard { AreStandard session.old.machine.units }
{
    let mut input = input_of(alloc, row)?;
    let finish = finish_of(alloc, session, &mut input, files, console, row)?;
    finishes(rt, finish, &input, row);
    Ok(())
}

fn input_of(alloc: Global, row: Row<'_>) -> Result<ByteSource, AllocError> {
    let lines = bytes(alloc, text(row, "input").unwrap_or(""))?;
    let mut input = ByteSource::new(alloc, lines.as_slice())?;
    if let Some(read) = text(row, "read") {
        input.fail_call(decimal(read))?;
    }
    Ok(input)
}

fn finish_of<U: Unit, C: Source, F: Files, S: Sink>(
    alloc: Global,
    session: &mut Session<U>,
    input: &mut C,
    files: &mut F,
    console: &mut S,
    row: Row<'_>,
) -> Result<Finish, AllocError>
    requires open { AllOpen session.old.machine.slots (F.state files.old).opened }
    requires standard { AreStandard session.old.machine.units }
{
    let opening = opening_of(alloc, row)?;
    performed(alloc, session, &opening, input, files, console)
}

/// How a session finishes over lines on which nothing comes and nothing is sent.
fn performed<U: Unit, C: Source, F: Files, S: Sink>(
    alloc: Global,
    session: &mut Session<U>,
    opening: &Opening,
    input: &mut C,
    files: &mut F,
    console: &mut S,
) -> Result<Finish, AllocError>
    requires open { AllOpen session.old.machine.slots (F.state files.old).opened }
    requires standard { AreStandard session.old.machine.units }
{
    let mut lines = MemLines::with_room(alloc, 0)?;
    Ok(perform(alloc, session, opening, input, files, &mut lines, console))
}

fn opening_of(alloc: Global, row: Row<'_>) -> Result<Opening, AllocError> {
    let script = script_of(alloc, row)?;
    let arguments = words_of(alloc, row)?;
    Ok(Opening {
        script,
        arguments,
        reads: text(row, "reads").is_none(),
        prompt: text(row, "prompt").is_none(),
        budget: number(row, "budget", 99),
    })
}

fn script_of(alloc: Global, row: Row<'_>) -> Result<Option<DoFile>, AllocError> {
    let Some(script) = text(row, "script") else {
        return Ok(None);
    };
    let bytes = bytes(alloc, script)?;
    if bytes.len() > 1 << 20 {
        return Ok(None);
    }
    Ok(Some(DoFile {
        text: ScriptText::new(bytes),
        echo: text(row, "echo").is_some(),
        strict: text(row, "strict").is_some(),
    }))
}

fn words_of(alloc: Global, row: Row<'_>) -> Result<Vec<String>, AllocError> {
    let mut words = Vec::new(alloc);
    for word in text(row, "words").unwrap_or("").split_whitespace() {
        words.push(String::from_str(alloc, word)?)?;
    }
    Ok(words)
}

fn finishes(rt: &impl Abort, finish: Finish, input: &ByteSource, row: Row<'_>) {
    let wanted = finish_named(text(row, "finish").unwrap_or(""));
    check(rt, wanted == Some(finish), row.line);
    check(rt, input.faults() == number(row, "faults", 0), row.line);
}

fn finish_named(word: &str) -> Option<Finish> {
    match word {
        "EndOfInput" => Some(Finish::EndOfInput),
        "Commands" => Some(Finish::Commands),
        "Console" => Some(Finish::Console),
        "Input" => Some(Finish::Input),
        "Exit 0" => Some(Finish::Exit(0)),
        "Exit 3" => Some(Finish::Exit(3)),
        "Exit 7" => Some(Finish::Exit(7)),
        _ => None,
    }
}
