// How a row is played. It says the words, which files are there before (`before`), how many bytes each may have
// (`space`), which call on them fails and how many bytes that writes (`fails`), which read of the input fails (`read`), how many bytes the console takes
// (`room`), and the input (`lines` and `more`), what a caller types (`types`) and which call on terminal lines fails
// (`refuses`); and then what is printed (`prints` and `then`, as far as there is room), the status, the note of the
// failed call (`note`), what is left of the input (`left`), files behind it (`after`), words of memory (`cells`),
// that there is no machine (`machine=none`), what the caller was sent behind the opening, where it was accepted
// (`sent`), how many calls on lines have failed (`lost`), how many ports are still listened on (`ports`) and how often a
// connection was hung up on, where it is not once for a caller that was accepted (`hangs`).
ghost use Rattle.std.specs.Prelude.{map};
ghost use Rattle.command_words.specs.Standard.{IsStandard};

use crate::callers::{lines_of, lines_stand};
use crate::checked::holds;
use crate::row::{Row, add, bytes, decimal, number, text};
use crate::units::{all_units, standard_units};
use file_commands::{FaultNote, Subject};
use host_files::{ByteSink, ByteSource, FileCall, Files, MemFiles, Sink, Source, next_byte};
use host_lines::Lines;
use nova_machine::Machine;
use nova_top::{Ending, simulate};
use nova_word::{Addr, Word, read_octal};
use std::alloc::{AllocError, Global};
use std::process::Abort;
use std::test::Fail;
use unit_trait::{Kind, Unit, UnitName};

/// Plays each line of a table with the standard units, but comments, which begin with a semicolon.
pub fn all(rt: &impl Abort, alloc: Global, base: &str, table: &str) -> Result<(), Fail> {
    for line in table.lines() {
        if !line.starts_with(';') {
            play(rt, alloc, Row { base, line })?;
        }
    }
    Ok(())
}

fn play(rt: &impl Abort, alloc: Global, row: Row<'_>) -> Result<(), AllocError> {
    let units = standard_units(alloc)?;
    with_units(rt, alloc, units, row)
}

/// The same with the multiplexer behind these units.
pub fn all_over_lines(rt: &impl Abort, alloc: Global, base: &str, table: &str) -> Result<(), Fail> {
    for line in table.lines() {
        if !line.starts_with(';') {
            play_over_lines(rt, alloc, Row { base, line })?;
        }
    }
    Ok(())
}

fn play_over_lines(rt: &impl Abort, alloc: Global, row: Row<'_>) -> Result<(), AllocError> {
    let units = all_units(alloc)?;
    with_units(rt, alloc, units, row)
}

/// Plays a row with these units.
pub fn with_units<U: Unit>(
    rt: &impl Abort,
    alloc: Global,
    units: Vec<U>,
    row: Row<'_>,
) -> Result<(), AllocError>
    requires { IsStandard (map U.unit_state units.items) }
{
    let mut lines = lines_of(alloc, row)?;
    with_lines(rt, alloc, units, &mut lines, row)?;
    lines_stand(rt, &mut lines, row);
    Ok(())
}

fn with_lines<U: Unit, L: Lines>(
    rt: &impl Abort,
    alloc: Global,
    units: Vec<U>,
    lines: &mut L,
    row: Row<'_>,
) -> Result<(), AllocError>
    requires { IsStandard (map U.unit_state units.items) }
{
    let mut files = files_of(rt, alloc, row)?;
    with_files(rt, alloc, units, lines, &mut files, row)?;
    files_stand(rt, alloc, &files, row)
}

/// Plays a row with these units over files that are there.
pub fn with_files<U: Unit, L: Lines, F: Files>(
    rt: &impl Abort,
    alloc: Global,
    units: Vec<U>,
    lines: &mut L,
    files: &mut F,
    row: Row<'_>,
) -> Result<(), AllocError>
    requires { IsStandard (map U.unit_state units.items) }
{
    let mut console = ByteSink::with_room(alloc, room(row))?;
    with_console(rt, alloc, units, lines, files, &mut console, row)?;
    prints(rt, alloc, &console, row)
}

fn with_console<U: Unit, L: Lines, F: Files, S: Sink>(
    rt: &impl Abort,
    alloc: Global,
    units: Vec<U>,
    lines: &mut L,
    files: &mut F,
    console: &mut S,
    row: Row<'_>,
) -> Result<(), AllocError>
    requires { IsStandard (map U.unit_state units.items) }
{
    let mut input = input_of(alloc, row)?;
    with_input(rt, alloc, units, lines, files, console, &mut input, row)?;
    is_left(rt, alloc, &mut input, row)
}

fn with_input<U: Unit, L: Lines, F: Files, S: Sink, C: Source>(
    rt: &impl Abort,
    alloc: Global,
    units: Vec<U>,
    lines: &mut L,
    files: &mut F,
    console: &mut S,
    input: &mut C,
    row: Row<'_>,
) -> Result<(), AllocError>
    requires { IsStandard (map U.unit_state units.items) }
{
    let words = words_of(alloc, row)?;
    with_words(
        rt,
        alloc,
        words.as_slice(),
        units,
        lines,
        files,
        console,
        input,
        row,
    );
    Ok(())
}

fn with_words<U: Unit, L: Lines, F: Files, S: Sink, C: Source>(
    rt: &impl Abort,
    alloc: Global,
    words: &[String],
    units: Vec<U>,
    lines: &mut L,
    files: &mut F,
    console: &mut S,
    input: &mut C,
    row: Row<'_>,
)
    requires { IsStandard (map U.unit_state units.items) }
{
    let ending = simulate(alloc, words, units, input, console, files, lines);
    ends(rt, &ending, row);
}

/// The words of a row, of which each blank parts two. A ␣ is a blank in a word, and a ∅ a word without letters.
fn words_of(alloc: Global, row: Row<'_>) -> Result<Vec<String>, AllocError> {
    let mut words = Vec::new(alloc);
    if let Some(text) = text(row, "words") {
        for word in text.split(' ') {
            words.push(word_of(alloc, word)?)?;
        }
    }
    Ok(words)
}

fn word_of(alloc: Global, text: &str) -> Result<String, AllocError> {
    let mut word = String::new(alloc);
    for letter in text.chars() {
        match letter {
            '∅' => (),
            '␣' => word.push(' ')?,
            _ => word.push(letter)?,
        }
    }
    Ok(word)
}

fn input_of(alloc: Global, row: Row<'_>) -> Result<ByteSource, AllocError> {
    let lines = bytes(alloc, row, "lines", "more")?;
    let mut input = ByteSource::new(alloc, lines.as_slice())?;
    if let Some(read) = text(row, "read") {
        input.fail_call(decimal(read))?;
    }
    Ok(input)
}

/// The files that are there before. Those of a row stand between &, each as its name, a colon and its bytes.
pub fn files_of(rt: &impl Abort, alloc: Global, row: Row<'_>) -> Result<MemFiles, AllocError> {
    let mut files = MemFiles::with_room(alloc, number(row, "space", 2048))?;
    put_all(rt, alloc, &mut files, row)?;
    fail(&mut files, row)?;
    Ok(files)
}

fn put_all(
    rt: &impl Abort,
    alloc: Global,
    files: &mut MemFiles,
    row: Row<'_>,
) -> Result<(), AllocError> {
    if let Some(text) = text(row, "before") {
        for file in text.split(" & ") {
            put(rt, alloc, files, file)?;
        }
    }
    Ok(())
}

fn fail(files: &mut MemFiles, row: Row<'_>) -> Result<(), AllocError> {
    if let Some(text) = text(row, "fails") {
        let (call, done) = text.split_once(' ').unwrap_or((text, "0"));
        files.fail_call(decimal(call), (decimal(done) % 65536) as usize)?;
    }
    Ok(())
}

fn put(rt: &impl Abort, alloc: Global, files: &mut MemFiles, file: &str) -> Result<(), AllocError> {
    let (name, text) = file.split_once(':').unwrap_or((file, ""));
    let mut bytes = Vec::new(alloc);
    add(&mut bytes, text)?;
    let added = files.add_file(name, bytes.as_slice());
    holds(rt, added.is_ok(), file);
    Ok(())
}

/// Files are as the row says: with these bytes, or not there where it has no colon.
pub fn files_stand(
    rt: &impl Abort,
    alloc: Global,
    files: &MemFiles,
    row: Row<'_>,
) -> Result<(), AllocError> {
    if let Some(text) = text(row, "after") {
        for file in text.split(" & ") {
            match file.split_once(':') {
                Some((name, text)) => has(rt, alloc, files, name, text, row)?,
                None => holds(rt, files.file_bytes(file).is_none(), row.line),
            }
        }
    }
    Ok(())
}

fn has(
    rt: &impl Abort,
    alloc: Global,
    files: &MemFiles,
    name: &str,
    text: &str,
    row: Row<'_>,
) -> Result<(), AllocError> {
    let mut bytes = Vec::new(alloc);
    add(&mut bytes, text)?;
    match files.file_bytes(name) {
        Some(found) => holds(rt, found == bytes.as_slice(), row.line),
        None => holds(rt, false, row.line),
    }
    Ok(())
}

fn room(row: Row<'_>) -> usize {
    (number(row, "room", 4096) % 65536) as usize
}

/// The console has what is to be printed, or the first part of it for which there was room.
fn prints(
    rt: &impl Abort,
    alloc: Global,
    console: &ByteSink,
    row: Row<'_>,
) -> Result<(), AllocError> {
    let mut wanted = bytes(alloc, row, "prints", "then")?;
    wanted.truncate(room(row));
    holds(rt, console.bytes() == wanted.as_slice(), row.line);
    Ok(())
}

/// What is left of the input: all of it where the words or their files were refused.
fn is_left<C: Source>(
    rt: &impl Abort,
    alloc: Global,
    input: &mut C,
    row: Row<'_>,
) -> Result<(), AllocError> {
    if is_refused(row) {
        rests(rt, alloc, input, row, "lines", "more")
    } else if text(row, "left").is_some() {
        rests(rt, alloc, input, row, "left", "")
    } else {
        Ok(())
    }
}

/// The rest of the input is in these fields.
fn rests<C: Source>(
    rt: &impl Abort,
    alloc: Global,
    input: &mut C,
    row: Row<'_>,
    first: &str,
    second: &str,
) -> Result<(), AllocError> {
    let wanted = bytes(alloc, row, first, second)?;
    holds(rt, gives(input, wanted.as_slice()), row.line);
    Ok(())
}

/// Whether an input gives these bytes and then is at its end.
fn gives<C: Source>(input: &mut C, wanted: &[u8]) -> bool {
    for byte in wanted.iter() {
        if next_byte(input) != Ok(Some(*byte)) {
            return false;
        }
    }
    next_byte(input) == Ok(None)
}

/// Whether the session does not begin, since the words or their files are refused.
fn is_refused(row: Row<'_>) -> bool {
    matches!(number(row, "status", 0), 100 | 101 | 105)
}

fn ends<U: Unit>(rt: &impl Abort, ending: &Ending<U>, row: Row<'_>) {
    holds(
        rt,
        u64::from(ending.status) == number(row, "status", 0),
        row.line,
    );
    let is_none = is_refused(row) || text(row, "machine").is_some();
    holds(rt, ending.machine.is_none() == is_none, row.line);
    if let Some(machine) = &ending.machine {
        cells_stand(rt, machine, row);
    }
    are_noted(rt, ending.faults.as_slice(), row);
}

/// Words of memory, each with its address, a colon and its value in octal.
fn cells_stand<U: Unit>(rt: &impl Abort, machine: &Machine<U>, row: Row<'_>) {
    for cell in text(row, "cells").unwrap_or("").split_whitespace() {
        let (at, value) = cell.split_once(':').unwrap_or((cell, ""));
        let word = machine.memory().read(Addr::of_word(Word(octal(at))));
        holds(rt, word.0 == octal(value), cell);
    }
}

fn octal(digits: &str) -> u16 {
    (read_octal(digits.as_bytes()).unwrap_or(0) % 65536) as u16
}

/// The notes are that of the row, or none.
fn are_noted(rt: &impl Abort, faults: &[FaultNote], row: Row<'_>) {
    match text(row, "note") {
        Some(text) => {
            holds(rt, faults.len() == 1, row.line);
            for fault in faults {
                is_noted(rt, *fault, text);
            }
        }
        None => holds(rt, faults.is_empty(), row.line),
    }
}

/// A note is this one: its command, its time, its call, how many bytes that wrote, and perhaps for whom it was made.
fn is_noted(rt: &impl Abort, fault: FaultNote, text: &str) {
    let mut words = text.split_whitespace();
    holds(
        rt,
        fault.command == decimal(words.next().unwrap_or("")),
        text,
    );
    holds(rt, fault.time == decimal(words.next().unwrap_or("")), text);
    let call = call_of(words.next().unwrap_or(""));
    holds(rt, call == Some(fault.call), text);
    holds(rt, fault.done == decimal(words.next().unwrap_or("")), text);
    if let Some(word) = words.next() {
        holds(rt, subject_of(word) == Some(fault.subject), text);
    }
}

fn call_of(word: &str) -> Option<FileCall> {
    match word {
        "Opening" => Some(FileCall::Opening),
        "Length" => Some(FileCall::Length),
        "Read" => Some(FileCall::Read),
        "Write" => Some(FileCall::Write),
        "SetLength" => Some(FileCall::SetLength),
        "Closing" => Some(FileCall::Closing),
        _ => None,
    }
}

fn subject_of(word: &str) -> Option<Subject> {
    match word {
        "MTA0" => Some(unit_of(Kind::Mta, 0)),
        "MTA7" => Some(unit_of(Kind::Mta, 7)),
        "LPT" => Some(unit_of(Kind::Lpt, 0)),
        "PTR" => Some(unit_of(Kind::Ptr, 0)),
        "State" => Some(Subject::State),
        _ => None,
    }
}

fn unit_of(kind: Kind, unit: u8) -> Subject {
    Subject::Unit(UnitName { kind, unit })
}
