// Files that are read or written whole, as lines of text: the calls that fail, the file's name and what comes of it, and
// how often openings and calls on it have failed. Bytes stand behind a sign of equality.
use crate::images::{fail_named, left, with_file};
use crate::piecewise::Piecewise;
use crate::texts::{columns_of, equal, file_call, holds, number};
use host_files::{FileCall, FileId, Files, MemFiles, OpenMode};
use std::alloc::Global;
use std::process::Abort;
use whole_files::{FailedCall, LONGEST_FILE, Whole, WholeFault, Written, read_file, write_file};

/// What a reading or a writing of a file is to come to.
#[derive(Clone, Copy)]
struct Row<'a> {
    name: &'a str,
    piece: &'a str,
    answer: &'a str,
    failed: Option<FailedCall>,
    closing: Option<FailedCall>,
    done: u64,
}

/// A failed call on the first file that was opened, or of an opening.
fn call_of(text: &str) -> Option<FailedCall> {
    let call = file_call(text)?;
    Some(FailedCall {
        file: if call == FileCall::Opening {
            None
        } else {
            Some(FileId(0))
        },
        call,
    })
}

fn fault_of(text: &str) -> WholeFault {
    match text {
        "NoFile" => WholeFault::NoFile,
        "TooLong" => WholeFault::TooLong,
        "Failed" => WholeFault::Failed,
        _ => WholeFault::OutOfMemory,
    }
}

fn reading_of(text: &str) -> Row {
    let mut words = text.split_whitespace();
    Row {
        name: words.next().unwrap_or(""),
        piece: "",
        answer: words.next().unwrap_or(""),
        failed: call_of(words.next().unwrap_or("")),
        closing: call_of(words.next().unwrap_or("")),
        done: 0,
    }
}

fn writing_of(text: &str) -> Row {
    let mut words = text.split_whitespace();
    let name = words.next().unwrap_or("");
    let piece = words.next().unwrap_or("");
    Row {
        name,
        piece: piece.strip_prefix('=').unwrap_or(piece),
        answer: words.next().unwrap_or(""),
        failed: call_of(words.next().unwrap_or("")),
        done: number(words.next().unwrap_or("")).unwrap_or(u64::MAX),
        closing: call_of(words.next().unwrap_or("")),
    }
}

/// Reads a file, which comes to what a text says.
fn reads<F: Files>(rt: &impl Abort, alloc: Global, files: &mut F, text: &str) {
    let row = reading_of(text);
    has_read(rt, &read_file(alloc, row.name, files), row, text);
}

fn has_read(rt: &impl Abort, whole: &Whole, row: Row, text: &str) {
    let so = match (&whole.bytes, row.answer.strip_prefix('=')) {
        (Ok(bytes), Some(wanted)) => bytes.as_slice() == wanted.as_bytes(),
        (Err(fault), None) => *fault == fault_of(row.answer),
        _ => false,
    };
    holds(rt, so, text);
    equal(rt, &whole.failed, &row.failed, text);
    equal(rt, &whole.closing, &row.closing, text);
}

/// Writes a file, which comes to what a text says.
fn writes<F: Files>(rt: &impl Abort, alloc: Global, files: &mut F, text: &str) {
    let row = writing_of(text);
    let written = write_file(alloc, row.name, row.piece.as_bytes(), files);
    equal(rt, &written, &written_of(row), text);
}

fn written_of(row: Row) -> Written {
    Written {
        answer: if row.answer == "ok" {
            Ok(())
        } else {
            Err(fault_of(row.answer))
        },
        failed: row.failed,
        done: row.done,
        closing: row.closing,
    }
}

/// How often openings, and calls on the first file, have failed.
fn counts<F: Files>(rt: &impl Abort, files: &F, text: &str) {
    let (openings, faults) = text.split_once(' ').unwrap_or((text, ""));
    equal(rt, &Some(files.open_faults()), &number(openings), text);
    equal(rt, &Some(files.faults(FileId(0))), &number(faults), text);
}

/// Files of 16 bytes, of which one has bytes and one is empty.
fn with_files(alloc: Global, fails: &str) -> Option<MemFiles> {
    let mut files = with_file(alloc, 16, "script", b"hello", fails)?;
    files.add_file("empty", b"").ok()?;
    Some(files)
}

/// Plays a line of readings, if there is memory for it.
fn read_as(rt: &impl Abort, alloc: Global, line: &str) -> Option<()> {
    let row = columns_of(line);
    let mut files = with_files(alloc, row.first)?;
    reads(rt, alloc, &mut files, row.second);
    counts(rt, &files, row.third);
    Some(())
}

fn all_read(rt: &impl Abort, alloc: Global, table: &str) {
    for line in table.lines() {
        holds(rt, read_as(rt, alloc, line).is_some(), line);
    }
}

/// Plays a line of writings, which ends with the bytes of the file then, if there is memory for it.
fn written_as(rt: &impl Abort, alloc: Global, line: &str) -> Option<()> {
    let row = columns_of(line);
    let (name, _) = row.second.split_once(' ').unwrap_or((line, ""));
    let mut files = with_file(alloc, 16, "old", b"0123456789", row.first)?;
    writes(rt, alloc, &mut files, row.second);
    counts(rt, &files, row.third);
    left(rt, &files, name, row.fourth, line);
    Some(())
}

fn all_written(rt: &impl Abort, alloc: Global, table: &str) {
    for line in table.lines() {
        holds(rt, written_as(rt, alloc, line).is_some(), line);
    }
}

const A_FILE_IS_READ_WHOLE: &str = "none | script =hello none none | 0 0
none | empty = none none | 0 0
none | missing NoFile none none | 0 0";

const EACH_FAILING_CALL_IS_TOLD: &str = "0:0 | script Failed Opening none | 1 0
1:0 | script Failed Length none | 0 1
2:0 | script Failed Read none | 0 1
3:0 | script =hello none Closing | 0 1";

const A_CLOSING_THAT_FAILS_BEHIND_A_REFUSAL_IS_TOLD_TOO: &str =
    "1:0 2:0 | script Failed Length Closing | 0 2
2:0 3:0 | script Failed Read Closing | 0 2";

#[test]
fn files_are_read_whole(rt: HostRuntime) {
    all_read(&rt, rt.alloc(), A_FILE_IS_READ_WHOLE);
    all_read(&rt, rt.alloc(), EACH_FAILING_CALL_IS_TOLD);
    all_read(
        &rt,
        rt.alloc(),
        A_CLOSING_THAT_FAILS_BEHIND_A_REFUSAL_IS_TOLD_TOO,
    );
}

/// A file of so many bytes, and calls that fail.
fn with_long(alloc: Global, count: usize, fails: &str) -> Option<MemFiles> {
    let bytes = vec![in alloc; b'x'; count].ok()?;
    let mut files = MemFiles::with_room(alloc, count as u64).ok()?;
    files.add_file("long", bytes.as_slice()).ok()?;
    fail_named(&mut files, fails).ok()?;
    Some(files)
}

fn has_longest<F: Files>(rt: &impl Abort, alloc: Global, files: &mut F) {
    let whole = read_file(alloc, "long", files);
    let length = whole.bytes.as_ref().map(|bytes| bytes.len()).ok();
    equal(rt, &length, &Some(1_048_576), "its length");
}

#[test]
fn a_file_of_1048576_bytes_is_the_longest(rt: HostRuntime) {
    match with_long(rt.alloc(), LONGEST_FILE as usize, "none") {
        Some(mut files) => has_longest(&rt, rt.alloc(), &mut files),
        None => holds(&rt, false, "the memory"),
    }
}

#[test]
fn a_longer_file_is_refused_and_closed(rt: HostRuntime) {
    match with_long(rt.alloc(), 1_048_577, "2:0") {
        Some(mut files) => reads(&rt, rt.alloc(), &mut files, "long TooLong none Closing"),
        None => holds(&rt, false, "the memory"),
    }
}

fn reads_pieces(rt: &impl Abort, alloc: Global, files: &mut Piecewise, text: &str) {
    reads(rt, alloc, files, text);
    equal(rt, &files.mode, &Some(OpenMode::Read), text);
}

/// Reads a file in pieces, which ends so many bytes before the length that it tells.
fn in_pieces(rt: &impl Abort, alloc: Global, fails: &str, lacking: u64, text: &str) {
    match with_files(alloc, fails) {
        Some(files) => {
            let mut files = Piecewise {
                files,
                mode: None,
                lacking,
            };
            reads_pieces(rt, alloc, &mut files, text);
        }
        None => holds(rt, false, text),
    }
}

const LACKING: [u64; 4] = [0, 1, 2, 100];

#[test]
fn a_file_that_is_read_in_pieces_is_read_whole(rt: HostRuntime) {
    for lacking in LACKING.iter() {
        in_pieces(&rt, rt.alloc(), "none", *lacking, "script =hello none none");
    }
}

#[test]
fn a_file_that_fails_behind_a_piece_is_not_read(rt: HostRuntime) {
    in_pieces(&rt, rt.alloc(), "3:0", 0, "script Failed Read none");
}

const A_FILE_IS_MADE_OR_EMPTIED_AND_WRITTEN: &str = "none | old =hello ok none 0 none | 0 0 | hello
none | new =hello ok none 0 none | 0 0 | hello
none | old = ok none 0 none | 0 0 |";

const EACH_FAILING_CALL_OF_A_WRITING_IS_TOLD: &str =
    "0:4 | old =hello Failed Opening 0 none | 1 0 | 0123456789
1:4 | old =hello Failed Write 4 none | 0 1 | hell
2:4 | old =hello ok none 0 Closing | 0 1 | hello";

#[test]
fn files_are_written_whole(rt: HostRuntime) {
    all_written(&rt, rt.alloc(), A_FILE_IS_MADE_OR_EMPTIED_AND_WRITTEN);
    all_written(&rt, rt.alloc(), EACH_FAILING_CALL_OF_A_WRITING_IS_TOLD);
}
