// Files in memory: what is called on them, and what they have then.
ghost use Rattle.file_traits.specs.State.{IsOpen, IsWritable};

use crate::images::with_file;
use crate::texts::{equal, holds};
use crate::units::all_left;
use host_files::{AddFault, Failed, FileId, Files, MemFiles, OpenFault, OpenMode, WriteFault};
use std::alloc::Global;
use std::process::Abort;

/// What is done with the files.
#[derive(Clone, Copy)]
enum Deed {
    Read,
    Write,
    WriteAndCut,
    Make,
    FailToWrite,
    FailToOpenAndClose,
}

/// Files of 16 bytes, one of which is there and was put in twice.
fn with_tape(alloc: Global, fails: &str) -> Option<MemFiles> {
    let mut files = with_file(alloc, 16, "tape", b"old", fails)?;
    files.add_file("tape", b"hello").ok()?;
    Some(files)
}

fn refuse_more(rt: &impl Abort, files: &mut MemFiles) {
    let refused = files.add_file("tape", b"more than the room");
    equal(rt, &refused, &Err(AddFault::TooLong), "more than the room");
}

/// Does that with such files, where calls fail. They are then as the words say.
fn plays(rt: &impl Abort, alloc: Global, fails: &str, deed: Deed, wanted: &str) {
    match with_tape(alloc, fails) {
        Some(mut files) => {
            refuse_more(rt, &mut files);
            does(rt, alloc, &mut files, deed);
            all_left(rt, &files, wanted);
        }
        None => holds(rt, false, wanted),
    }
}

fn does<F: Files>(rt: &impl Abort, alloc: Global, files: &mut F, deed: Deed) {
    match deed {
        Deed::Read => opens_and_reads(rt, alloc, files),
        Deed::Write => opens_and_changes(rt, alloc, files, false),
        Deed::WriteAndCut => {
            opens_and_changes(rt, alloc, files, false);
            opens_and_changes(rt, alloc, files, true);
        }
        Deed::Make => makes_and_closes(rt, alloc, files),
        Deed::FailToWrite => opens_and_fails(rt, alloc, files),
        Deed::FailToOpenAndClose => {
            fails_to_open(rt, alloc, files);
            opens_and_fails_to_close(rt, alloc, files);
        }
    }
}

fn reads<F: Files>(rt: &impl Abort, files: &mut F, tape: FileId)
    requires { IsOpen (F.state files.old) tape.0 }
{
    let mut buf = [0; 4];
    equal(rt, &files.length(tape), &Ok(5), "the length");
    equal(rt, &files.read_at(tape, 4, &mut buf), &Ok(1), "at 4");
    equal(rt, &files.read_at(tape, 1, &mut buf), &Ok(4), "at 1");
    holds(rt, buf == *b"ello", "the bytes from 1 on");
}

fn opens_and_reads<F: Files>(rt: &impl Abort, alloc: Global, files: &mut F) {
    match files.open_file(alloc, "tape", OpenMode::Read) {
        Ok(tape) => reads(rt, files, tape),
        Err(_) => holds(rt, false, "the opening"),
    }
    let missing = files.open_file(alloc, "none", OpenMode::Update);
    equal(
        rt,
        &missing,
        &Err(OpenFault::NoFile),
        "a file that is not there",
    );
}

/// Writes behind a gap, and cuts the file where that is said.
fn changes<F: Files>(rt: &impl Abort, files: &mut F, tape: FileId, cut: bool)
    requires open { IsOpen (F.state files.old) tape.0 }
    requires writable { IsWritable (F.state files.old) tape.0 }
{
    equal(rt, &files.write_at(tape, 7, b"!"), &Ok(()), "the write");
    if cut {
        equal(rt, &files.set_length(tape, 2), &Ok(()), "the cut");
    }
}

fn opens_and_changes<F: Files>(rt: &impl Abort, alloc: Global, files: &mut F, cut: bool) {
    match files.open_file(alloc, "tape", OpenMode::Update) {
        Ok(tape) => changes(rt, files, tape, cut),
        Err(_) => holds(rt, false, "the opening"),
    }
}

fn makes_and_closes<F: Files>(rt: &impl Abort, alloc: Global, files: &mut F) {
    let emptied = files.open_file(alloc, "tape", OpenMode::Create);
    equal(rt, &emptied, &Ok(FileId(0)), "the first opening");
    match files.open_file(alloc, "new", OpenMode::Create) {
        Ok(file) => {
            equal(rt, &file, &FileId(1), "the second opening");
            equal(rt, &files.close_file(file), &Ok(()), "the closing");
        }
        Err(_) => holds(rt, false, "the second opening"),
    }
    equal(
        rt,
        &files.faults(FileId(7)),
        &0,
        "an id that was never given",
    );
}

/// A write that fails as it was named, and one that finds no room.
fn writes_fail<F: Files>(rt: &impl Abort, files: &mut F, tape: FileId)
    requires open { IsOpen (F.state files.old) tape.0 }
    requires writable { IsWritable (F.state files.old) tape.0 }
{
    let named = files.write_at(tape, 0, b"abc");
    equal(rt, &named, &Err(WriteFault { done: 2 }), "the named write");
    let long = files.write_at(tape, 15, b"??");
    equal(rt, &long, &Err(WriteFault { done: 0 }), "past the room");
    equal(rt, &files.faults(tape), &2, "the faults");
}

fn opens_and_fails<F: Files>(rt: &impl Abort, alloc: Global, files: &mut F) {
    match files.open_file(alloc, "tape", OpenMode::Update) {
        Ok(tape) => writes_fail(rt, files, tape),
        Err(_) => holds(rt, false, "the opening"),
    }
}

fn fails_to_open<F: Files>(rt: &impl Abort, alloc: Global, files: &mut F) {
    let refused = files.open_file(alloc, "tape", OpenMode::Create);
    equal(rt, &refused, &Err(OpenFault::Failed), "the opening");
    equal(rt, &files.open_faults(), &1, "the faults of openings");
}

fn opens_and_fails_to_close<F: Files>(rt: &impl Abort, alloc: Global, files: &mut F) {
    match files.open_file(alloc, "tape", OpenMode::Read) {
        Ok(tape) => {
            equal(rt, &files.close_file(tape), &Err(Failed), "the closing");
            equal(rt, &files.faults(tape), &1, "the faults");
        }
        Err(_) => holds(rt, false, "the second opening"),
    }
}

#[test]
fn files_are_opened_and_closed(rt: HostRuntime) {
    plays(&rt, rt.alloc(), "none", Deed::Read, "tape=hello none=none");
    plays(&rt, rt.alloc(), "none", Deed::Write, "tape=hello..!");
    plays(&rt, rt.alloc(), "none", Deed::WriteAndCut, "tape=he");
    plays(&rt, rt.alloc(), "none", Deed::Make, "tape= new=");
    plays(&rt, rt.alloc(), "1:2", Deed::FailToWrite, "tape=abllo");
    plays(
        &rt,
        rt.alloc(),
        "0:0 2:0",
        Deed::FailToOpenAndClose,
        "tape=hello",
    );
}
