// The notes that are kept of failed calls on the files of units, as lines of text: the calls that fail, the commands,
// which are numbered from 1 on, with their answers, and the notes. A note has the number of its command, the unit, the
// file, if it was open, and the call.
ghost use Rattle.std.specs.Prelude.{◌+◌, ◌≤◌, vec_len, vec_capacity};
ghost use Rattle.unit_files.specs.Open.{AllOpen};

use crate::images::with_file;
use crate::texts::{Call, call_of, columns_of, file_call, holds, number};
use crate::units::{detach_answer, file_of, mode_of, unit_of};
use file_commands::{
    FaultNote, NOTES_OF_A_COMMAND, Stamp, Subject, attach_unit, detach_all, detach_unit, keep,
    take_room,
};
use host_files::{FileCall, FileId, Files};
use std::alloc::{AllocError, Global};
use std::process::Abort;
use std::test::Fail;
use unit_files::Attached;
use unit_trait::{Kind, UnitName};

/// The commands of a line.
fn plays<F: Files>(
    rt: &impl Abort,
    alloc: Global,
    attached: &mut Attached,
    files: &mut F,
    notes: &mut Vec<FaultNote>,
    calls: &str,
) -> Result<(), AllocError>
    requires { AllOpen attached.old.slots (F.state files.old).opened }
{
    for (command, word) in (1..100u64).zip(calls.split_whitespace()) {
        take_room(notes)?;
        let so = does(alloc, attached, files, notes, command, call_of(word));
        holds(rt, so, word);
    }
    Ok(())
}

/// Does a command, and answers whether it comes to what it should.
fn does<F: Files>(
    alloc: Global,
    attached: &mut Attached,
    files: &mut F,
    notes: &mut Vec<FaultNote>,
    command: u64,
    call: Call,
) -> bool
    requires open { AllOpen attached.old.slots (F.state files.old).opened }
    requires room { vec_len notes.old + 16 ≤ vec_capacity notes.old }
    ensures { AllOpen attached.new.slots (F.state files.new).opened }
{
    let stamp = Stamp { command, time: 7 };
    let unit = unit_of(call.first);
    match call.verb {
        "attach" => attaches(alloc, attached, files, notes, stamp, call),
        "detach" => {
            let answer = detach_unit(attached, unit, files, notes, stamp);
            answer == detach_answer(unit, call.answer)
        }
        "all" => detach_all(attached, files, notes, stamp).is_ok(),
        _ => attached.name_of(unit).is_none(),
    }
}

/// Attaches a file, whatever the answer is.
fn attaches<F: Files>(
    alloc: Global,
    attached: &mut Attached,
    files: &mut F,
    notes: &mut Vec<FaultNote>,
    stamp: Stamp,
    call: Call,
) -> bool
    requires open { AllOpen attached.old.slots (F.state files.old).opened }
    requires room { vec_len notes.old + 16 ≤ vec_capacity notes.old }
    ensures { AllOpen attached.new.slots (F.state files.new).opened }
{
    let name = call.second;
    if name.is_empty() || name.len() > 255 {
        return false;
    }
    let mode = mode_of(call.third);
    let unit = unit_of(call.first);
    let _answer = attach_unit(alloc, attached, unit, name, mode, files, notes, stamp);
    true
}

/// A note, as `2@PTP:1:Length`.
fn note_of(text: &str) -> Option<FaultNote> {
    let note = call_of(text);
    Some(FaultNote {
        command: number(note.verb)?,
        time: 7,
        subject: Subject::Unit(unit_of(note.first)),
        file: file_of(note.second),
        call: file_call(note.third)?,
        done: 0,
    })
}

fn are_noted(notes: &[FaultNote], wanted: &str) -> bool {
    for (note, word) in notes.iter().zip(wanted.split_whitespace()) {
        if Some(*note) != note_of(word) {
            return false;
        }
    }
    notes.len() == wanted.split_whitespace().count()
}

fn notes_are<F: Files>(
    rt: &impl Abort,
    alloc: Global,
    files: &mut F,
    calls: &str,
    wanted: &str,
) -> Result<(), AllocError> {
    let mut attached = Attached::new(alloc)?;
    let mut notes = Vec::new(alloc);
    plays(rt, alloc, &mut attached, files, &mut notes, calls)?;
    holds(rt, are_noted(notes.as_slice(), wanted), wanted);
    Ok(())
}

/// Plays a line, if there is memory for it.
fn plays_line(rt: &impl Abort, alloc: Global, line: &str) -> Option<()> {
    let row = columns_of(line);
    let mut files = with_file(alloc, 16, "tape", b"hello", row.first)?;
    notes_are(rt, alloc, &mut files, row.second, row.third).ok()
}

fn all(rt: &impl Abort, alloc: Global, table: &str) {
    for line in table.lines() {
        holds(rt, plays_line(rt, alloc, line).is_some(), line);
    }
}

const EACH_FAILING_CALL_OF_ATTACHING_AND_DETACHING_IS_NOTED: &str =
    "0:0 | attach@PTR:tape:there attach@PTP:out:any all name@PTR name@PTP | 1@PTR:none:Opening
1:0 | attach@PTR:tape:there attach@PTP:out:any all name@PTR name@PTP | 1@PTR:0:Length
2:0 | attach@PTR:tape:there attach@PTP:out:any all name@PTR name@PTP | 2@PTP:none:Opening
3:0 | attach@PTR:tape:there attach@PTP:out:any all name@PTR name@PTP | 2@PTP:none:Opening
4:0 | attach@PTR:tape:there attach@PTP:out:any all name@PTR name@PTP | 2@PTP:1:Length
5:0 | attach@PTR:tape:there attach@PTP:out:any all name@PTR name@PTP | 3@PTR:0:Closing
6:0 | attach@PTR:tape:there attach@PTP:out:any all name@PTR name@PTP | 3@PTP:1:Closing
7:0 | attach@PTR:tape:there attach@PTP:out:any all name@PTR name@PTP |";

const A_UNIT_WITHOUT_A_FILE_IS_NOT_DETACHED: &str = "100:0 | detach@PTP=NotAttached |";

#[test]
fn calls_that_fail_are_noted(rt: HostRuntime) {
    all(
        &rt,
        rt.alloc(),
        EACH_FAILING_CALL_OF_ATTACHING_AND_DETACHING_IS_NOTED,
    );
    all(&rt, rt.alloc(), A_UNIT_WITHOUT_A_FILE_IS_NOT_DETACHED);
}

/// The note of a write that failed in that command.
fn write_noted(command: u64) -> FaultNote {
    FaultNote {
        command,
        time: 606,
        subject: Subject::Unit(UnitName {
            kind: Kind::Ptp,
            unit: 0,
        }),
        file: Some(FileId(0)),
        call: FileCall::Write,
        done: 0,
    }
}

/// Keeps the notes of 16 commands, as far as there is room.
fn keep_all(notes: &mut Vec<FaultNote>) {
    for command in 0..16u64 {
        if notes.len() < notes.capacity() {
            keep(notes, write_noted(command));
        }
    }
}

fn all_are_kept(notes: &[FaultNote]) -> bool {
    for (note, command) in notes.iter().zip(0..16u64) {
        if *note != write_noted(command) {
            return false;
        }
    }
    notes.len() == 16
}

fn fills(rt: &impl Abort, notes: &mut Vec<FaultNote>) -> Result<(), AllocError> {
    take_room(notes)?;
    let room = notes.capacity() - notes.len();
    holds(rt, room >= NOTES_OF_A_COMMAND, "the room for a command");
    keep_all(notes);
    holds(
        rt,
        all_are_kept(notes.as_slice()),
        "the notes that were kept",
    );
    take_room(notes)?;
    holds(
        rt,
        all_are_kept(notes.as_slice()),
        "the notes behind new room",
    );
    Ok(())
}

#[test]
fn there_is_room_for_the_notes_of_a_command(rt: HostRuntime) -> Result<(), Fail> {
    let mut notes = Vec::new(rt.alloc());
    fills(&rt, &mut notes)?;
    Ok(())
}
