// The files of a saved session: attached and compared, with calls on files that fail, and saved again.
ghost use Rattle.saved_session.specs.Parts.{state_in};
ghost use Rattle.saved_session.specs.Valid.{Valid};

use crate::checked::check;
use crate::states::same::same_files;
use crate::states::texts::{FIRST, bytes_of, equal, number};
use host_files::{FileCall, FileId, Files, MemFiles};
use state_file::{RestoreFault, SaveFault, Saved, attach_all, digest_all, read_state};
use std::alloc::{AllocError, Global};
use std::process::Abort;
use std::test::Fail;
use unit_files::{Attached, UnitFault};
use unit_trait::{Kind, UnitName};

/// Three files of a state: the disk's, with the bytes `sector`, that of a drive, which is empty, and the reader's,
/// which is only read, with the bytes `hello`. The digests are from another program.
pub const FILES: &str = "03 00 00 00 0004 6469736B 0000000000000006
9D5D7FCF3AA35A4809F92551AED1F26E3BEB8532C2DDCB279E07F0E3D410251A 01 07 00 0004 7265656C
0000000000000000 E3B0C44298FC1C149AFBF4C8996FB92427AE41E4649B934CA495991B7852B855 03 00 01 0002 696E
0000000000000005 2CF24DBA5FB0A30E26E83B2AC5B9E29E1B161E5C1FA7425E73043362938B9824";

/// What it has behind its files: no port, and nothing that is watched.
const NOTHING_BEHIND: &str = "0000 0000 0000 0000 00 00 0000";

/// The digest of the first state with these files.
const FILES_DIGEST: &str = "02291ABDAFDE7D847827ED3DE5F66AB25382DECBA8EAC93CCA7B0BCB63F95B40";

/// What the first state has behind its agenda.
const NO_FILES: &str = "00 0000 0000 0000 0000 00 00 0000";

/// Adds the bytes of a text.
pub fn add_bytes(alloc: Global, out: &mut Vec<u8>, text: &str) -> Result<(), AllocError> {
    let bytes = bytes_of(alloc, text)?;
    out.extend_from_slice(bytes.as_slice())
}

/// The first state with three files.
pub fn state_text(alloc: Global) -> Result<Vec<u8>, AllocError> {
    let front = FIRST.strip_suffix(NO_FILES).unwrap_or("");
    let mut text = bytes_of(alloc, front)?;
    add_bytes(alloc, &mut text, FILES)?;
    add_bytes(alloc, &mut text, NOTHING_BEHIND)?;
    add_bytes(alloc, &mut text, FILES_DIGEST)?;
    Ok(text)
}

const DISK: UnitName = UnitName {
    kind: Kind::Dsk,
    unit: 0,
};

const DRIVE: UnitName = UnitName {
    kind: Kind::Mta,
    unit: 7,
};

const READER: UnitName = UnitName {
    kind: Kind::Ptr,
    unit: 0,
};

fn unit_of(name: &str) -> UnitName {
    match name {
        "DSK" => DISK,
        "MTA7" => DRIVE,
        _ => READER,
    }
}

/// A call that failed, as `MTA7:Read:1`: its unit, the call, and its file.
fn fault_of(text: &str) -> UnitFault {
    let (unit, rest) = text.split_once(':').unwrap_or((text, ""));
    let (call, file) = rest.split_once(':').unwrap_or((rest, ""));
    UnitFault {
        unit: unit_of(unit),
        file: file.parse().ok().map(FileId),
        call: match call {
            "Opening" => FileCall::Opening,
            "Length" => FileCall::Length,
            "Write" => FileCall::Write,
            _ => FileCall::Read,
        },
        done: 0,
    }
}

/// An answer, as `ok`, `NoFile=PTR` or `Failed=MTA7:Read:1`.
pub fn answer_of(text: &str) -> Result<(), RestoreFault> {
    let (kind, of) = text.split_once('=').unwrap_or((text, ""));
    match kind {
        "ok" => Ok(()),
        "NoFile" => Err(RestoreFault::NoFile(unit_of(of))),
        "TooLong" => Err(RestoreFault::TooLong(unit_of(of))),
        "Changed" => Err(RestoreFault::Changed(unit_of(of))),
        _ => Err(RestoreFault::Failed(fault_of(of))),
    }
}

/// Adds a file, as `in=hello`; where it is to be long, with 4194305 zero bytes.
fn add(alloc: Global, files: &mut MemFiles, word: &str) -> Option<()> {
    let (name, bytes) = word.split_once('=')?;
    if bytes == "long" {
        let zeros = Vec::from_elem(alloc, 0u8, 4_194_305).ok()?;
        return files.add_file(name, zeros.as_slice()).ok();
    }
    files.add_file(name, bytes.as_bytes()).ok()
}

/// Files with these names and bytes, of which these calls fail.
pub fn files_of(alloc: Global, names: &str, fails: &str) -> Option<MemFiles> {
    let mut files = MemFiles::with_room(alloc, 4_194_305).ok()?;
    for word in names.split_whitespace() {
        add(alloc, &mut files, word)?;
    }
    for call in fails.split_whitespace() {
        files.fail_call(number(call) as u64, 0).ok()?;
    }
    Some(files)
}

/// The columns of a line of a table.
#[derive(Clone, Copy)]
pub struct Row<'a> {
    pub line: &'a str,
    pub names: &'a str,
    pub fails: &'a str,
    pub force: bool,
    pub answer: &'a str,
}

pub fn row_of(line: &str) -> Row<'_> {
    let (_, rest) = line.split_once(" | ").unwrap_or((line, ""));
    let (names, rest) = rest.split_once(" | ").unwrap_or((rest, ""));
    let (fails, answer) = rest.split_once(" | ").unwrap_or((rest, ""));
    let (fails, force) = match fails.split_once('F') {
        Some((fails, _)) => (fails, true),
        None => (fails, false),
    };
    Row {
        line,
        names,
        fails,
        force,
        answer,
    }
}

// What is tried, the files that are there, the calls that fail, counted from 0, and F where it is forced; the answer.
const RESTORES: &str = "all as they were | disk=sector reel= in=hello |  | ok
the same, forced | disk=sector reel= in=hello | F | ok
one byte of the disk's file | disk=sectoR reel= in=hello |  | Changed=DSK
one byte of the reader's file | disk=sector reel= in=hellO |  | Changed=PTR
one byte more | disk=sector reel= in=hello! |  | Changed=PTR
a byte in the empty file | disk=sector reel=x in=hello |  | Changed=MTA7
changed ones, forced | disk=sectoR reel=x in=hell | F | ok
one is missing | disk=sector in=hello |  | NoFile=MTA7
one is missing, forced | disk=sector in=hello | F | NoFile=MTA7
one is too long | disk=long reel= in=hello |  | TooLong=DSK
one is too long, forced | disk=long reel= in=hello | F | TooLong=DSK
the first is meant | disk=sectoR in=hellO |  | Changed=DSK
the opening of the disk's | disk=sector reel= in=hello | 0 | Failed=DSK:Opening:
its length | disk=sector reel= in=hello | 1 | Failed=DSK:Length:0
its reading | disk=sector reel= in=hello | 2 | Failed=DSK:Read:0
its length again | disk=sector reel= in=hello | 3 | Failed=DSK:Length:0
its reading again | disk=sector reel= in=hello | 4 | Failed=DSK:Read:0
the opening of the drive's | disk=sector reel= in=hello | 5 | Failed=MTA7:Opening:
its length | disk=sector reel= in=hello | 6 | Failed=MTA7:Length:1
its length again | disk=sector reel= in=hello | 7 | Failed=MTA7:Length:1
the opening of the reader's | disk=sector reel= in=hello | 8 | Failed=PTR:Opening:
its length | disk=sector reel= in=hello | 9 | Failed=PTR:Length:2
its length again | disk=sector reel= in=hello | 10 | Failed=PTR:Length:2
its reading | disk=sector reel= in=hello | 11 | Failed=PTR:Read:2
no call more | disk=sector reel= in=hello | 12 | ok
the second opening, forced | disk=sector reel= in=hello | 3F | Failed=MTA7:Opening:
a changed one and all closings | disk=sector reel= in=hellO | 12 13 14 | Changed=PTR";

/// The units have their files, or none has one.
pub fn stand(rt: &impl Abort, attached: &Attached, so: bool, line: &str) {
    let disk = if so { Some("disk") } else { None };
    let drive = if so { Some("reel") } else { None };
    let reader = if so { Some("in") } else { None };
    equal(rt, &attached.name_of(DISK), &disk, line);
    equal(rt, &attached.name_of(DRIVE), &drive, line);
    equal(rt, &attached.name_of(READER), &reader, line);
    check(rt, attached.is_read_only(READER) == so, line);
    check(rt, !attached.is_read_only(DISK), line);
}

fn restores<F: Files>(
    rt: &impl Abort,
    alloc: Global,
    saved: &Saved,
    files: &mut F,
    row: Row<'_>,
) -> Option<()>
    requires { Valid (state_in saved.now) }
{
    let mut attached = Attached::new(alloc).ok()?;
    let list = saved.attachments.as_slice();
    let answer = attach_all(alloc, list, row.force, &mut attached, files);
    equal(rt, &answer, &answer_of(row.answer), row.line);
    stand(rt, &attached, answer.is_ok(), row.line);
    Some(())
}

fn plays_restores(rt: &impl Abort, alloc: Global, saved: &Saved)
    requires { Valid (state_in saved.now) }
{
    for line in RESTORES.split('\n') {
        let row = row_of(line);
        match files_of(alloc, row.names, row.fails) {
            Some(mut files) => {
                let _ = restores(rt, alloc, saved, &mut files, row);
            }
            None => check(rt, false, line),
        }
    }
}

#[test]
fn files_are_attached_and_compared(rt: HostRuntime) -> Result<(), Fail> {
    let text = state_text(rt.alloc())?;
    match read_state(rt.alloc(), text.as_slice()) {
        Ok(saved) => plays_restores(&rt, rt.alloc(), &saved),
        Err(_) => check(&rt, false, "the state is read"),
    }
    Ok(())
}

// The calls of the attaching are 0 to 6, since that is forced.
const SAVES: &str = "all | disk=sector reel= in=hello |  | ok
the length of the disk's | disk=sector reel= in=hello | 7 | Failed=DSK:Length:0
its reading | disk=sector reel= in=hello | 8 | Failed=DSK:Read:0
the length of the drive's | disk=sector reel= in=hello | 9 | Failed=MTA7:Length:1
the length of the reader's | disk=sector reel= in=hello | 10 | Failed=PTR:Length:2
its reading | disk=sector reel= in=hello | 11 | Failed=PTR:Read:2
no call more | disk=sector reel= in=hello | 12 | ok";

fn save_fault_of(text: &str) -> Option<SaveFault> {
    match answer_of(text) {
        Err(RestoreFault::Failed(fault)) => Some(SaveFault::Failed(fault)),
        _ => None,
    }
}

fn saves<F: Files>(
    rt: &impl Abort,
    alloc: Global,
    saved: &Saved,
    files: &mut F,
    row: Row<'_>,
) -> Option<()>
    requires { Valid (state_in saved.now) }
{
    let mut attached = Attached::new(alloc).ok()?;
    let list = saved.attachments.as_slice();
    let answer = attach_all(alloc, list, true, &mut attached, files);
    equal(rt, &answer, &Ok(()), row.line);
    match digest_all(alloc, &mut attached, files) {
        Ok(found) => check(rt, same_files(found.as_slice(), list), row.line),
        Err(fault) => equal(rt, &Some(fault), &save_fault_of(row.answer), row.line),
    }
    stand(rt, &attached, true, row.line);
    Some(())
}

fn plays_saves(rt: &impl Abort, alloc: Global, saved: &Saved)
    requires { Valid (state_in saved.now) }
{
    for line in SAVES.split('\n') {
        let row = row_of(line);
        match files_of(alloc, row.names, row.fails) {
            Some(mut files) => {
                let _ = saves(rt, alloc, saved, &mut files, row);
            }
            None => check(rt, false, line),
        }
    }
}

#[test]
fn attached_files_are_saved(rt: HostRuntime) -> Result<(), Fail> {
    let text = state_text(rt.alloc())?;
    match read_state(rt.alloc(), text.as_slice()) {
        Ok(saved) => plays_saves(&rt, rt.alloc(), &saved),
        Err(_) => check(&rt, false, "the state is read"),
    }
    Ok(())
}
