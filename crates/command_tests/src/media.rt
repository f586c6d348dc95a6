use crate::answers::SCRIPT;
use crate::checked::check;
use crate::sessions::Watched::Nothing;
use crate::sessions::{Note, play};
use host_files::{FileCall, MemFiles};
use std::alloc::{AllocError, Global};
use std::process::Abort;
use std::test::Fail;

const SCRIPTS: &str = "DO s|0 Does|
do -v s a b|0 Does V|
DO -E s|0 Does E|
DO -V -E s|0 Does VE|
DO empty|0 DoesNothing|
DO t|0 NoFile|
GOTO end|0 Goto|
E 0|100 Go|00000:\t000000$";

/// Files of 64 bytes at most, with these in one of them.
fn with_file(
    rt: &impl Abort,
    alloc: Global,
    name: &str,
    bytes: &[u8],
) -> Result<MemFiles, AllocError> {
    let mut files = MemFiles::with_room(alloc, 64)?;
    check(rt, files.add_file(name, bytes).is_ok(), name);
    Ok(files)
}

/// Whether a file has these bytes; none: that it is not there.
fn has(files: &MemFiles, name: &str, bytes: Option<&[u8]>) -> bool {
    match files.file_bytes(name) {
        Some(found) => bytes == Some(found),
        None => bytes.is_none(),
    }
}

#[test]
fn scripts_are_read_and_labels_looked_for(rt: HostRuntime) -> Result<(), Fail> {
    let mut files = with_file(&rt, rt.alloc(), "s", SCRIPT)?;
    check(&rt, files.add_file("empty", b"").is_ok(), "empty");
    play(&rt, rt.alloc(), Nothing, &mut files, SCRIPTS, &[])?;
    Ok(())
}

/// The tape of one word, 63077 at 100, that starts there.
const TAPE: [u8; 14] = [
    0xff, 0xff, 0x40, 0x00, 0x82, 0x99, 0x3f, 0x66, 0x01, 0x00, 0x40, 0x00, 0xbf, 0xff,
];

/// The same, whose words do not add up.
const BAD: [u8; 14] = [
    0xff, 0xff, 0x40, 0x00, 0x83, 0x99, 0x3f, 0x66, 0x01, 0x00, 0x40, 0x00, 0xbf, 0xff,
];

const TAPES: &str = "D 100 63077|0 Go|
D PC 100|0 Go|
DUMP 100-100 d|0 Go|
D 100 0|0 Go|
D PC 0|0 Go|
LOAD bad|0 BadSum|
E 100,PC|100 Go|00100:\t000000$PC:\t00000$
LOAD d|0 Go|
E 100,PC|100 Go|00100:\t063077$PC:\t00100$
DUMP 100-100000 e|0 OutOfRange|";

#[test]
fn words_are_dumped_and_loaded(rt: HostRuntime) -> Result<(), Fail> {
    let mut files = with_file(&rt, rt.alloc(), "bad", &BAD)?;
    play(&rt, rt.alloc(), Nothing, &mut files, TAPES, &[])?;
    check(
        &rt,
        has(&files, "d", Some(&TAPE)) && has(&files, "e", None),
        "d and e",
    );
    Ok(())
}

/// A write that fails behind four bytes.
const FAILED: [Note; 1] = [(0, FileCall::Write, 4)];

fn dumps_in_part(rt: &impl Abort, alloc: Global, files: &mut MemFiles) -> Result<(), AllocError> {
    files.fail_call(1, 4)?;
    play(
        rt,
        alloc,
        Nothing,
        files,
        "DUMP 100-100 d|0 DumpFailed|",
        &FAILED,
    )
}

#[test]
fn a_dump_that_fails_leaves_its_first_bytes(rt: HostRuntime) -> Result<(), Fail> {
    let mut files = MemFiles::with_room(rt.alloc(), 64)?;
    dumps_in_part(&rt, rt.alloc(), &mut files)?;
    check(&rt, has(&files, "d", TAPE.get(..4)), "d");
    Ok(())
}
