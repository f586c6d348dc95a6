use crate::answers::SCRIPT;
use crate::checked::check;
use crate::sessions::Watched::Nothing;
use crate::sessions::play;
use host_files::{FileCall, MemFiles};
use std::alloc::{AllocError, Global};
use std::process::Abort;
use std::test::Fail;

/// A program that punches the character in AC0 again and again.
const PUNCHES: &str = "D AC0 101|0 Go|
D 100 61113|0 Go|
D 101 63613|0 Go|
D 102 777|0 Go|
D 103 100|0 Go|
ATTACH PTP out|0 Go|
GO 100|100 Anything|$File error on PTP, PC: 00102 (000777)$
E PTP BUSY,POS|100 Go|BUSY:\t1$POS:\t000000002$";

/// The third write fails behind that many bytes.
fn punch(rt: &impl Abort, alloc: Global, done: usize, punched: &[u8]) -> Result<(), AllocError> {
    let mut files = MemFiles::with_room(alloc, 8)?;
    check(rt, files.fail_call(5, done).is_ok(), "a failing write");
    let notes = [(606, FileCall::Write, done as u64)];
    play(rt, alloc, Nothing, &mut files, PUNCHES, &notes)?;
    check(rt, files.file_bytes("out") == Some(punched), "out");
    Ok(())
}

#[test]
fn a_failed_write_stops_the_run_and_is_noted(rt: HostRuntime) -> Result<(), Fail> {
    punch(&rt, rt.alloc(), 0, b"AA")?;
    punch(&rt, rt.alloc(), 1, b"AAA")?;
    Ok(())
}

const OPENING: &str = "ATTACH -N PTP out|0 Anything|
SHOW PTP|100 Go|PTP, not attached$";

const CLOSING: &str = "ATTACH -N PTP out|0 Go|
DETACH PTP|0 Go|
SHOW PTP|100 Go|PTP, not attached$";

/// The call of that number fails, and is noted at time 0.
fn fails(
    rt: &impl Abort,
    alloc: Global,
    number: u64,
    call: FileCall,
    table: &str,
) -> Result<(), AllocError> {
    let mut files = MemFiles::with_room(alloc, 64)?;
    check(rt, files.add_file("s", SCRIPT).is_ok(), "s");
    check(rt, files.fail_call(number, 0).is_ok(), "a failing call");
    play(rt, alloc, Nothing, &mut files, table, &[(0, call, 0)])
}

#[test]
fn a_failed_opening_and_a_failed_closing_are_noted(rt: HostRuntime) -> Result<(), Fail> {
    fails(&rt, rt.alloc(), 0, FileCall::Opening, OPENING)?;
    fails(&rt, rt.alloc(), 2, FileCall::Closing, CLOSING)?;
    Ok(())
}

const REFUSED: &str = "DO s|0 ScriptFailed|
DO s|0 Does|";

const READ: &str = "DO s|0 Does|
DO s|0 Does|";

#[test]
fn each_failed_call_on_a_script_is_noted(rt: HostRuntime) -> Result<(), Fail> {
    fails(&rt, rt.alloc(), 0, FileCall::Opening, REFUSED)?;
    fails(&rt, rt.alloc(), 1, FileCall::Length, REFUSED)?;
    fails(&rt, rt.alloc(), 2, FileCall::Read, REFUSED)?;
    fails(&rt, rt.alloc(), 3, FileCall::Closing, READ)?;
    Ok(())
}
