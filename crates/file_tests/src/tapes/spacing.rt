// Spacing over the blocks of images, forward and backwards.
ghost use Rattle.std.specs.Prelude.{◌≤◌};

use crate::tapes::test_tape::TestTape;
use crate::tapes::texts::{Call, call_of, place_of};
use crate::texts::{equal, number};
use host_files::FileCall;
use simh_tape::{Spaced, TapeFault, space};
use std::alloc::Global;
use std::process::Abort;
use std::test::Fail;
use unit_trait::TapeEnd;

// Blocks of 1 and 2 bytes, a mark, a block of 1 byte and two marks.
const IMAGE: [u8; 42] = [
    1, 0, 0, 0, b'a', 0, 1, 0, 0, 0, // from 0
    2, 0, 0, 0, b'b', b'c', 2, 0, 0, 0, // from 10
    0, 0, 0, 0, // from 20
    1, 0, 0, 0, b'd', 0, 1, 0, 0, 0, // from 24
    0, 0, 0, 0, // from 34
    0, 0, 0, 0, // from 38
];

/// Where spacing ends, as `24:2:mark`: the place, the blocks that were passed, and the end; or `bad:10`.
fn spaced_of(text: &str) -> Option<Result<Spaced, TapeFault>> {
    let (place, rest) = text.split_once(':')?;
    if place == "bad" {
        return Some(Err(TapeFault::BadImage(number(rest)?)));
    }
    let (passed, end) = rest.split_once(':')?;
    Some(Ok(Spaced {
        place: number(place)?,
        passed: place_of(passed) as u16,
        end: end_of(end)?,
    }))
}

fn end_of(text: &str) -> Option<TapeEnd> {
    match text {
        "plain" => Some(TapeEnd::Plain),
        "mark" => Some(TapeEnd::Mark),
        "medium" => Some(TapeEnd::Medium),
        "load" => Some(TapeEnd::LoadPoint),
        _ => None,
    }
}

/// Passes blocks, `on` or back.
fn act(rt: &impl Abort, tape: &mut TestTape, call: Call)
    requires { call.place ≤ 1000 }
{
    let count = (number(call.operand).unwrap_or(0) % 65536) as u16;
    let said = space(tape, call.place, count, call.verb == "on");
    equal(rt, &Some(said), &spaced_of(call.answer), call.word);
}

/// Plays the words on the first part of the image, a few bytes at a time.
fn plays(
    rt: &impl Abort,
    alloc: Global,
    image: &[u8],
    most: usize,
    words: &str,
) -> Result<(), Fail> {
    let mut tape = TestTape::new(alloc, image, most)?;
    for word in words.split_whitespace() {
        act(rt, &mut tape, call_of(word));
    }
    Ok(())
}

// Where it begins, a number of blocks, and the place then, the blocks that were passed and the end.
const ON: &str =
    "on@0:0=0:0:plain on@0:1=10:1:plain on@0:2=20:2:plain on@0:3=24:2:mark on@0:65535=24:2:mark on@20:1=24:0:mark on@24:5=38:1:mark on@38:1=42:0:mark on@42:1=42:0:medium on@42:0=42:0:plain on@99:9=99:0:medium";

const BACK: &str =
    "back@0:0=0:0:plain back@0:1=0:0:load back@10:1=0:1:plain back@10:2=0:1:load back@20:2=0:2:plain back@20:65535=0:2:load back@24:2=20:0:mark back@34:2=20:1:mark back@42:2=38:0:mark back@99:2=38:0:mark back@99:0=99:0:plain";

#[test]
fn over_blocks_and_marks(rt: HostRuntime) -> Result<(), Fail> {
    plays(&rt, rt.alloc(), &IMAGE, 100, ON)?;
    plays(&rt, rt.alloc(), &IMAGE, 100, BACK)
}

#[test]
fn the_end_of_the_medium_behind_blocks(rt: HostRuntime) -> Result<(), Fail> {
    let words = "on@0:3=20:2:medium on@0:2=20:2:plain";
    plays(&rt, rt.alloc(), &IMAGE[..20], 1, words)
}

// The second block is cut.
#[test]
fn a_fault_behind_blocks(rt: HostRuntime) -> Result<(), Fail> {
    let words = "on@0:5=bad:10 back@99:5=bad:15";
    plays(&rt, rt.alloc(), &IMAGE[..19], 100, words)
}

/// A call of a spacing fails, and is said and counted.
fn fails(
    rt: &impl Abort,
    alloc: Global,
    call: u64,
    forward: bool,
    failed: FileCall,
) -> Result<(), Fail> {
    let mut tape = TestTape::failing(alloc, &IMAGE, call, 0)?;
    let said = space(&mut tape, if forward { 0 } else { 20 }, 5, forward);
    equal(
        rt,
        &said,
        &Err(TapeFault::Failed(failed)),
        "the call that fails",
    );
    equal(rt, &tape.faults, &1, "the faults");
    Ok(())
}

// No data are read: two reads a block, and backwards the length before them.
#[test]
fn each_call_of_a_spacing_fails_in_turn(rt: HostRuntime) -> Result<(), Fail> {
    for call in 0..5u64 {
        let failed = if call % 3 == 0 {
            FileCall::Length
        } else {
            FileCall::Read
        };
        fails(&rt, rt.alloc(), call, true, FileCall::Read)?;
        fails(&rt, rt.alloc(), call, false, failed)?;
    }
    Ok(())
}
