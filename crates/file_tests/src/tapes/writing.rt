// Items that are written, and what is erased.
ghost use Rattle.std.specs.Prelude.{◌≤◌};

use crate::tapes::test_tape::TestTape;
use crate::tapes::texts::{Call, call_of, columns_of};
use crate::texts::{equal, holds, number};
use host_files::FileCall;
use simh_tape::{
    Item, PutFault, TapeFault, erase_rest, read_next, read_previous, write_block, write_mark,
};
use std::alloc::Global;
use std::process::Abort;
use std::test::Fail;

/// What a writing answers: the place behind the item, or a failed call and how many bytes of it were written then.
fn answer_of(text: &str) -> Option<Result<u64, PutFault>> {
    let Some((call, done)) = text.split_once(':') else {
        return Some(Ok(number(text)?));
    };
    let call = if call == "Write" {
        FileCall::Write
    } else {
        FileCall::SetLength
    };
    Some(Err(PutFault {
        call,
        done: number(done)?,
    }))
}

fn act(rt: &impl Abort, tape: &mut TestTape, call: Call)
    requires { call.place ≤ 1000 }
{
    match call.verb {
        "write" => write(rt, tape, call),
        "mark" => {
            let said = write_mark(tape, call.place);
            equal(rt, &Some(said), &answer_of(call.answer), call.word);
        }
        "erase" => {
            let said = erase_rest(tape, call.place).map(|()| 0);
            equal(rt, &Some(said), &answer_of(call.answer), call.word);
        }
        "made" => equal(rt, &Some(tape.made), &number(call.answer), call.word),
        _ => equal(rt, &Some(tape.faults), &number(call.answer), call.word),
    }
}

fn write(rt: &impl Abort, tape: &mut TestTape, call: Call)
    requires { call.place ≤ 1000 }
{
    if call.operand.is_empty() || call.operand.len() > 16 {
        holds(rt, false, call.word);
        return;
    }
    let said = write_block(tape, call.place, call.operand.as_bytes());
    equal(rt, &Some(said), &answer_of(call.answer), call.word);
}

/// The image has the bytes of a text.
fn left(rt: &impl Abort, tape: &TestTape, text: &str) {
    for (byte, digits) in tape.bytes.iter().zip(text.split_whitespace()) {
        equal(rt, &Some(u64::from(*byte)), &number(digits), text);
    }
    let count = text.split_whitespace().count();
    equal(rt, &tape.bytes.len(), &count, text);
}

/// A line: the image, what is called and what it answers, and the image then.
fn plays(rt: &impl Abort, alloc: Global, line: &str) -> Result<(), Fail> {
    let row = columns_of(line);
    let mut tape = TestTape::of_text(alloc, row.first, 100)?;
    all(rt, &mut tape, row.second);
    left(rt, &tape, row.third);
    Ok(())
}

fn all(rt: &impl Abort, tape: &mut TestTape, calls: &str) {
    for word in calls.split_whitespace() {
        act(rt, tape, call_of(word));
    }
}

// The calls that were made: to set the length, and for the parts: 4 with the padding, 1, and 3. What follows is cut off,
// and a gap is filled.
const ITEMS_ARE_WRITTEN: &str =
    "| write@0:abc=12 mark@12=16 write@16:de=26 made=11 faults=0 | 3 0 0 0 97 98 99 0 3 0 0 0 0 0 0 0 2 0 0 0 100 101 2 0 0 0
3 0 0 0 97 98 99 0 3 0 0 0 0 0 0 0 2 0 0 0 100 101 2 0 0 0 | mark@12=16 faults=0 | 3 0 0 0 97 98 99 0 3 0 0 0 0 0 0 0
3 0 0 0 97 98 99 0 3 0 0 0 0 0 0 0 | write@0:f=10 faults=0 | 1 0 0 0 102 0 1 0 0 0
1 0 0 0 102 0 1 0 0 0 | erase@4=0 faults=0 | 1 0 0 0
1 0 0 0 | mark@6=10 faults=0 | 1 0 0 0 0 0 0 0 0 0
1 0 0 0 0 0 0 0 0 0 | erase@11=0 faults=0 | 1 0 0 0 0 0 0 0 0 0 0";

#[test]
fn items_are_written(rt: HostRuntime) -> Result<(), Fail> {
    for line in ITEMS_ARE_WRITTEN.lines() {
        plays(&rt, rt.alloc(), line)?;
    }
    Ok(())
}

#[test]
fn a_long_block(rt: HostRuntime) -> Result<(), Fail> {
    let mut tape = TestTape::new(rt.alloc(), &[], 100)?;
    let said = write_block(&mut tape, 5, &[7u8; 300]);
    equal(&rt, &said, &Ok(313), "a block of 300 bytes");
    // 300 is 012c
    let front = tape.bytes.starts_with(&[0, 0, 0, 0, 0, 0x2c, 1, 0, 0, 7]);
    let back = tape.bytes.ends_with(&[7, 0x2c, 1, 0, 0]);
    holds(&rt, front && back && tape.bytes.len() == 313, "its image");
    Ok(())
}

/// A line on an image of seven bytes of 9: the call that fails and how many bytes it writes, what is called and what it
/// answers, and the image then.
fn fails(rt: &impl Abort, alloc: Global, line: &str) -> Result<(), Fail> {
    let row = columns_of(line);
    let (call, done) = row.first.trim_end().split_once(':').unwrap_or(("", ""));
    let (call, done) = (number(call).unwrap_or(99), number(done).unwrap_or(0));
    let mut tape = TestTape::failing(alloc, &[9; 7], call, done as usize)?;
    all(rt, &mut tape, row.second);
    left(rt, &tape, row.third);
    Ok(())
}

const EACH_CALL_OF_A_WRITING_FAILS_IN_TURN: &str = "1:0 | write@2:abc=Write:0 faults=1 | 9 9
1:1 | write@2:abc=Write:1 faults=1 | 9 9 3
1:4 | write@2:abc=Write:4 faults=1 | 9 9 3 0 0 0
2:0 | write@2:abc=Write:4 faults=1 | 9 9 3 0 0 0
2:1 | write@2:abc=Write:5 faults=1 | 9 9 3 0 0 0 97
2:3 | write@2:abc=Write:7 faults=1 | 9 9 3 0 0 0 97 98 99
3:0 | write@2:abc=Write:7 faults=1 | 9 9 3 0 0 0 97 98 99
3:1 | write@2:abc=Write:8 faults=1 | 9 9 3 0 0 0 97 98 99 0
4:0 | write@2:abc=Write:8 faults=1 | 9 9 3 0 0 0 97 98 99 0
4:1 | write@2:abc=Write:9 faults=1 | 9 9 3 0 0 0 97 98 99 0 3
4:3 | write@2:abc=Write:11 faults=1 | 9 9 3 0 0 0 97 98 99 0 3 0 0
4:4 | write@2:abc=Write:12 faults=1 | 9 9 3 0 0 0 97 98 99 0 3 0 0 0
0:3 | write@2:abc=SetLength:0 faults=1 | 9 9 9 9 9 9 9
0:3 | erase@2=SetLength:0 faults=1 | 9 9 9 9 9 9 9
1:3 | mark@2=Write:3 faults=1 | 9 9 0 0 0";

#[test]
fn each_call_of_a_writing_fails_in_turn(rt: HostRuntime) -> Result<(), Fail> {
    for line in EACH_CALL_OF_A_WRITING_FAILS_IN_TURN.lines() {
        fails(&rt, rt.alloc(), line)?;
    }
    Ok(())
}

/// A block of five bytes stands between two places.
fn is_block(rt: &impl Abort, item: Result<Item, TapeFault>, into: &[u8], place: u64) {
    let wanted = Item::Block {
        length: 5,
        flagged: false,
        taken: 5,
        place,
    };
    equal(rt, &item, &Ok(wanted), "the block");
    holds(rt, into == b"abcde".as_slice(), "its bytes");
}

#[test]
fn what_was_written_is_read(rt: HostRuntime) -> Result<(), Fail> {
    let mut tape = TestTape::new(rt.alloc(), &[1, 2, 3], 2)?;
    let said = write_block(&mut tape, 8, b"abcde");
    equal(&rt, &said, &Ok(22), "the block");
    let mut into = [0u8; 5];
    let item = read_next(&mut tape, 8, &mut into);
    is_block(&rt, item, &into, 22);
    let mut into = [0u8; 5];
    let item = read_previous(&mut tape, 22, &mut into);
    is_block(&rt, item, &into, 8);
    Ok(())
}
