// Lists of bytes, in memory and of open files, as lines of text: the bytes that a list begins with, the calls that fail,
// what is called and what it answers, and the bytes then.
ghost use Rattle.std.specs.Prelude.{◌≡◌, IsTrue};

use crate::images::{failing, left, with_file};
use crate::texts::{Call, call_of, columns_of, equal, holds, number, size, stand_for};
use host_files::{AddFault, ByteList, Bytes, Failed, Files, OneFile, OpenMode, WriteFault};
use std::alloc::{AllocError, Global};
use std::process::Abort;

/// The longest list.
const LONGEST: u64 = 67_108_864;

/// Plays calls on a list that may be written.
fn plays<B: Bytes>(rt: &impl Abort, list: &mut B, calls: &str)
    requires { IsTrue (B.writable list.old) }
{
    for word in calls.split_whitespace() {
        let call = call_of(word);
        if changes(call.verb) {
            change(rt, list, call);
        } else {
            look(rt, list, call);
        }
    }
}

/// Plays calls that change nothing.
fn looks<B: Bytes>(rt: &impl Abort, list: &mut B, calls: &str) {
    for word in calls.split_whitespace() {
        look(rt, list, call_of(word));
    }
}

fn changes(verb: &str) -> bool {
    verb == "write" || verb == "set"
}

fn look<B: Bytes>(rt: &impl Abort, list: &mut B, call: Call)
    ensures { B.writable list.new ≡ B.writable list.old }
{
    match call.verb {
        "length" => {
            let said = list.length();
            equal(rt, &said, &number(call.answer).ok_or(Failed), call.word);
        }
        "read" => read(rt, list, call),
        "faults" => equal(rt, &Some(list.faults()), &number(call.answer), call.word),
        _ => holds(rt, false, call.word),
    }
}

/// A read into four bytes, of which those behind its own stay dashes.
fn read<B: Bytes>(rt: &impl Abort, list: &mut B, call: Call)
    ensures { B.writable list.new ≡ B.writable list.old }
{
    let mut buf = *b"----";
    let said = list.read_at(number(call.first).unwrap_or(0), &mut buf);
    equal(rt, &said, &count_of(call.answer), call.word);
    holds(rt, stand_for(&buf, bytes_of(call.answer)), call.word);
}

fn count_of(answer: &str) -> Result<usize, Failed> {
    if answer == "failed" {
        return Err(Failed);
    }
    Ok(answer.trim_end_matches('-').len())
}

fn bytes_of(answer: &str) -> &str {
    if answer == "failed" { "----" } else { answer }
}

fn change<B: Bytes>(rt: &impl Abort, list: &mut B, call: Call)
    requires { IsTrue (B.writable list.old) }
    ensures { B.writable list.new ≡ B.writable list.old }
{
    let place = number(call.first).unwrap_or(u64::MAX);
    if place > LONGEST - 16 || call.second.len() > 16 {
        holds(rt, false, call.word);
    } else if call.verb == "write" {
        let said = list.write_at(place, call.second.as_bytes());
        equal(rt, &said, &write_answer(call.answer), call.word);
    } else {
        let said = list.set_length(place);
        holds(rt, said.is_ok() == (call.answer == "ok"), call.word);
    }
}

/// What a write answers: how many bytes it wrote where it fails.
fn write_answer(answer: &str) -> Result<(), WriteFault> {
    match size(answer) {
        Some(done) => Err(WriteFault { done }),
        None => Ok(()),
    }
}

/// A line on a list in memory that has room for 8 bytes, if there is memory for it.
fn in_memory(rt: &impl Abort, alloc: Global, line: &str) -> Option<()> {
    let row = columns_of(line);
    let mut list = ByteList::new(alloc, row.first.as_bytes(), 8).ok()?;
    fail_named(&mut list, row.second).ok()?;
    plays(rt, &mut list, row.third);
    holds(rt, stand_for(list.bytes(), row.fourth), line);
    Some(())
}

fn fail_named(list: &mut ByteList, fails: &str) -> Result<(), AllocError> {
    for call in fails.split_whitespace() {
        if let Some((number, done)) = failing(call) {
            list.fail_call(number, done)?;
        }
    }
    Ok(())
}

/// A line on a file of at most 16 bytes, if there is memory for it; where the mode is `Read`, it is only looked at.
fn in_a_file(rt: &impl Abort, alloc: Global, mode: OpenMode, line: &str) -> Option<()> {
    let row = columns_of(line);
    let mut files = with_file(alloc, 16, "tape", row.first.as_bytes(), row.second)?;
    opened(rt, alloc, mode, &mut files, row.third);
    left(rt, &files, "tape", row.fourth, line);
    Some(())
}

fn opened<F: Files>(rt: &impl Abort, alloc: Global, mode: OpenMode, files: &mut F, calls: &str) {
    match files.open_file(alloc, "tape", mode) {
        Ok(file) if mode == OpenMode::Read => looks(rt, &mut OneFile { files, file }, calls),
        Ok(file) => plays(rt, &mut OneFile { files, file }, calls),
        Err(_) => holds(rt, false, calls),
    }
}

fn all_in_a_file(rt: &impl Abort, alloc: Global, mode: OpenMode, table: &str) {
    for line in table.lines() {
        holds(rt, in_a_file(rt, alloc, mode, line).is_some(), line);
    }
}

fn all_in_memory(rt: &impl Abort, alloc: Global, table: &str) {
    for line in table.lines() {
        holds(rt, in_memory(rt, alloc, line).is_some(), line);
    }
}

const A_LIST_IS_READ_UP_TO_ITS_END: &str =
    "hello | none | length=5 read@0=hell read@3=lo-- read@5=---- read@67108864=---- faults=0 | hello";

const A_PIECE_IS_WRITTEN_OVER_THE_BYTES_OR_BEHIND_A_GAP: &str = "hello | none | write@0:J=ok | Jello
hello | none | write@4:ium=ok | hellium
hello | none | write@7:!=ok | hello..!
hello | none | write@8:=ok | hello";

const A_LIST_IS_CUT_OR_FILLED_UP_WITH_ZERO_BYTES: &str = "hello | none | set@0=ok |
hello | none | set@2=ok | he
hello | none | set@8=ok | hello...";

const WHAT_PASSES_THE_ROOM_IS_REFUSED: &str =
    "hello | none | write@6:abc=0 write@9:=0 set@9=failed faults=3 | hello";

#[test]
fn what_passes_the_room_is_refused(rt: HostRuntime) {
    let refused = ByteList::new(rt.alloc(), b"hello", 4).err();
    equal(
        &rt,
        &refused,
        &Some(AddFault::TooLong),
        "bytes longer than their room",
    );
    all_in_memory(&rt, rt.alloc(), WHAT_PASSES_THE_ROOM_IS_REFUSED);
}

const A_NAMED_CALL_OF_EACH_KIND_FAILS_AND_CHANGES_NOTHING: &str =
    "hello | 0:0 1:0 2:0 3:0 | length=failed read@0=failed set@0=failed write@0:abc=0 faults=4 length=5 | hello";

const A_NAMED_WRITE_WRITES_ITS_FIRST_BYTES: &str = "hello | 0:2 | write@0:abc=2 | abllo
hello | 0:9 | write@0:abc=3 | abclo
hello | 0:2 | write@6:abc=2 | hello.ab
hello | 0:3 | write@6:abc=0 | hello";

const A_LIST_IN_MEMORY_IS_READ_AND_CHANGED_AS_A_FILE_IS: &str =
    "hello | none | length=5 read@0=hell set@0=ok write@0:new=ok | new
hello | 5:2 | length=5 read@0=hell set@0=ok write@0:new=ok set@0=ok write@0:longer=2 | lo";

#[test]
fn files_in_memory_answer_their_calls(rt: HostRuntime) {
    all_in_memory(&rt, rt.alloc(), A_LIST_IS_READ_UP_TO_ITS_END);
    all_in_memory(
        &rt,
        rt.alloc(),
        A_PIECE_IS_WRITTEN_OVER_THE_BYTES_OR_BEHIND_A_GAP,
    );
    all_in_memory(&rt, rt.alloc(), A_LIST_IS_CUT_OR_FILLED_UP_WITH_ZERO_BYTES);
    all_in_memory(
        &rt,
        rt.alloc(),
        A_NAMED_CALL_OF_EACH_KIND_FAILS_AND_CHANGES_NOTHING,
    );
    all_in_memory(&rt, rt.alloc(), A_NAMED_WRITE_WRITES_ITS_FIRST_BYTES);
    all_in_memory(
        &rt,
        rt.alloc(),
        A_LIST_IN_MEMORY_IS_READ_AND_CHANGED_AS_A_FILE_IS,
    );
}

// A place past what a file shows is answered as its end.
const A_FILE_THAT_WAS_OPENED_TO_BE_READ_IS_ONE_LIST: &str =
    "hello | none | length=5 read@0=hell length=5 read@4=o--- read@5=---- read@67108864=---- faults=0 | hello";

const A_FILE_THAT_WAS_OPENED_TO_BE_UPDATED_IS_CHANGED_AS_ONE_LIST: &str =
    "hello | none | set@0=ok write@0:new=ok | new
hello | none | set@0=ok write@0:new=ok write@5:er=ok set@6=ok | new..e";

// Call 0 is the opening.
const A_CALL_THAT_FAILS_ON_THE_FILE_FAILS_ON_THE_LIST: &str =
    "hello | 1:0 2:0 3:0 4:2 | length=failed read@0=failed set@0=failed write@0:abc=2 faults=4 | abllo";

#[test]
fn calls_on_one_file_answer(rt: HostRuntime) {
    all_in_a_file(
        &rt,
        rt.alloc(),
        OpenMode::Read,
        A_FILE_THAT_WAS_OPENED_TO_BE_READ_IS_ONE_LIST,
    );
    all_in_a_file(
        &rt,
        rt.alloc(),
        OpenMode::Update,
        A_FILE_THAT_WAS_OPENED_TO_BE_UPDATED_IS_CHANGED_AS_ONE_LIST,
    );
    all_in_a_file(
        &rt,
        rt.alloc(),
        OpenMode::Update,
        A_CALL_THAT_FAILS_ON_THE_FILE_FAILS_ON_THE_LIST,
    );
}
