// Streams in memory as lines of text: the room of a sink or the bytes of a source, what is called and what it answers,
// and the bytes that a sink then has.
use crate::texts::{Call, call_of, columns_of, equal, holds, number, size};
use host_files::{ByteSink, ByteSource, Failed, Sink, Source, next_byte, put_all, put_pieces};
use std::alloc::{AllocError, Global};
use std::process::Abort;

/// A sink that takes at most two bytes a call.
#[derive(Drop)]
struct Narrow<'a, S: Sink> {
    sink: &'a mut S,
}

impl<'a, S: Sink> Sink for Narrow<'a, S> {
    ghost use Rattle.std.specs.Prelude.{false, []};

    ghost tells = { false };

    ghost written = { λ _. [] };

    ghost fault_count = { λ s. S.fault_count s.sink.now };

    fn write(&mut self, bytes: &[u8]) -> Result<usize, Failed> {
        self.sink.write(&bytes[..bytes.len().min(2)])
    }

    fn faults(&self) -> u64 {
        self.sink.faults()
    }
}

/// Plays a call.
fn act<S: Sink>(rt: &impl Abort, sink: &mut S, call: Call) {
    match call.verb {
        "faults" => equal(rt, &Some(sink.faults()), &number(call.answer), call.word),
        "write" => {
            let said = sink.write(call.first.as_bytes());
            equal(rt, &said, &size(call.answer).ok_or(Failed), call.word);
        }
        _ => holds(rt, puts(sink, call) == (call.answer == "ok"), call.word),
    }
}

/// Writes a piece, through a narrow sink, or pieces, and answers whether it could.
fn puts<S: Sink>(sink: &mut S, call: Call) -> bool {
    match call.verb {
        "put" => put_all(sink, call.first.as_bytes()).is_ok(),
        "narrow" => put_all(&mut Narrow { sink }, call.first.as_bytes()).is_ok(),
        _ => put_some(sink, call.first).is_ok(),
    }
}

/// Writes three pieces with commas between them, or none.
fn put_some<S: Sink>(sink: &mut S, pieces: &str) -> Result<(), Failed> {
    let Some((first, rest)) = pieces.split_once(',') else {
        return put_pieces(sink, &[]);
    };
    let (second, third) = rest.split_once(',').unwrap_or((rest, ""));
    put_pieces(
        sink,
        &[first.as_bytes(), second.as_bytes(), third.as_bytes()],
    )
}

/// Plays calls on a sink, also `fail=N`.
fn on_sink(rt: &impl Abort, sink: &mut ByteSink, calls: &str) -> Result<(), AllocError> {
    for word in calls.split_whitespace() {
        let call = call_of(word);
        if call.verb == "fail" {
            sink.fail_call(number(call.answer).unwrap_or(0))?;
        } else {
            act(rt, sink, call);
        }
    }
    Ok(())
}

/// A line on a sink, if there is memory for it.
fn writes(rt: &impl Abort, alloc: Global, line: &str) -> Option<()> {
    let row = columns_of(line);
    let mut sink = ByteSink::with_room(alloc, size(row.first).unwrap_or(0)).ok()?;
    on_sink(rt, &mut sink, row.second).ok()?;
    holds(rt, sink.bytes() == row.third.as_bytes(), line);
    Some(())
}

fn all_write(rt: &impl Abort, alloc: Global, table: &str) {
    for line in table.lines() {
        holds(rt, writes(rt, alloc, line).is_some(), line);
    }
}

/// Plays calls on a source, also `fail=N`.
fn on_source(rt: &impl Abort, source: &mut ByteSource, calls: &str) -> Result<(), AllocError> {
    for word in calls.split_whitespace() {
        let call = call_of(word);
        if call.verb == "fail" {
            source.fail_call(number(call.answer).unwrap_or(0))?;
        } else {
            look(rt, source, call);
        }
    }
    Ok(())
}

fn look<C: Source>(rt: &impl Abort, source: &mut C, call: Call) {
    match call.verb {
        "faults" => equal(rt, &Some(source.faults()), &number(call.answer), call.word),
        "next" => equal(rt, &next_byte(source), &next_answer(call.answer), call.word),
        _ => read(rt, source, call),
    }
}

fn next_answer(answer: &str) -> Result<Option<u8>, Failed> {
    match answer {
        "failed" => Err(Failed),
        "end" => Ok(None),
        byte => Ok(byte.bytes().next()),
    }
}

/// A read into so many bytes, of which those behind its own stay dashes.
fn read<C: Source>(rt: &impl Abort, source: &mut C, call: Call) {
    let mut buf = *b"---";
    let most = size(call.first).unwrap_or(0).min(3);
    let said = source.read(&mut buf[..most]);
    if call.answer == "failed" {
        equal(rt, &said, &Err(Failed), call.word);
    } else {
        let count = call.answer.trim_end_matches('-').len();
        equal(rt, &said, &Ok(count), call.word);
        holds(rt, &buf[..most] == call.answer.as_bytes(), call.word);
    }
}

/// A line on a source, if there is memory for it.
fn reads(rt: &impl Abort, alloc: Global, line: &str) -> Option<()> {
    let row = columns_of(line);
    let mut source = ByteSource::new(alloc, row.first.as_bytes()).ok()?;
    on_source(rt, &mut source, row.second).ok()
}

fn all_read(rt: &impl Abort, alloc: Global, table: &str) {
    for line in table.lines() {
        holds(rt, reads(rt, alloc, line).is_some(), line);
    }
}

// An empty piece needs no room.
const A_WRITE_TAKES_WHAT_THERE_IS_ROOM_FOR: &str =
    "5 | write@abc=3 write@defg=2 write@=0 faults=0 write@h=failed faults=1 | abcde";

const NAMED_WRITES_FAIL_AND_TAKE_NOTHING: &str =
    "8 | fail=9 fail=9 fail=9 write@a=1 write@b=1 write@c=1 write@d=1 faults=0 | abcd
8 | fail=0 fail=9 fail=9 write@a=failed write@a=1 write@b=1 write@c=1 faults=1 | abc
8 | fail=1 fail=1 fail=9 write@a=1 write@a=failed write@b=1 write@c=1 faults=1 | abc
8 | fail=3 fail=0 fail=2 write@a=failed write@a=1 write@a=failed write@a=failed faults=3 | a";

// The second number names a write of an empty piece.
const A_NUMBER_OF_A_WRITE_THAT_HAS_PASSED_CHANGES_NOTHING: &str =
    "2 | write@a=1 fail=0 fail=1 write@=failed write@b=1 faults=1 | ab";

const ALL_IS_WRITTEN_WHERE_NOTHING_FAILS: &str =
    "5 | put@abc=ok put@=ok put@de=ok faults=0 | abcde";

const A_PIECE_THAT_IS_TAKEN_IN_PARTS_IS_WRITTEN_WHOLE: &str =
    "8 | narrow@abcde=ok faults=0 | abcde";

const PIECES_ARE_WRITTEN_ONE_BEHIND_ANOTHER: &str = "6 | pieces@ab,,c=ok pieces@=ok faults=0 | abc
6 | fail=1 pieces@ab,c,d=failed faults=1 | ab";

const THE_FIRST_BYTES_STAY_WHERE_A_LATER_WRITE_FAILS: &str =
    "8 | fail=1 narrow@abcde=failed faults=1 | ab
3 | put@abcde=failed faults=1 | abc";

#[test]
fn bytes_and_pieces_are_written(rt: HostRuntime) {
    all_write(&rt, rt.alloc(), A_WRITE_TAKES_WHAT_THERE_IS_ROOM_FOR);
    all_write(&rt, rt.alloc(), NAMED_WRITES_FAIL_AND_TAKE_NOTHING);
    all_write(
        &rt,
        rt.alloc(),
        A_NUMBER_OF_A_WRITE_THAT_HAS_PASSED_CHANGES_NOTHING,
    );
    all_write(&rt, rt.alloc(), ALL_IS_WRITTEN_WHERE_NOTHING_FAILS);
    all_write(
        &rt,
        rt.alloc(),
        A_PIECE_THAT_IS_TAKEN_IN_PARTS_IS_WRITTEN_WHOLE,
    );
    all_write(&rt, rt.alloc(), PIECES_ARE_WRITTEN_ONE_BEHIND_ANOTHER);
    all_write(
        &rt,
        rt.alloc(),
        THE_FIRST_BYTES_STAY_WHERE_A_LATER_WRITE_FAILS,
    );
}

const A_READ_GIVES_AS_MANY_BYTES_AS_FIT: &str =
    "abcde | read@3=abc read@0= read@3=de- read@3=--- faults=0";

const NAMED_READS_FAIL_AND_TAKE_NOTHING: &str =
    "abc | fail=9 fail=9 fail=9 next=a next=b next=c next=end next=end faults=0
abc | fail=0 fail=9 fail=9 next=failed next=a next=b next=c next=end faults=1
abc | fail=1 fail=1 fail=9 next=a next=failed next=b next=c next=end faults=1
abc | fail=2 fail=0 fail=4 next=failed next=a next=failed next=b next=failed faults=3
abc | fail=3 fail=4 fail=2 next=a next=b next=failed next=failed next=failed faults=3";

// The second number names a read into an empty buffer.
const A_NUMBER_OF_A_READ_THAT_HAS_PASSED_CHANGES_NOTHING: &str =
    "ab | next=a fail=0 fail=1 read@0=failed next=b faults=1";

#[test]
fn bytes_are_read(rt: HostRuntime) {
    all_read(&rt, rt.alloc(), A_READ_GIVES_AS_MANY_BYTES_AS_FIT);
    all_read(&rt, rt.alloc(), NAMED_READS_FAIL_AND_TAKE_NOTHING);
    all_read(
        &rt,
        rt.alloc(),
        A_NUMBER_OF_A_READ_THAT_HAS_PASSED_CHANGES_NOTHING,
    );
}

/// Bytes of 0 and 255 are read, and then the end, twice.
fn next_bytes<C: Source>(rt: &impl Abort, source: &mut C) {
    const BYTES: [Option<u8>; 4] = [Some(0), Some(255), None, None];
    for wanted in BYTES.iter() {
        equal(rt, &next_byte(source), &Ok(*wanted), "0 and 255");
    }
}

#[test]
fn bytes_are_read_one_by_one(rt: HostRuntime) {
    match ByteSource::new(rt.alloc(), &[0, 255]) {
        Ok(mut source) => next_bytes(&rt, &mut source),
        Err(_) => holds(&rt, false, "the memory"),
    }
}
