ghost use Rattle.std.specs.Prelude.{◌≤◌, length, IfOk};

// A sink over a writer that does what a test writes down.
use crate::texts::holds;
use host_adapters::WriterSink;
use host_files::{Failed, Sink, put_all};
use std::alloc::Global;
use std::io;
use std::io::{ErrorKind, Write};

/// What a writer does in one call, or in so many calls in a row.
#[derive(Clone, Copy)]
enum Step {
    Take(usize),
    Fail(ErrorKind, u32),
}

/// A writer that does these steps in turn, and then takes all of each piece.
#[derive(Drop)]
struct Scripted {
    steps: &'static [Step],
    failed: u32,
    bytes: Vec<u8>,
}

impl Scripted {
    fn new(alloc: Global, steps: &'static [Step]) -> Scripted {
        Scripted {
            steps,
            failed: 0,
            bytes: Vec::new(alloc),
        }
    }

    fn take(&mut self, piece: &[u8], most: usize) -> io::Result<usize>
        ensures { IfOk result (λ n. n ≤ length piece.now) }
    {
        let count = piece.len().min(most);
        self.bytes.extend_from_slice(&piece[..count])?;
        Ok(count)
    }
}

impl Write for Scripted {
    fn write(&mut self, piece: &[u8]) -> io::Result<usize> {
        let Some((step, later)) = self.steps.split_first() else {
            return self.take(piece, usize::MAX);
        };
        match *step {
            Step::Take(most) => {
                self.steps = later;
                self.take(piece, most)
            }
            Step::Fail(kind, times) => {
                self.failed = self.failed.saturating_add(1);
                if self.failed >= times {
                    self.steps = later;
                    self.failed = 0;
                }
                Err(io::Error::from(kind))
            }
        }
    }

    fn flush(&mut self) -> io::Result<()> {
        Ok(())
    }
}

const INTERRUPTED: ErrorKind = ErrorKind::Interrupted;

const FULL: ErrorKind = ErrorKind::StorageFull;

/// What a writer does where the text `abcd` is put twice; whether each was written whole, the bytes that arrived, and the
/// faults.
const CASES: [(&[Step], bool, bool, &str, u64); 8] = [
    (&[], true, true, "abcdabcd", 0),
    (&[Step::Take(1), Step::Take(2)], true, true, "abcdabcd", 0),
    (
        &[Step::Take(3), Step::Fail(FULL, 1)],
        false,
        true,
        "abcabcd",
        1,
    ),
    (&[Step::Take(1), Step::Take(0)], false, true, "aabcd", 1),
    (&[Step::Fail(FULL, 2)], false, false, "", 2),
    (&[Step::Fail(INTERRUPTED, 3)], true, true, "abcdabcd", 0),
    (&[Step::Fail(INTERRUPTED, 64)], true, true, "abcdabcd", 0),
    (
        &[Step::Take(2), Step::Fail(INTERRUPTED, 65)],
        false,
        true,
        "ababcd",
        1,
    ),
];

fn puts<S: Sink>(sink: &mut S, wanted: bool) -> bool {
    put_all(sink, b"abcd").is_ok() == wanted
}

/// Whether a sink over the writer answers so where the same text is put twice, and fails so often.
fn puts_twice(writer: &mut Scripted, first: bool, second: bool, faults: u64) -> bool {
    let mut sink = WriterSink::new(writer);
    puts(&mut sink, first) && puts(&mut sink, second) && sink.faults() == faults
}

fn arrives(alloc: Global, row: &(&'static [Step], bool, bool, &str, u64)) -> bool {
    let mut writer = Scripted::new(alloc, row.0);
    puts_twice(&mut writer, row.1, row.2, row.4) && writer.bytes.as_slice() == row.3.as_bytes()
}

#[test]
fn pieces_and_errors_arrive_in_order(rt: HostRuntime) {
    for row in CASES.iter() {
        holds(&rt, arrives(rt.alloc(), row), row.3);
    }
}

#[test]
fn an_empty_piece_is_not_handed_on(rt: HostRuntime) {
    let writer = Scripted::new(rt.alloc(), &[Step::Fail(ErrorKind::Other, 1)]);
    let mut sink = WriterSink::new(writer);
    holds(
        &rt,
        sink.write(b"") == Ok(0) && sink.write(b"a") == Err(Failed),
        "an empty piece",
    );
}
