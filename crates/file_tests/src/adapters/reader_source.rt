// A source over a reader that does what a test writes down.
use crate::texts::holds;
use host_adapters::ReaderSource;
use host_files::{Source, next_byte};
use std::alloc::Global;
use std::io;
use std::io::{ErrorKind, Read};
use std::test::Fail;

/// What a reader does in one call, or in so many calls in a row.
#[derive(Clone, Copy)]
enum Step {
    Give(&'static [u8]),
    End,
    Fail(ErrorKind, u32),
}

/// A reader that does these steps in turn, and then is at its end.
#[derive(Drop)]
struct Scripted {
    steps: &'static [Step],
    failed: u32,
}

impl Scripted {
    fn new(steps: &'static [Step]) -> Scripted {
        Scripted { steps, failed: 0 }
    }
}

impl Read for Scripted {
    fn read(&mut self, buf: &mut [u8]) -> io::Result<usize> {
        let Some((step, later)) = self.steps.split_first() else {
            return Ok(0);
        };
        if let Step::Fail(kind, times) = *step {
            self.failed = self.failed.saturating_add(1);
            if self.failed >= times {
                self.steps = later;
                self.failed = 0;
            }
            return Err(io::Error::from(kind));
        }
        self.steps = later;
        match *step {
            Step::Give(bytes) => {
                let count = bytes.len().min(buf.len());
                buf[..count].copy_from_slice(&bytes[..count]);
                Ok(count)
            }
            _ => Ok(0),
        }
    }
}

const INTERRUPTED: ErrorKind = ErrorKind::Interrupted;

const BROKEN: ErrorKind = ErrorKind::Other;

/// What a reader does; what each call of its source gives, where `!` is one that failed, and `.` one at the end; and the
/// source's faults then. The reader gives away bytes that don't fit its caller's buffer, so they come only where they
/// were read ahead.
const CASES: [(&[Step], &str, u64); 8] = [
    (&[], "..", 0),
    (&[Step::Give(b"abc"), Step::Give(b"d")], "abcd..", 0),
    (
        &[Step::Give(b"ab"), Step::End, Step::Give(b"c")],
        "ab.c.",
        0,
    ),
    (
        &[Step::Give(b"ab"), Step::Fail(BROKEN, 1), Step::Give(b"c")],
        "ab!c.",
        1,
    ),
    (&[Step::Fail(BROKEN, 2), Step::Give(b"a")], "!!a.", 2),
    (&[Step::Fail(INTERRUPTED, 3), Step::Give(b"a")], "a.", 0),
    (&[Step::Fail(INTERRUPTED, 64), Step::Give(b"a")], "a.", 0),
    (&[Step::Fail(INTERRUPTED, 65), Step::Give(b"a")], "!a.", 1),
];

/// What one call gives, in that writing.
fn given<S: Source>(source: &mut S) -> u8 {
    match next_byte(source) {
        Ok(Some(byte)) => byte,
        Ok(None) => b'.',
        Err(_) => b'!',
    }
}

/// Whether calls one by one give that, and fail so often.
fn gives<S: Source>(source: &mut S, wanted: &[u8], faults: u64) -> bool {
    for byte in wanted.iter() {
        if given(source) != *byte {
            return false;
        }
    }
    source.faults() == faults
}

/// Whether a source over a reader that does these steps gives that; memory is ample.
fn comes(alloc: Global, steps: &'static [Step], wanted: &str, faults: u64) -> bool {
    match ReaderSource::new(alloc, Scripted::new(steps)) {
        Ok(source) => {
            let mut source = source;
            gives(&mut source, wanted.as_bytes(), faults)
        }
        Err(_) => false,
    }
}

#[test]
fn bytes_ends_and_errors_come_in_the_readers_order(rt: HostRuntime) {
    for row in CASES.iter() {
        holds(&rt, comes(rt.alloc(), row.0, row.1, row.2), row.1);
    }
}

#[test]
fn an_empty_buffer_asks_for_nothing(rt: HostRuntime) -> Result<(), Fail> {
    let reader = Scripted::new(&[Step::Fail(BROKEN, 1), Step::Give(b"a")]);
    let mut source = ReaderSource::new(rt.alloc(), reader)?;
    holds(
        &rt,
        source.read(&mut []) == Ok(0) && gives(&mut source, b"!a", 1),
        "an empty buffer",
    );
    Ok(())
}
