ghost use Rattle.std.specs.Prelude.{◌≡◌};

use crate::texts::number;
use fault_counts::raised_count;
use host_files::{Bytes, Failed, WriteFault};
use std::alloc::{AllocError, Global};

/// An image for tests, whose reads give a few bytes at the most, and of whose calls, numbered from 0, one may fail. A
/// write that fails has written some bytes before.
#[derive(Drop)]
pub struct TestTape {
    pub bytes: Vec<u8>,
    pub made: u64,
    pub faults: u64,
    failing: Option<u64>,
    done: usize,
    most: usize,
}

impl TestTape {
    /// Whose reads give at most `most` bytes.
    pub fn new(alloc: Global, bytes: &[u8], most: usize) -> Result<TestTape, AllocError> {
        Ok(TestTape {
            bytes: Vec::from_slice(alloc, bytes)?,
            made: 0,
            faults: 0,
            failing: None,
            done: 0,
            most,
        })
    }

    /// Of the bytes of a text.
    pub fn of_text(alloc: Global, text: &str, most: usize) -> Result<TestTape, AllocError> {
        let mut tape = TestTape::new(alloc, &[], most)?;
        for digits in text.split_whitespace() {
            tape.bytes.push((number(digits).unwrap_or(0) % 256) as u8)?;
        }
        Ok(tape)
    }

    /// One of whose calls fails.
    pub fn failing(
        alloc: Global,
        bytes: &[u8],
        call: u64,
        done: usize,
    ) -> Result<TestTape, AllocError> {
        let mut tape = TestTape::new(alloc, bytes, usize::MAX)?;
        tape.failing = Some(call);
        tape.done = done;
        Ok(tape)
    }

    fn next_fails(&mut self) -> bool
        ensures { self.new.faults ≡ self.old.faults }
    {
        let fails = self.failing == Some(self.made);
        self.made = raised_count(self.made);
        fails
    }
}

// The most bytes that an image shows.
const SHOWN: usize = 1 << 26;

impl Bytes for TestTape {
    ghost use Rattle.std.specs.Prelude.{false, true, [], None};

    ghost tells = { false };

    ghost content = { λ _. [] };

    ghost writable = { λ _. true };

    ghost fault_count = { λ s. s.faults };

    ghost behind = { λ _. record {
      lender = None;
      file = 0;
      state = record { files = []; opened = []; given = 0; faults = λ _. 0; open_faults = 0 };
    } };

    fn length(&mut self) -> Result<u64, Failed> {
        if self.next_fails() {
            self.faults = raised_count(self.faults);
            return Err(Failed);
        }
        Ok(self.bytes.len().min(SHOWN) as u64)
    }

    fn read_at(&mut self, place: u64, buf: &mut [u8]) -> Result<usize, Failed> {
        if self.next_fails() {
            self.faults = raised_count(self.faults);
            return Err(Failed);
        }
        let end = self.bytes.len().min(SHOWN);
        if place >= end as u64 {
            return Ok(0);
        }
        let start = place as usize;
        let count = buf.len().min(end - start).min(self.most);
        buf[..count].copy_from_slice(&self.bytes[start..start + count]);
        Ok(count)
    }

    fn write_at(&mut self, place: u64, bytes: &[u8]) -> Result<(), WriteFault> {
        let fails = self.next_fails();
        let count = if fails {
            bytes.len().min(self.done)
        } else {
            bytes.len()
        };
        let start = place as usize;
        let end = start + count;
        let room = self.bytes.len() >= end || self.bytes.resize(end, 0).is_ok();
        if !room {
            self.faults = raised_count(self.faults);
            return Err(WriteFault { done: 0 });
        }
        self.bytes[start..end].copy_from_slice(&bytes[..count]);
        if fails {
            self.faults = raised_count(self.faults);
            return Err(WriteFault { done: count });
        }
        Ok(())
    }

    fn set_length(&mut self, length: u64) -> Result<(), Failed> {
        if self.next_fails() || self.bytes.resize(length as usize, 0).is_err() {
            self.faults = raised_count(self.faults);
            return Err(Failed);
        }
        Ok(())
    }

    fn faults(&self) -> u64 {
        self.faults
    }
}
