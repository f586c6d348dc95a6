ghost use Rattle.std.specs.Prelude.{◌≡◌, ◌≤◌, length, IsTrue, IfOk, OnOk, OnErr};
ghost use Rattle.fault_counts.specs.Faults.{HasCause, CountsFault};
ghost use Rattle.file_traits.specs.Streams.{ReadTakes, LeavesFree};
ghost use Rattle.host_files.specs.Calls.{no_calls, with_named};
ghost use Rattle.host_files.specs.ByteSource.{SourceReads};

use crate::calls::Calls;
use file_traits::{Failed, Source};
use std::alloc::{AllocError as OutOfMemory, Global};
use std::marker::Model;

/// A source of bytes in memory. Its reads are numbered from 0, and those that were named fail.
#[derive(Drop)]
pub struct ByteSource {
    bytes: Vec<u8>,
    place: usize,
    calls: Calls,
}

impl Model for ByteSource {
    ghost use Rattle.std.specs.Prelude.{◌≤◌, drop, vec_len};
    ghost use Rattle.host_files.specs.ByteSource.{SourceState};

    ghost Value = { SourceState };

    ghost view = { λ s. record { left = drop s.place s.bytes.items; calls = s.calls } };

    ghost invariant = { λ s. s.place ≤ vec_len s.bytes };
}

impl ByteSource {
    /// A source of these bytes, none of whose reads is to fail.
    pub fn new(alloc: Global, bytes: &[u8]) -> Result<ByteSource, OutOfMemory>
        ensures { IfOk result (λ s. s ≡ record { left = bytes.now; calls = no_calls }) }
    {
        Ok(ByteSource {
            bytes: Vec::from_slice(alloc, bytes)?,
            place: 0,
            calls: Calls::new(alloc),
        })
    }

    /// Names a read that is to fail, by its number: a read into an empty buffer counts too. A number that was named
    /// before, or whose read has passed, changes nothing, and neither does a call that finds no memory.
    pub fn fail_call(&mut self, number: u64) -> Result<(), OutOfMemory>
        ensures ok { OnOk result (self.new ≡ record self.old { calls = with_named self.old.calls number }) }
        ensures refused { OnErr result (self.new ≡ self.old) }
    {
        self.calls.fail_call(number)
    }
}

impl Source for ByteSource {
    ghost use Rattle.std.specs.Prelude.{true};

    ghost tells = { true };

    ghost left = { λ s. s.left };

    ghost fault_count = { λ s. s.calls.faults };

    /// Gives as many of the bytes left as fit the buffer, and fails exactly where its number was named.
    fn read(&mut self, buf: &mut [u8]) -> Result<usize, Failed>
        ensures exact { SourceReads self.old buf.old result buf.new self.new }
        ensures bound { IfOk result (λ n. n ≤ length buf.new) }
        ensures lent { LeavesFree result buf.old buf.new }
        ensures bytes { ReadTakes self.old.left result buf.new self.new.left }
        ensures cause { HasCause self.old.calls.faults self.new.calls.faults result }
        ensures counts { CountsFault self.old.calls.faults self.new.calls.faults result }
    {
        self.calls.begin()?;
        let count = buf.len().min(self.bytes.len() - self.place);
        buf[..count].copy_from_slice(&self.bytes[self.place..self.place + count]);
        self.place += count;
        Ok(count)
    }

    fn faults(&self) -> u64
        ensures { result ≡ self.now.calls.faults }
    {
        self.calls.faults()
    }
}
