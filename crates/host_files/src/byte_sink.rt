ghost use Rattle.std.specs.Prelude.{◌≡◌, [], IfOk, OnOk, OnErr};
ghost use Rattle.fault_counts.specs.Faults.{HasCause, CountsFault};
ghost use Rattle.file_traits.specs.Streams.{WriteTakes, WriteAdds};
ghost use Rattle.host_files.specs.Calls.{no_calls, with_named};
ghost use Rattle.host_files.specs.ByteSink.{SinkWrites};

use crate::calls::Calls;
use file_traits::{Failed, Sink};
use std::alloc::{AllocError as OutOfMemory, Global};
use std::marker::Model;

/// A sink of bytes in memory, with room for so many. Its writes are numbered from 0, and those that were named fail.
#[derive(Drop)]
pub struct ByteSink {
    bytes: Vec<u8>,
    room_left: usize,
    calls: Calls,
}

impl Model for ByteSink {
    ghost use Rattle.std.specs.Prelude.{◌+◌, ◌≤◌, vec_len, vec_capacity};
    ghost use Rattle.host_files.specs.ByteSink.{SinkState};

    ghost Value = { SinkState };

    ghost view = { λ s. record { written = s.bytes.items; room_left = s.room_left; calls = s.calls } };

    ghost invariant = { λ s. vec_len s.bytes + s.room_left ≤ vec_capacity s.bytes };
}

impl ByteSink {
    /// An empty sink with room for so many bytes, none of whose writes is to fail. It takes the memory for them at
    /// once.
    pub fn with_room(alloc: Global, room: usize) -> Result<ByteSink, OutOfMemory>
        ensures { IfOk result (λ s. s ≡ record { written = []; room_left = room; calls = no_calls }) }
    {
        Ok(ByteSink {
            bytes: Vec::with_capacity(alloc, room)?,
            room_left: room,
            calls: Calls::new(alloc),
        })
    }

    /// Names a write that is to fail, by its number: a write of an empty piece counts too. A number that was named
    /// before, or whose write has passed, changes nothing, and neither does a call that finds no memory.
    pub fn fail_call(&mut self, number: u64) -> Result<(), OutOfMemory>
        ensures ok { OnOk result (self.new ≡ record self.old { calls = with_named self.old.calls number }) }
        ensures refused { OnErr result (self.new ≡ self.old) }
    {
        self.calls.fail_call(number)
    }

    /// The bytes that were written.
    pub fn bytes(&self) -> &[u8]
        ensures { result.now ≡ self.now.written }
    {
        self.bytes.as_slice()
    }
}

impl Sink for ByteSink {
    ghost use Rattle.std.specs.Prelude.{true};

    ghost tells = { true };

    ghost written = { λ s. s.written };

    ghost fault_count = { λ s. s.calls.faults };

    /// Takes as many of the first bytes as it has room for. It fails where its number was named, and where there is no
    /// room left for any byte of a piece that is not empty.
    fn write(&mut self, bytes: &[u8]) -> Result<usize, Failed>
        ensures exact { SinkWrites self.old bytes.now result self.new }
        ensures takes { WriteTakes result bytes.now }
        ensures adds { WriteAdds self.old.written result bytes.now self.new.written }
        ensures cause { HasCause self.old.calls.faults self.new.calls.faults result }
        ensures counts { CountsFault self.old.calls.faults self.new.calls.faults result }
    {
        self.calls.begin()?;
        let count = bytes.len().min(self.room_left);
        if count == 0 && !bytes.is_empty() {
            return Err(self.calls.fault());
        }
        // `with_room` took the memory for every byte that the room holds.
        self.bytes.extend_from_slice(&bytes[..count]).unwrap();
        self.room_left -= count;
        Ok(count)
    }

    fn faults(&self) -> u64
        ensures { result ≡ self.now.calls.faults }
    {
        self.calls.faults()
    }
}
