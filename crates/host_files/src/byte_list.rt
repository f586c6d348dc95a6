ghost use Rattle.std.specs.Prelude.{◌≡◌, ◌+◌, ◌-◌, ◌≤◌, ◌↔◌, ◌||◌, true, false, nat_lt, is_some, length, take, IsTrue, IsSome, IsErr, IfOk, IfErr, OnOk, OnErr};
ghost use Rattle.fault_counts.specs.Faults.{CountsFault};
ghost use Rattle.file_traits.specs.Lists.{overwritten, resized};
ghost use Rattle.file_traits.specs.FileCalls.{Reads, written_count};
ghost use Rattle.host_files.specs.MemFiles.{no_failing, next_fails, with_failing, begun, has_room, piece_result};
ghost use Rattle.file_traits.specs.OneList.{longest_list, shown};
ghost use Rattle.file_traits.specs.Streams.{LeavesFree};
ghost use Rattle.host_files.specs.ByteList.{nothing_behind};

use crate::failing::Failing;
use crate::mem_file::{read_from, resize_to, write_into};
use crate::mem_files::AddFault;
use fault_counts::raised_count;
use file_traits::{Bytes, Failed, WriteFault};
use std::alloc::{AllocError as OutOfMemory, Global};
use std::marker::Model;

/// A list of bytes in memory, with room for so many. Its calls are numbered from 0, and those that were named fail.
#[derive(Drop)]
pub struct ByteList {
    bytes: Vec<u8>,
    room: usize,
    calls: Failing,
    faults: u64,
}

impl Model for ByteList {
    ghost use Rattle.std.specs.Prelude.{◌≤◌, vec_len, vec_capacity};
    ghost use Rattle.file_traits.specs.OneList.{longest_list};
    ghost use Rattle.host_files.specs.ByteList.{ListState};

    ghost Value = { ListState };

    ghost view = { λ l. record { bytes = l.bytes.items; room = l.room; calls = l.calls; faults = l.faults } };

    ghost invariant = { λ l. (vec_len l.bytes ≤ l.room) × (l.room ≤ vec_capacity l.bytes) × (l.room ≤ longest_list) };
}

impl ByteList {
    ghost use Rattle.host_files.specs.MemView.{is_too_long};

    /// A list of these bytes, with room for so many in all, none of whose calls is to fail. It takes the memory for the
    /// room at once.
    pub fn new(alloc: Global, bytes: &[u8], room: usize) -> Result<ByteList, AddFault>
        requires { room ≤ longest_list }
        ensures list { IfOk result (λ l. l ≡ record { bytes = bytes.now; room = room; calls = no_failing; faults = 0 }) }
        ensures long { is_too_long result ≡ nat_lt room (length bytes.now) }
    {
        if bytes.len() > room {
            return Err(AddFault::TooLong);
        }
        let mut held = match Vec::with_capacity(alloc, room) {
            Err(OutOfMemory) => return Err(AddFault::OutOfMemory),
            Ok(held) => held,
        };
        held.extend_from_slice(bytes).unwrap();
        Ok(ByteList {
            bytes: held,
            room,
            calls: Failing::new(alloc),
            faults: 0,
        })
    }

    /// Names a call of `Bytes` that is to fail, by its number; `faults` is no such call. Where it is a write, it writes
    /// so many first bytes of its piece, or all where the piece is shorter, if they have room. A number that was named
    /// before, or whose call has passed, changes nothing, and neither does a call that finds no memory.
    pub fn fail_call(&mut self, number: u64, done: usize) -> Result<(), OutOfMemory>
        ensures ok { OnOk result (self.new ≡ record self.old { calls = with_failing self.old.calls number done }) }
        ensures refused { OnErr result (self.new ≡ self.old) }
    {
        self.calls.fail_call(number, done)
    }

    /// Its bytes.
    pub fn bytes(&self) -> &[u8]
        ensures { result.now ≡ self.now.bytes }
    {
        self.bytes.as_slice()
    }

    /// Writes a piece, where there is room for it, and answers whether there is.
    fn store(&mut self, place: u64, piece: &[u8]) -> bool
        ensures written { result ≡ true → self.new ≡ record self.old { bytes = overwritten self.old.bytes place piece.now } }
        ensures same { result ≡ false → self.new ≡ self.old }
        ensures room { result ≡ has_room self.old.room place (length piece.now) }
    {
        let room = self.room as u64;
        if place > room || room - place < piece.len() as u64 {
            return false;
        }
        write_into(&mut self.bytes, place as usize, piece);
        true
    }
}

impl Bytes for ByteList {
    ghost tells = { true };

    ghost content = { λ l. l.bytes };

    ghost writable = { λ l. true };

    ghost fault_count = { λ l. l.faults };

    ghost behind = { λ l. nothing_behind };

    fn length(&mut self) -> Result<u64, Failed>
        ensures length { IfOk result (λ n. n ≡ length (shown self.old.bytes)) }
        ensures bound { IfOk result (λ n. n ≤ longest_list) }
        ensures same { self.new.bytes ≡ self.old.bytes }
        ensures counts { CountsFault self.old.faults self.new.faults result }
        ensures exact { IsErr result ↔ IsSome (next_fails self.old.calls) }
        ensures calls { self.new.calls ≡ begun self.old.calls }
        ensures room { self.new.room ≡ self.old.room }
    {
        if self.calls.begin().is_some() {
            self.faults = raised_count(self.faults);
            return Err(Failed);
        }
        Ok(self.bytes.len() as u64)
    }

    fn read_at(&mut self, place: u64, buf: &mut [u8]) -> Result<usize, Failed>
        ensures bound { IfOk result (λ n. n ≤ length buf.new) }
        ensures lent { LeavesFree result buf.old buf.new }
        ensures kept { OnErr result (buf.new ≡ buf.old) }
        ensures end { IfOk result (λ n. n ≤ longest_list - place) }
        ensures reads { Reads (shown self.old.bytes) place result buf.new }
        ensures same { self.new.bytes ≡ self.old.bytes }
        ensures counts { CountsFault self.old.faults self.new.faults result }
        ensures exact { IsErr result ↔ IsSome (next_fails self.old.calls) }
        ensures calls { self.new.calls ≡ begun self.old.calls }
        ensures room { self.new.room ≡ self.old.room }
    {
        if self.calls.begin().is_some() {
            self.faults = raised_count(self.faults);
            return Err(Failed);
        }
        Ok(read_from(self.bytes.as_slice(), place, buf))
    }

    fn write_at(&mut self, place: u64, bytes: &[u8]) -> Result<(), WriteFault>
        requires end { place + length bytes.now ≤ longest_list }
        ensures bound { IfErr result (λ f. f.done ≤ length bytes.now) }
        ensures content { self.new.bytes
            ≡ overwritten self.old.bytes place (take (written_count result bytes.now) bytes.now) }
        ensures counts { CountsFault self.old.faults self.new.faults result }
        ensures exact { result ≡ piece_result self.old.calls self.old.room place (length bytes.now) }
        ensures calls { self.new.calls ≡ begun self.old.calls }
        ensures room { self.new.room ≡ self.old.room }
    {
        match self.calls.begin() {
            None => {
                if self.store(place, bytes) {
                    return Ok(());
                }
                self.faults = raised_count(self.faults);
                Err(WriteFault { done: 0 })
            }
            Some(done) => {
                let count = done.min(bytes.len());
                let stored = self.store(place, &bytes[..count]);
                self.faults = raised_count(self.faults);
                Err(WriteFault {
                    done: if stored { count } else { 0 },
                })
            }
        }
    }

    fn set_length(&mut self, length: u64) -> Result<(), Failed>
        requires end { length ≤ longest_list }
        ensures set { OnOk result (self.new.bytes ≡ resized self.old.bytes length) }
        ensures refused { OnErr result (self.new.bytes ≡ self.old.bytes) }
        ensures counts { CountsFault self.old.faults self.new.faults result }
        ensures exact { IsErr result ↔ IsTrue (is_some (next_fails self.old.calls) || nat_lt self.old.room length) }
        ensures calls { self.new.calls ≡ begun self.old.calls }
        ensures room { self.new.room ≡ self.old.room }
    {
        if self.calls.begin().is_some() || length > self.room as u64 {
            self.faults = raised_count(self.faults);
            return Err(Failed);
        }
        resize_to(&mut self.bytes, length as usize);
        Ok(())
    }

    fn faults(&self) -> u64
        ensures { result ≡ self.now.faults }
    {
        self.faults
    }
}
