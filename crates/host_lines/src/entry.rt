ghost use Rattle.std.specs.Prelude.{◌≡◌, ◌++◌, length, take, drop, min, IfOk};

use std::alloc::{AllocError, Global};
use std::marker::Model;

/// What a caller does.
#[derive(Clone, Copy, Debug, PartialEq, Eq)]
pub enum CallerAct {
    /// It connects to this port.
    Connects(u16),
    Sends,
    HangsUp,
}

/// Something that a caller does, not before a time, with the bytes of it that were not taken yet.
#[derive(Drop)]
pub struct Entry {
    time: u64,
    caller: u32,
    does: CallerAct,
    bytes: Vec<u8>,
    taken: usize,
}

impl Model for Entry {
    ghost use Rattle.std.specs.Prelude.{◌≤◌, drop, vec_len};
    ghost use Rattle.host_lines.specs.Traffic.{Happening};

    ghost Value = { Happening };

    ghost view = { λ e. record { time = e.time; caller = e.caller; does = e.does; bytes = drop e.taken e.bytes.items } };

    ghost invariant = { λ e. e.taken ≤ vec_len e.bytes };
}

impl Entry {
    pub(crate) fn new(
        alloc: Global,
        time: u64,
        caller: u32,
        does: CallerAct,
        bytes: &[u8],
    ) -> Result<Entry, AllocError>
        ensures { IfOk result (λ e. e ≡ record { time = time; caller = caller; does = does; bytes = bytes.now }) }
    {
        Ok(Entry {
            time,
            caller,
            does,
            bytes: Vec::from_slice(alloc, bytes)?,
            taken: 0,
        })
    }

    pub(crate) fn time(&self) -> u64
        ensures { result ≡ self.now.time }
    {
        self.time
    }

    pub(crate) fn caller(&self) -> u32
        ensures { result ≡ self.now.caller }
    {
        self.caller
    }

    pub(crate) fn does(&self) -> CallerAct
        ensures { result ≡ self.now.does }
    {
        self.does
    }

    /// How many of its bytes are left.
    pub(crate) fn len(&self) -> usize
        ensures { result ≡ length self.now.bytes }
    {
        self.bytes.len() - self.taken
    }

    /// Takes its first bytes, as many as fit into `buf`, and answers how many.
    pub(crate) fn take(&mut self, buf: &mut [u8]) -> usize
        ensures count { result ≡ min (length buf.old) (length self.old.bytes) }
        ensures bytes { buf.new ≡ take result self.old.bytes ++ drop result buf.old }
        ensures rest { self.new ≡ record self.old { bytes = drop result self.old.bytes } }
    {
        let count = buf.len().min(self.bytes.len() - self.taken);
        buf[..count].copy_from_slice(&self.bytes[self.taken..self.taken + count]);
        self.taken += count;
        count
    }
}
