ghost use Rattle.std.specs.Prelude.{◌≡◌, ◌≤◌, true, false, MatchResult, OnOk, OnErr};
ghost use Rattle.host_files.specs.Calls.{no_calls, next_fails, with_named, after_success, after_fault};
ghost use Rattle.fault_counts.specs.Faults.{raised, HasCause, CountsFault};

use fault_counts::raised_count;
use file_traits::Failed;
use std::alloc::{AllocError as OutOfMemory, Global};
use std::marker::Model;

/// The calls on an object in memory, numbered from 0, and which of them are to fail.
#[derive(Drop)]
pub struct Calls {
    made: u64,
    failing: Vec<u64>,
    faults: u64,
}

impl Model for Calls {
    ghost use Rattle.host_files.specs.Calls.{CallState};

    ghost Value = { CallState };

    ghost view = { λ c. record { made = c.made; failing = c.failing.items; faults = c.faults } };
}

impl Calls {
    /// No call was made, and none is to fail.
    pub fn new(alloc: Global) -> Calls
        ensures { result ≡ no_calls }
    {
        Calls {
            made: 0,
            failing: Vec::new(alloc),
            faults: 0,
        }
    }

    /// Names a call that is to fail. Where there is no memory, nothing changes.
    pub fn fail_call(&mut self, number: u64) -> Result<(), OutOfMemory>
        ensures ok { OnOk result (self.new ≡ with_named self.old number) }
        ensures refused { OnErr result (self.new ≡ self.old) }
    {
        if number >= self.made && !self.failing.contains(&number) {
            self.failing.push(number)?;
        }
        Ok(())
    }

    /// Counts the next call, and fails where it was named.
    pub fn begin(&mut self) -> Result<(), Failed>
        ensures exact { MatchResult result
            (λ _. (next_fails self.old ≡ false) × (self.new ≡ after_success self.old))
            (λ _. (next_fails self.old ≡ true) × (self.new ≡ after_fault self.old)) }
        ensures cause { HasCause self.old.faults self.new.faults result }
        ensures counts { CountsFault self.old.faults self.new.faults result }
    {
        let named = self.failing.contains(&self.made);
        self.made = raised_count(self.made);
        if named { Err(self.fault()) } else { Ok(()) }
    }

    /// Counts a fault of the call that was begun last.
    pub fn fault(&mut self) -> Failed
        ensures exact { self.new ≡ record self.old { faults = raised self.old.faults } }
        ensures later { self.old.faults ≤ self.new.faults }
    {
        self.faults = raised_count(self.faults);
        Failed
    }

    /// How often a call has failed.
    pub fn faults(&self) -> u64
        ensures { result ≡ self.now.faults }
    {
        self.faults
    }
}
