ghost use Rattle.std.specs.Prelude.{◌≡◌, ℕ, ◌+◌, OnOk, OnErr, if◌then◌else◌};
ghost use Rattle.fault_counts.specs.Faults.{raised};
ghost use Rattle.host_lines.specs.MemLines.{no_calls, fails_of, next_number, with_failing};

use fault_counts::raised_count;
use std::alloc::{AllocError, Global};
use std::marker::Model;

/// The calls that were made on lines in memory, numbered from 0, and which are to fail.
#[derive(Drop)]
pub struct Calls {
    // None once every number was used.
    next: Option<u64>,
    failing: Vec<u64>,
    faults: u64,
}

impl Model for Calls {
    ghost use Rattle.host_lines.specs.MemLines.{CallState};

    ghost Value = { CallState };

    ghost view = { λ c. record { next = c.next; failing = c.failing.items; faults = c.faults } };
}

impl Calls {
    pub(crate) fn new(alloc: Global) -> Calls
        ensures { result ≡ no_calls }
    {
        Calls {
            next: Some(0),
            failing: Vec::new(alloc),
            faults: 0,
        }
    }

    /// Names a call that is to fail. Where there is no memory, nothing changes.
    pub(crate) fn fail_call(&mut self, number: u64) -> Result<(), AllocError>
        ensures ok { OnOk result (self.new ≡ with_failing number self.old) }
        ensures refused { OnErr result (self.new ≡ self.old) }
    {
        self.failing.push(number)?;
        Ok(())
    }

    /// Begins the next call, answers whether it is to fail, and counts that.
    pub(crate) fn begin(&mut self) -> bool
        ensures fails { result ≡ fails_of self.old 0 }
        ensures later { fails_of self.new ≡ (λ k. fails_of self.old (k + 1)) }
        ensures counts { self.new.faults ≡ (if result then raised self.old.faults else self.old.faults) }
    {
        let Some(number) = self.next else {
            return false;
        };
        self.next = after(number);
        let fails = self.failing.contains(&number);
        if fails {
            self.faults = raised_count(self.faults);
        }
        fails
    }

    pub(crate) fn faults(&self) -> u64
        ensures { result ≡ self.now.faults }
    {
        self.faults
    }
}

/// The number behind a number: none behind the last.
fn after(number: u64) -> Option<u64>
    ensures { result ≡ next_number number }
{
    if number == u64::MAX {
        None
    } else {
        Some(number + 1)
    }
}
