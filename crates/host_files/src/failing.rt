ghost use Rattle.std.specs.Prelude.{◌≡◌, OnOk, OnErr};
ghost use Rattle.host_files.specs.MemFiles.{no_failing, failing_at, next_fails, with_failing, begun};

use fault_counts::raised_count;
use std::alloc::{AllocError as OutOfMemory, Global};
use std::marker::Model;

/// The calls on files in memory, numbered from 0, and which of them are to fail.
#[derive(Drop)]
pub struct Failing {
    made: u64,
    failing: Vec<(u64, usize)>,
}

impl Model for Failing {
    ghost use Rattle.host_files.specs.MemFiles.{FailingState};

    ghost Value = { FailingState };

    ghost view = { λ c. record { made = c.made; failing = c.failing.items } };
}

impl Failing {
    /// No call was made, and none is to fail.
    pub(crate) fn new(alloc: Global) -> Failing
        ensures { result ≡ no_failing }
    {
        Failing {
            made: 0,
            failing: Vec::new(alloc),
        }
    }

    /// Names a call that is to fail, and how many bytes it writes if it is a write. Where there is no memory, nothing
    /// changes.
    pub(crate) fn fail_call(&mut self, number: u64, done: usize) -> Result<(), OutOfMemory>
        ensures ok { OnOk result (self.new ≡ with_failing self.old number done) }
        ensures refused { OnErr result (self.new ≡ self.old) }
    {
        if number >= self.made && failing_at(self.failing.as_slice(), number).is_none() {
            self.failing.push((number, done))?;
        }
        Ok(())
    }

    /// Counts the next call. Where it is to fail, it answers how many bytes a write writes.
    pub(crate) fn begin(&mut self) -> Option<usize>
        ensures fails { result ≡ next_fails self.old }
        ensures counts { self.new ≡ begun self.old }
    {
        let done = failing_at(self.failing.as_slice(), self.made);
        self.made = raised_count(self.made);
        done
    }
}

/// How many bytes the call with that number writes, where it is to fail.
fn failing_at(failing: &[(u64, usize)], number: u64) -> Option<usize>
    ensures { result ≡ failing_at failing.now number }
{
    match failing.split_first() {
        None => None,
        Some((first, rest)) => {
            if first.0 == number {
                Some(first.1)
            } else {
                failing_at(rest, number)
            }
        }
    }
}
