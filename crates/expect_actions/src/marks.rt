ghost use Rattle.std.specs.Prelude.{◌≡◌, ◌<◌, ◌^◌, length, slice_index_or, slice_set, false, IfOk};
ghost use Rattle.expect_actions.specs.Breaks.{NoMarks};

use nova_word::Addr;
use std::alloc::{AllocError, Global};
use std::marker::Model;

/// How many addresses there are.
const ADDRESSES: usize = 32768;

/// A mark for each address of memory, so that whether one is set is known by one load.
#[derive(Drop)]
pub(crate) struct Marks {
    list: Vec<bool>,
}

impl Model for Marks {
    ghost use Rattle.std.specs.Prelude.{◌≡◌, List, Bool, length};

    ghost Value = { List Bool };

    ghost view = { λ m. m.list.items };

    ghost invariant = { λ m. length m.list.items ≡ 32768 };
}

impl Marks {
    /// No mark is set. The error is that there was no memory.
    pub(crate) fn new(alloc: Global) -> Result<Marks, AllocError>
        ensures all { IfOk result (λ marks. length marks ≡ 32768) }
        ensures none { IfOk result (λ marks. NoMarks marks) }
    {
        Ok(Marks {
            list: no_marks(alloc, ADDRESSES)?,
        })
    }

    /// Whether the mark of an address is set.
    #[inline]
    pub(crate) fn get(&self, address: Addr) -> bool
        ensures mark { result ≡ slice_index_or self.now address false }
        ensures low { address < 2 ^ 15 }
    {
        self.list[usize::from(address.number())]
    }

    /// Sets the mark of an address, or takes it away.
    pub(crate) fn set(&mut self, address: Addr, mark: bool)
        ensures mark { self.new ≡ slice_set self.old address mark }
        ensures low { address < 2 ^ 15 }
    {
        self.list[usize::from(address.number())] = mark;
    }

    /// Takes all marks away.
    pub(crate) fn clear(&mut self)
        ensures all { length self.new ≡ 32768 }
        ensures none { NoMarks self.new }
    {
        take_away(self.list.as_mut_slice());
    }
}

// So many marks, of which none is set.
fn no_marks(alloc: Global, count: usize) -> Result<Vec<bool>, AllocError>
    ensures all { IfOk result (λ marks. length marks.items ≡ count) }
    ensures none { IfOk result (λ marks. NoMarks marks.items) }
{
    Vec::from_elem(alloc, false, count)
}

// Takes all marks away.
fn take_away(marks: &mut [bool])
    ensures { NoMarks marks.new }
{
    for mark in marks.iter_mut() {
        *mark = false;
    }
}
