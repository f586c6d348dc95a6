ghost use Rattle.std.specs.Prelude.{◌≡◌, IfOk};
ghost use Rattle.expect_actions.specs.Filled.{TablesAreFilled};
ghost use Rattle.expect_actions.specs.Watch.{empty_watch, forgotten};

use crate::breaks::Breaks;
use crate::expects::Expects;
use crate::sends::Sends;
use std::alloc::{AllocError, Global};
use std::marker::Model;

/// What a run watches besides the machine: the breaks and the expects at which it stops, and the bytes that wait for
/// the keyboard.
#[derive(Drop)]
pub struct Watch {
    pub breaks: Breaks,
    pub expects: Expects,
    pub sends: Sends,
}

impl Model for Watch {
    ghost use Rattle.expect_actions.specs.Watch.{WatchState};

    ghost Value = { WatchState };

    ghost view = { λ w. record { breaks = w.breaks; expects = w.expects; sends = w.sends } };
}

impl Watch {
    /// All tables are empty. The error is that there was no memory for them.
    pub fn new(alloc: Global) -> Result<Watch, AllocError>
        ensures { IfOk result (λ watch. watch ≡ empty_watch) }
    {
        Ok(Watch {
            breaks: Breaks::new(alloc)?,
            expects: Expects::new(alloc)?,
            sends: Sends::new(alloc)?,
        })
    }

    /// Lets go of the actions of the stop that came last: they were read.
    pub fn forget(&mut self)
        ensures { self.new ≡ forgotten self.old }
    {
        self.breaks.forget();
        self.expects.forget();
    }
}

/// The law that tables to which the entries of others are added in their order have the same entries: breaks with their
/// counts and actions, expects with theirs, and bytes each at its time.
pub fn tables_are_filled()
    ensures { TablesAreFilled }
{}
