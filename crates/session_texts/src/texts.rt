ghost use Rattle.std.specs.Prelude.{◌≡◌, IfOk, [], length};
ghost use Rattle.session_texts.specs.Scripts.{behind_failure};

use crate::script_stack::ScriptStack;
use expect_actions::Actions;
use std::alloc::{AllocError, Global};

/// The texts that are still to come beside the input's: the actions that wait, and the scripts that are open.
#[derive(Drop)]
pub struct Texts {
    pub actions: Actions,
    pub scripts: ScriptStack,
}

impl Texts {
    ghost use Rattle.session_texts.specs.Actions.{texts_of, coming, behind_refusal};

    /// None, and the room for all that can come.
    pub fn new(alloc: Global) -> Result<Texts, AllocError>
        ensures { IfOk result (λ texts. texts ≡ record { actions = []; scripts = [] }) }
    {
        Ok(Texts {
            actions: Actions::new(alloc)?,
            scripts: ScriptStack::new(alloc)?,
        })
    }

    /// Ends the scripts that a failed command ends. Where it ends one, no action waits any more.
    pub fn fail(&mut self, ends: bool)
        ensures { coming self.new ≡ texts_of
            (behind_refusal self.old.scripts (behind_failure ends self.old.scripts) self.old.actions)
            (behind_failure ends self.old.scripts) }
    {
        let before = self.scripts.len();
        self.scripts.fail(ends);
        if self.scripts.len() != before {
            self.actions.clear();
        }
    }
}
