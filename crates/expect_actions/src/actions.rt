ghost use Rattle.std.specs.Prelude.{◌≡◌, ◌+◌, ◌<◌, ◌≤◌, ◌++◌, ◌↔◌, [], length, drop, slice_get, option_map};
ghost use Rattle.std.specs.Prelude.{IfOk, IfSome, OnOk, OnErr, IsErr, IsTrue};
ghost use Rattle.std.specs.VecDeque.{deque_capacity};
ghost use Rattle.expect_actions.specs.Actions.{split, first_written, ActionsMakeTheText, ActionsAreWhole};

use crate::full::Full;
use crate::splits::{count_actions, split_action};
use crate::texts::text_of;
use line_text::Text;
use std::alloc::{AllocError, Global};
use std::collections::VecDeque;
use std::marker::Model;

/// How many actions wait at most.
const MOST_ACTIONS: usize = 64;

/// The actions that wait to be done, in their order: 64 at most, each a text of at most 512 bytes.
#[derive(Drop)]
pub struct Actions {
    list: VecDeque<Text<512>>,
}

impl Model for Actions {
    ghost use Rattle.std.specs.Prelude.{ℕ, List, ◌≤◌, length};
    ghost use Rattle.std.specs.VecDeque.{deque_capacity};

    ghost Value = { List (List ℕ) };

    ghost view = { λ a. a.list.items };

    ghost invariant = { λ a. (length a.list.items ≤ 64) × (64 ≤ deque_capacity a.list) };
}

impl Actions {
    /// No action, and room for all that can wait, so that no other call takes memory; the error is that there was no
    /// memory for it.
    pub fn new(alloc: Global) -> Result<Actions, AllocError>
        ensures { IfOk result (λ actions. actions ≡ []) }
    {
        Ok(Actions {
            list: VecDeque::with_capacity(alloc, MOST_ACTIONS)?,
        })
    }

    /// Puts the actions of a text in front of those that wait. The text is split at each `;` outside of quotes; within
    /// quotes `\"` and `\\` stand for one byte, and a quote that is not closed covers the rest. An empty text has no
    /// action, an empty piece of another is one. `Full` comes exactly where more than 64 would wait, and then none of
    /// them is taken.
    pub fn put_first(&mut self, actions: &[u8]) -> Result<(), Full>
        requires { length actions.now ≤ 512 }
        ensures full { IsErr result ↔ (64 < length self.old + length (split actions.now)) }
        ensures ok { OnOk result (self.new ≡ split actions.now ++ self.old) }
        ensures err { OnErr result (self.new ≡ self.old) }
    {
        let count = count_actions(actions);
        if count > MOST_ACTIONS - self.list.len() {
            return Err(Full);
        }
        put_all(&mut self.list, actions, count);
        Ok(())
    }

    /// Moves the first action into `out`, and answers how many bytes it has. None comes exactly where none waits, and
    /// leaves `out`.
    pub fn take(&mut self, out: &mut [u8; 512]) -> Option<usize>
        ensures count { result ≡ option_map length (slice_get self.old 0) }
        ensures short { IfSome result (λ count. count ≤ 512) }
        ensures text { out.new ≡ first_written self.old out.old }
        ensures rest { self.new ≡ drop 1 self.old }
    {
        match self.list.pop_front() {
            Some(action) => {
                let _bytes = action.len();
                Some(action.copy_to(out))
            }
            None => None,
        }
    }

    /// How many actions wait.
    pub fn len(&self) -> usize
        ensures length { result ≡ length self.now }
        ensures most { result ≤ 64 }
    {
        self.list.len()
    }

    /// Whether no action waits.
    pub fn is_empty(&self) -> bool
        ensures { IsTrue result ↔ (self.now ≡ []) }
    {
        self.len() == 0
    }

    /// Removes all actions.
    pub fn clear(&mut self)
        ensures { self.new ≡ [] }
    {
        self.list.clear();
    }
}

/// The law of how a text is split: its actions, with a `;` between one and the next, are the text, and none has a `;`
/// outside of quotes.
pub fn actions_are_pieces()
    ensures text { ActionsMakeTheText }
    ensures whole { ActionsAreWhole }
{}

// Puts the actions of a text, which has so many, in front of the others. There is room.
fn put_all(list: &mut VecDeque<Text<512>>, text: &[u8], count: usize)
    requires count { count ≡ length (split text.now) }
    requires short { length text.now ≤ 512 }
    requires room { length list.old.items + count ≤ 64 }
    requires capacity { 64 ≤ deque_capacity list.old }
    ensures items { list.new.items ≡ split text.now ++ list.old.items }
    ensures room { length list.new.items ≤ 64 }
    ensures capacity { 64 ≤ deque_capacity list.new }
{
    let mut rest = text;
    for at in 0..count {
        let (action, others) = split_action(rest);
        let _ = list.insert(at, text_of(action));
        rest = others;
    }
}
