ghost use Rattle.std.specs.Prelude.{◌≡◌, ℕ, List, max, ◌+◌, ◌^◌, ◌<◌, ◌≤◌, ◌++◌, ◌↔◌, [], length, is_some, slice_get};
ghost use Rattle.std.specs.Prelude.{IfOk, OnOk, OnErr, IsErr, IsTrue};
ghost use Rattle.std.specs.VecDeque.{deque_capacity};
ghost use Rattle.expect_actions.specs.Sends.{last_queued, timed, queued, due_send, sends_left};
ghost use Rattle.expect_actions.specs.Sends.{SendsStayInTime, LeftStaysInTime};

use crate::full::Full;
use std::alloc::{AllocError, Global};
use std::collections::VecDeque;
use std::marker::Model;

/// How many bytes wait at most.
const MOST_SENDS: usize = 4096;

/// The largest time of a byte, in instructions.
const LAST_TIME: u64 = 1 << 62;

/// The bytes that SEND queues for the keyboard, in the order in which they are taken, each with the time from which on
/// it can be. Times are in instructions. It holds 4096 bytes at most.
#[derive(Drop)]
pub struct Sends {
    list: VecDeque<(u64, u8)>,
}

impl Model for Sends {
    ghost use Rattle.std.specs.Prelude.{List, ◌≤◌, length};
    ghost use Rattle.std.specs.VecDeque.{deque_capacity};
    ghost use Rattle.expect_actions.specs.Sends.{Send};

    ghost Value = { List Send };

    ghost view = { λ s. s.list.items };

    ghost invariant = { λ s. (length s.list.items ≤ 4096) × (4096 ≤ deque_capacity s.list) };
}

impl Sends {
    /// No byte, and room for all that can wait, so that no other call takes memory; the error is that there was no
    /// memory for it.
    pub fn new(alloc: Global) -> Result<Sends, AllocError>
        ensures { IfOk result (λ sends. sends ≡ []) }
    {
        Ok(Sends {
            list: VecDeque::with_capacity(alloc, MOST_SENDS)?,
        })
    }

    /// Queues the bytes of a text. The first is due `after` instructions after now, or after the last byte that is
    /// still queued where that is later, and each further one `delay` later than the byte before it; a time past 2^62
    /// becomes 2^62. `Full` comes exactly where more than 4096 bytes would wait, and then none is queued.
    pub fn add(&mut self, now: u64, after: u32, delay: u32, text: &[u8]) -> Result<(), Full>
        ensures full { IsErr result ↔ (4096 < length self.old + length text.now) }
        ensures ok { OnOk result (self.new ≡ queued now after delay text.now self.old) }
        ensures err { OnErr result (self.new ≡ self.old) }
    {
        if text.len() > MOST_SENDS - self.list.len() {
            return Err(Full);
        }
        let time = first_time(now, last_queued(&self.list), after);
        queue(&mut self.list, time, delay, text);
        Ok(())
    }

    /// Removes the first byte and answers it, where one waits and its time is at most `now`.
    pub fn take(&mut self, now: u64) -> Option<u8>
        ensures byte { result ≡ due_send now self.old }
        ensures rest { self.new ≡ sends_left now self.old }
    {
        if !is_due(&self.list, now) {
            return None;
        }
        match self.list.pop_front() {
            Some(send) => Some(send.1),
            None => None,
        }
    }

    /// The time and the byte of an entry by its place from 0; None exactly past the last one.
    pub fn in_order(&self, k: usize) -> Option<(u64, u8)>
        ensures { result ≡ slice_get self.now k }
    {
        self.list.get(k).copied()
    }

    /// How many bytes wait.
    pub fn len(&self) -> usize
        ensures length { result ≡ length self.now }
        ensures most { result ≤ 4096 }
    {
        self.list.len()
    }

    /// Whether no byte waits.
    pub fn is_empty(&self) -> bool
        ensures { IsTrue result ↔ (self.now ≡ []) }
    {
        self.len() == 0
    }

    /// Removes all bytes.
    pub fn clear(&mut self)
        ensures { self.new ≡ [] }
    {
        self.list.clear();
    }
}

/// The law that the times of the bytes do not fall, and that none is past 2^62.
pub fn sends_stay_in_time()
    ensures queued { SendsStayInTime }
    ensures left { LeftStaysInTime }
{}

// The time of the last byte that is still queued.
fn last_queued(list: &VecDeque<(u64, u8)>) -> u64
    ensures { result ≡ last_queued list.now.items }
{
    match list.back() {
        Some(send) => send.0,
        None => 0,
    }
}

// The time of the first byte of a text, up to the largest.
fn first_time(now: u64, last: u64, after: u32) -> u64
    ensures within { result ≤ 2 ^ 62 }
    ensures time { (delay : ℕ) (text : List ℕ) → timed result delay text ≡ timed (max now last + after) delay text }
{
    (now.max(last).min(LAST_TIME) + u64::from(after)).min(LAST_TIME)
}

// Puts the bytes of a text behind the others. There is room.
fn queue(list: &mut VecDeque<(u64, u8)>, time: u64, delay: u32, text: &[u8])
    requires within { time ≤ 2 ^ 62 }
    requires room { length list.old.items + length text.now ≤ 4096 }
    requires capacity { 4096 ≤ deque_capacity list.old }
    ensures items { list.new.items ≡ list.old.items ++ timed time delay text.now }
    ensures room { length list.new.items ≤ 4096 }
    ensures capacity { 4096 ≤ deque_capacity list.new }
{
    let mut due = time;
    for b in text {
        let _ = list.push_back((due, *b));
        due = (due + u64::from(delay)).min(LAST_TIME);
    }
}

// Whether the first byte can be taken.
fn is_due(list: &VecDeque<(u64, u8)>, now: u64) -> bool
    ensures { result ≡ is_some (due_send now list.now.items) }
{
    match list.front() {
        Some(send) => send.0 <= now,
        None => false,
    }
}
