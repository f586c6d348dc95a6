ghost use Rattle.std.specs.Prelude.{◌≡◌, ◌<◌, ◌≤◌, ◌++◌, ◌∷◌, ◌↔◌, [], Some, length, nat_lt, drop, remove, slice_get, slice_index_or, slice_set};
ghost use Rattle.std.specs.Prelude.{IfOk, IfSome, OnOk, OnErr, IsNone, if◌then◌else◌};
ghost use Rattle.expect_actions.specs.declared.full.AddFault.{AddFault};
ghost use Rattle.expect_actions.specs.Expects.{table, expect_of, most_expects, longest_text, with_expect, no_expects};
ghost use Rattle.expect_actions.specs.Expects.{first_match, counted_down, match_at, after_printed};

use crate::full::AddFault;
use crate::texts::text_of;
use circular_buffer::HeapCircularBuffer;
use line_text::Text;
use std::alloc::{AllocError, Global};
use std::marker::Model;

/// How many expects there are at most.
const MOST_EXPECTS: usize = 64;

/// How many bytes a text has at most that is waited for, and so how many of the printed bytes are kept.
const LONGEST_TEXT: usize = 64;

/// A text that is waited for, how many matches are left to its stop, and the actions of its stop.
#[derive(Drop)]
pub struct Expect {
    count: u32,
    text: Text<64>,
    actions: Text<512>,
}

/// The texts that are waited for in the order in which they were added, 64 at most, the bytes that the console printed
/// last, and the actions of the expect that stopped last.
#[derive(Drop)]
pub struct Expects {
    list: Vec<Expect>,
    tail: HeapCircularBuffer<u8>,
    actions: Text<512>,
}

impl Model for Expects {
    ghost use Rattle.std.specs.Prelude.{◌≡◌, ◌≤◌, length};
    ghost use Rattle.expect_actions.specs.Expects.{ExpectTable, table};

    ghost Value = { ExpectTable };

    ghost view = { λ e. table e.list.items e.tail.items e.actions };

    ghost invariant = { λ e. (length e.list.items ≤ 64) × (e.tail.capacity ≡ 64) };
}

impl Expects {
    /// No expect. The error is that there was no memory for the bytes that are printed.
    pub fn new(alloc: Global) -> Result<Expects, AllocError>
        ensures { IfOk result (λ expects. expects ≡ table [] [] []) }
    {
        Ok(Expects {
            list: Vec::new(alloc),
            tail: HeapCircularBuffer::with_capacity(alloc, LONGEST_TEXT)?,
            actions: Text::new(),
        })
    }

    /// Adds an expect behind the others. `Full` comes exactly where it would be the 65th. After a fault the table is as
    /// it was.
    pub fn add(&mut self, count: u32, text: &[u8], actions: &[u8]) -> Result<(), AddFault>
        requires count { 1 ≤ count }
        requires some { 1 ≤ length text.now }
        requires short { length text.now ≤ longest_text }
        requires actions { length actions.now ≤ 512 }
        ensures full { (result ≡ Err AddFault.Full) ↔ (length self.old.list ≡ most_expects) }
        ensures ok { OnOk result (self.new ≡ with_expect (expect_of count text.now actions.now) self.old) }
        ensures err { OnErr result (self.new ≡ self.old) }
    {
        if self.list.len() >= MOST_EXPECTS {
            return Err(AddFault::Full);
        }
        if self.list.reserve(1).is_err() {
            return Err(AddFault::OutOfMemory);
        }
        let _ = self.list.push(Expect {
            count,
            text: text_of(text),
            actions: text_of(actions),
        });
        Ok(())
    }

    /// Removes all expects. The bytes that were printed stay.
    pub fn clear(&mut self)
        ensures { self.new ≡ no_expects self.old }
    {
        self.list.clear();
    }

    /// Takes a byte that the console has printed. The first expect whose text the printed bytes now end with matches,
    /// and they are forgotten: a count above 1 is lowered by one, any other expect is removed and stops. Answers its
    /// place from 0; None comes exactly where none stops.
    pub fn printed(&mut self, byte: u8) -> Option<usize>
        ensures stop { result ≡ match_at byte self.old }
        ensures after { self.new ≡ after_printed byte self.old }
    {
        let _ = self.tail.push_back(byte);
        let mut bytes = [0; LONGEST_TEXT];
        let count = copy_bytes(&self.tail, &mut bytes);
        let place = first_match(self.list.as_slice(), &bytes[..count])?;
        self.tail.clear();
        if count_down(&mut self.list, place) {
            return None;
        }
        self.actions = take_out(&mut self.list, place);
        Some(place)
    }

    /// The count, text and actions of an expect by its place from 0; None exactly past the last one.
    pub fn in_order(&self, k: usize) -> Option<(u32, &[u8], &[u8])>
        ensures none { IsNone result ↔ (length self.now.list ≤ k) }
        ensures entry { IfSome result (λ e. slice_get self.now.list k ≡ Some (expect_of e.0 e.1.now e.2.now)) }
        ensures short { IfSome result (λ e. length e.1.now ≤ longest_text) }
        ensures actions { IfSome result (λ e. length e.2.now ≤ 512) }
    {
        let entry = self.list.get(k)?;
        let _text = entry.text.len();
        let _actions = entry.actions.len();
        Some((entry.count, entry.text.as_slice(), entry.actions.as_slice()))
    }

    /// How many expects there are.
    pub fn len(&self) -> usize
        ensures length { result ≡ length self.now.list }
        ensures most { result ≤ most_expects }
    {
        self.list.len()
    }

    /// The actions of the expect that stopped last; an empty text before the first stop.
    pub fn actions_of(&self) -> &[u8]
        ensures text { result.now ≡ self.now.actions }
        ensures short { length result.now ≤ 512 }
    {
        let _bytes = self.actions.len();
        self.actions.as_slice()
    }

    /// Lets go of the actions of the expect that stopped last: they were read.
    pub fn forget(&mut self)
        ensures { self.new ≡ table self.old.list self.old.tail [] }
    {
        self.actions = Text::new();
    }

    /// Writes the bytes that were printed since the last match, 64 at most, first into `out`, and answers how many.
    pub fn tail(&self, out: &mut [u8; 64]) -> usize
        ensures count { result ≡ length self.now.tail }
        ensures most { result ≤ 64 }
        ensures bytes { out.new ≡ self.now.tail ++ drop (length self.now.tail) out.old }
    {
        copy_bytes(&self.tail, out)
    }

    /// Makes these the bytes that were printed since the last match.
    pub fn set_tail(&mut self, bytes: &[u8])
        requires { length bytes.now ≤ longest_text }
        ensures { self.new ≡ table self.old.list bytes.now self.old.actions }
    {
        self.tail.clear();
        self.tail.extend_from_slice(bytes);
    }
}

// Writes the bytes of a ring first into `out`, and answers how many.
fn copy_bytes(ring: &HeapCircularBuffer<u8>, out: &mut [u8; LONGEST_TEXT]) -> usize
    requires { ring.now.capacity ≡ 64 }
    ensures count { result ≡ length ring.now.items }
    ensures most { result ≤ 64 }
    ensures bytes { out.new ≡ ring.now.items ++ drop (length ring.now.items) out.old }
{
    let count = ring.len();
    let (front, back) = ring.as_slices();
    out[..front.len()].copy_from_slice(front);
    out[front.len()..count].copy_from_slice(back);
    count
}

// The place of the first expect whose text the printed bytes end with.
fn first_match(list: &[Expect], printed: &[u8]) -> Option<usize>
    ensures { result ≡ first_match printed.now list.now }
{
    list.iter()
        .position(|e| printed.ends_with(e.text.as_slice()))
}

// Lowers the count of an expect by one, where it is above 1; answers whether it was.
fn count_down(list: &mut Vec<Expect>, place: usize) -> bool
    requires { place < length list.old.items }
    ensures above { (d : Expect) → result ≡ nat_lt 1 (slice_index_or list.old.items place d).count }
    ensures list { (d : Expect) → list.new.items ≡ (if result
        then slice_set list.old.items place (counted_down (slice_index_or list.old.items place d)) else list.old.items) }
{
    let entry = &mut list[place];
    let above = entry.count > 1;
    if above {
        entry.count -= 1;
    }
    above
}

// Removes an expect, and answers its actions.
fn take_out(list: &mut Vec<Expect>, place: usize) -> Text<512>
    requires { place < length list.old.items }
    ensures actions { (d : Expect) → result ≡ (slice_index_or list.old.items place d).actions }
    ensures list { list.new.items ≡ remove list.old.items place }
{
    list.remove(place).actions
}
