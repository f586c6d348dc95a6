ghost use Rattle.std.specs.Prelude.{◌≡◌, ◌+◌, ◌<◌, ◌≤◌, ◌↔◌, ◌==◌, [], true, false, Some, length, nat_lt, nat_le, count_by};
ghost use Rattle.std.specs.Prelude.{map, option_map, slice_get, slice_index_or, slice_set, insert, IfOk, IfSome, OnOk, OnErr, IsTrue, IsNone};
ghost use Rattle.std.specs.List.{position};
ghost use Rattle.std.specs.Vec.{vec_len, vec_capacity};
ghost use Rattle.expect_actions.specs.declared.full.AddFault.{AddFault};
ghost use Rattle.expect_actions.specs.Breaks.{table, break_at, is_at, has_break, with_break, without_break, lowered};
ghost use Rattle.expect_actions.specs.Breaks.{tested, stop_at, after_test, Rising, BreaksAreAMap};

use crate::full::AddFault;
use crate::marks::Marks;
use crate::texts::text_of;
use line_text::Text;
use nova_word::Addr;
use std::alloc::{AllocError, Global};
use std::marker::Model;

/// How many breaks there are at most.
const MOST_BREAKS: usize = 256;

/// A break: where it is, how many tests are left to its stop, and the actions of its stop.
#[derive(Drop)]
pub struct Break {
    address: Addr,
    count: u32,
    actions: Text<512>,
}

/// The breaks in rising address, 256 at most, and the actions of the break that stopped last.
#[derive(Drop)]
pub struct Breaks {
    list: Vec<Break>,
    marks: Marks,
    actions: Text<512>,
}

impl Model for Breaks {
    ghost use Rattle.std.specs.Prelude.{◌≤◌, length};
    ghost use Rattle.expect_actions.specs.Breaks.{BreakTable, table, Rising, AreMarks};

    ghost Value = { BreakTable };

    ghost view = { λ b. table b.list.items b.actions };

    ghost invariant = { λ b. Rising b.list.items × (length b.list.items ≤ 256) × AreMarks b.marks b.list.items };
}

impl Breaks {
    /// No break. The error is that there was no memory for the marks.
    pub fn new(alloc: Global) -> Result<Breaks, AllocError>
        ensures { IfOk result (λ breaks. breaks ≡ table [] []) }
    {
        Ok(Breaks {
            list: Vec::new(alloc),
            marks: Marks::new(alloc)?,
            actions: Text::new(),
        })
    }

    /// Puts a break at an address, where it replaces one that is there. `Full` comes exactly where it would be the
    /// 257th. After a fault the table is as it was.
    pub fn add(&mut self, at: Addr, count: u32, actions: &[u8]) -> Result<(), AddFault>
        requires { length actions.now ≤ 512 }
        ensures full { (result ≡ Err AddFault.Full) ↔ ((has_break at self.old.list ≡ false) × (length self.old.list ≡ 256)) }
        ensures ok { OnOk result (self.new ≡ table (with_break (break_at at count actions.now) self.old.list) self.old.actions) }
        ensures err { OnErr result (self.new ≡ self.old) }
    {
        let there = self.marks.get(at);
        make_room(&mut self.list, at, there)?;
        put(&mut self.list, at, count, actions);
        self.marks.set(at, true);
        Ok(())
    }

    /// Removes the break of an address, and answers whether one was there.
    pub fn remove(&mut self, at: Addr) -> bool
        ensures there { result ≡ has_break at self.old.list }
        ensures rest { self.new ≡ table (without_break at self.old.list) self.old.actions }
    {
        let there = self.marks.get(at);
        if there {
            take_out(&mut self.list, at);
            self.marks.set(at, false);
        }
        there
    }

    /// Removes all breaks.
    pub fn clear(&mut self)
        ensures { self.new ≡ table [] self.old.actions }
    {
        self.list.clear();
        self.marks.clear();
    }

    /// Whether a break is at an address.
    #[inline]
    pub fn has(&self, at: Addr) -> bool
        ensures { result ≡ has_break at self.now.list }
    {
        self.marks.get(at)
    }

    /// Tests the breaks at an address. A break there whose count is above 1 has it lowered by one; any other one stops,
    /// and its count is 0 from then on. Answers the place of the break that stops, from 0 in rising address; None comes
    /// exactly where none does.
    #[inline]
    pub fn test(&mut self, pc: Addr) -> Option<usize>
        ensures stop { result ≡ stop_at pc self.old.list }
        ensures after { self.new ≡ after_test pc self.old }
    {
        if self.marks.get(pc) {
            self.meet(pc)
        } else {
            None
        }
    }

    // The same without a look at the marks.
    fn meet(&mut self, pc: Addr) -> Option<usize>
        ensures stop { result ≡ stop_at pc self.old.list }
        ensures after { self.new ≡ after_test pc self.old }
    {
        match meet_in(&mut self.list, pc) {
            Some(place) => {
                self.actions = actions_at(self.list.as_slice(), place);
                Some(place)
            }
            None => None,
        }
    }

    /// The address, count and actions of a break by its place from 0 in rising address; None exactly past the last one.
    pub fn in_order(&self, k: usize) -> Option<(Addr, u32, &[u8])>
        ensures none { IsNone result ↔ (length self.now.list ≤ k) }
        ensures entry { IfSome result (λ b. slice_get self.now.list k ≡ Some (break_at b.0 b.1 b.2.now)) }
        ensures short { IfSome result (λ b. length b.2.now ≤ 512) }
    {
        let entry = self.list.get(k)?;
        let _length = entry.actions.len();
        Some((entry.address, entry.count, entry.actions.as_slice()))
    }

    /// The actions of the break that stopped last, also where it is there no more; an empty text before the first stop.
    pub fn actions_of(&self) -> &[u8]
        ensures text { result.now ≡ self.now.actions }
        ensures short { length result.now ≤ 512 }
    {
        let _bytes = self.actions.len();
        self.actions.as_slice()
    }

    /// Lets go of the actions of the break that stopped last: they were read.
    pub fn forget(&mut self)
        ensures { self.new ≡ table self.old.list [] }
    {
        self.actions = Text::new();
    }

    /// How many breaks there are.
    pub fn len(&self) -> usize
        ensures length { result ≡ length self.now.list }
        ensures most { result ≤ 256 }
    {
        self.list.len()
    }

    /// Whether there is no break.
    #[inline]
    pub fn is_empty(&self) -> bool
        ensures { IsTrue result ↔ (self.now.list ≡ []) }
    {
        self.list.is_empty()
    }
}

/// The law that the breaks are a map from addresses to counts and actions.
pub fn breaks_are_a_map()
    ensures { BreaksAreAMap }
{}

// Removes the break of an address.
fn take_out(list: &mut Vec<Break>, at: Addr)
    ensures rest { list.new.items ≡ without_break at list.old.items }
    ensures capacity { vec_capacity list.new ≡ vec_capacity list.old }
{
    list.retain(|b| b.address.number() != at.number());
}

// Removes the break of an address, where it is there, and sees that there is room for it. After a fault the list is as
// it was.
fn make_room(list: &mut Vec<Break>, at: Addr, there: bool) -> Result<(), AddFault>
    requires few { length list.old.items ≤ 256 }
    requires there { there ≡ has_break at list.old.items }
    ensures full { (result ≡ Err AddFault.Full) ↔ ((has_break at list.old.items ≡ false) × (length list.old.items ≡ 256)) }
    ensures rest { OnOk result (list.new.items ≡ without_break at list.old.items) }
    ensures room { OnOk result (vec_len list.new < vec_capacity list.new) }
    ensures few { OnOk result (length list.new.items + 1 ≤ 256) }
    ensures err { OnErr result (list.new.items ≡ list.old.items) }
{
    if there {
        take_out(list, at);
        return Ok(());
    }
    if list.len() >= MOST_BREAKS {
        return Err(AddFault::Full);
    }
    if list.reserve(1).is_err() {
        return Err(AddFault::OutOfMemory);
    }
    Ok(())
}

// How many breaks are at lower addresses.
fn lower_ones(list: &[Break], at: Addr) -> usize
    ensures { result ≡ count_by (λ b. nat_lt b.address at) list.now }
{
    list.iter()
        .filter(|b| b.address.number() < at.number())
        .count()
}

// Puts a break in its place. There is room.
fn put(list: &mut Vec<Break>, at: Addr, count: u32, actions: &[u8])
    requires short { length actions.now ≤ 512 }
    requires rising { Rising list.old.items }
    requires absent { has_break at list.old.items ≡ false }
    requires room { vec_len list.old < vec_capacity list.old }
    ensures list { list.new.items ≡ with_break (break_at at count actions.now) list.old.items }
    ensures more { length list.new.items ≡ length list.old.items + 1 }
{
    let place = lower_ones(list.as_slice(), at);
    let entry = Break {
        address: at,
        count,
        actions: text_of(actions),
    };
    let _ = list.insert(place, entry);
}

// The place of the break of an address.
fn place_of(list: &[Break], at: Addr) -> Option<usize>
    ensures { result ≡ position (is_at at) list.now }
{
    list.iter().position(|b| b.address.number() == at.number())
}

// Lowers the count of a break, or makes it 0; answers whether it was above 1.
fn lower(list: &mut Vec<Break>, place: usize) -> bool
    requires { place < length list.old.items }
    ensures above { (d : Break) → result ≡ nat_lt 1 (slice_index_or list.old.items place d).count }
    ensures list { (d : Break) → list.new.items ≡ slice_set list.old.items place (lowered (slice_index_or list.old.items place d)) }
{
    let entry = &mut list[place];
    let above = entry.count > 1;
    entry.count = entry.count.saturating_sub(1);
    above
}

// Tests the breaks of a list at an address; answers the place of the one that stops.
fn meet_in(list: &mut Vec<Break>, pc: Addr) -> Option<usize>
    requires { Rising list.old.items }
    ensures stop { result ≡ stop_at pc list.old.items }
    ensures list { list.new.items ≡ tested pc list.old.items }
    ensures within { IfSome result (λ place. place < length list.new.items) }
{
    match place_of(list.as_slice(), pc) {
        None => None,
        Some(place) => {
            if lower(list, place) {
                None
            } else {
                Some(place)
            }
        }
    }
}

// The actions of a break.
fn actions_at(list: &[Break], place: usize) -> Text<512>
    requires { place < length list.now }
    ensures { (d : Break) → result ≡ (slice_index_or list.now place d).actions }
{
    copy_of(&list[place].actions)
}

// The same text again.
fn copy_of(text: &Text<512>) -> Text<512>
    ensures { result ≡ text.now }
{
    let _length = text.len();
    text_of(text.as_slice())
}
