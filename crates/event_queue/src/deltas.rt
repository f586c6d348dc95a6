ghost use Rattle.std.specs.Prelude.{◌≡◌, ◌<◌, ◌≤◌, ◌^◌, [], length, remove, true, false, None, Some, slice_get, option_map, is_some, IfOk, IfSome};
ghost use Rattle.unit_trait.specs.Kinds.{units_of};
ghost use Rattle.event_queue.specs.Idle.{AreOthersLater, AreTwins, AreLaterThanTwo, looked, idled, rest_behind};
ghost use Rattle.event_queue.specs.EventList.{Event, Sound, waits, placed, due, lowered, IsFirst, IsClear};
ghost use Rattle.event_queue.specs.Deltas.{events_of};

use crate::delta::Delta;
use crate::differences::{bring_nearer, event_at, place, put_off};
use crate::pairs::{look_behind_one, look_both};
use crate::waiting::Waiting;
use std::alloc::{AllocError, Global};
use std::marker::Model;
use unit_trait::UnitName;

/// 8 drives, 64 lines, and 9 kinds of one unit.
const UNITS: usize = 81;

/// The events that wait, in rising time, each kept by its difference to the one before it.
#[derive(Drop)]
pub(crate) struct Deltas {
    list: Vec<Delta>,
}

impl Model for Deltas {
    ghost use Rattle.std.specs.Prelude.{List, ◌≤◌, vec_capacity};
    ghost use Rattle.event_queue.specs.EventList.{Event, Sound};
    ghost use Rattle.event_queue.specs.Deltas.{events_of};

    ghost Value = { List Event };

    ghost view = { λ d. events_of d.list.items };

    ghost invariant = { λ d. Sound (events_of d.list.items) × (81 ≤ vec_capacity d.list) };
}

impl Deltas {
    /// No event, and room for one of each unit.
    pub(crate) fn new(alloc: Global) -> Result<Deltas, AllocError>
        ensures { IfOk result (λ d. d ≡ []) }
    {
        Ok(Deltas {
            list: Vec::with_capacity(alloc, UNITS)?,
        })
    }

    /// Puts an event behind all that are due no later. There is room, since no unit is there twice.
    pub(crate) fn put(&mut self, unit: UnitName, delay: u32)
        requires unit { unit.unit < units_of unit.kind }
        requires absent { waits unit self.old ≡ false }
        ensures { self.new ≡ placed unit delay self.old }
    {
        let (at, after) = place(self.list.as_slice(), delay);
        bring_nearer(self.list.as_mut_slice(), at, after);
        let _ = self.list.insert(at, Delta { unit, after });
    }

    /// Takes out an event by its place, and answers its unit. The next one gets its difference.
    pub(crate) fn take_out(&mut self, at: usize) -> UnitName
        requires { at < length self.old }
        ensures unit { option_map (λ e. e.unit) (slice_get self.old at) ≡ Some result }
        ensures rest { self.new ≡ remove self.old at }
        ensures low { result.unit < units_of result.kind }
    {
        let out = self.list.remove(at);
        put_off(self.list.as_mut_slice(), at, out.after);
        out.unit
    }

    /// Takes out all events.
    pub(crate) fn clear(&mut self)
        ensures { self.new ≡ [] }
    {
        self.list.clear();
    }

    /// Whether the first event is due.
    #[inline]
    pub(crate) fn is_due(&self) -> bool
        ensures { result ≡ is_some (due self.now) }
    {
        match self.list.first() {
            Some(first) => first.after == 0,
            None => false,
        }
    }

    /// How many instructions remain to the first event; 2^32 - 1 where none waits.
    #[inline]
    pub(crate) fn first(&self) -> u32
        ensures first { IsFirst self.now result }
        ensures clear { IsClear result self.now }
    {
        match self.list.first() {
            Some(first) => first.after,
            None => u32::MAX,
        }
    }

    /// Lets so many instructions pass.
    #[inline]
    pub(crate) fn pass(&mut self, count: u32)
        requires { IsClear count self.old }
        ensures { self.new ≡ lowered count self.old }
    {
        bring_nearer(self.list.as_mut_slice(), 0, count);
    }

    /// Lets so many instructions pass in front of which nothing is due but looks of the first event's unit, each of
    /// which asks for the event again after so many.
    #[tactic(auto, using(crate::proofs::Looks::looks))]
    pub(crate) fn pass_looks(&mut self, count: u32, period: u32)
        requires others { AreOthersLater count self.old }
        requires period { 1 ≤ period }
        ensures { self.new ≡ idled period count self.old }
    {
        self.sound();
        let Some(first) = self.get(0) else {
            return;
        };
        if count <= first.remaining {
            self.pass(count);
            return;
        }
        self.take_out(0);
        self.pass(count);
        self.put(first.unit, rest_behind(first.remaining, period, count));
    }

    /// The same, where the looks are those of the first two events' units, which come together.
    #[tactic(auto, using(crate::proofs::Looks::twins))]
    pub(crate) fn pass_twins(&mut self, count: u32, period: u32)
        requires twins { AreTwins self.old }
        requires others { AreLaterThanTwo count self.old }
        requires period { 1 ≤ period }
        ensures { self.new ≡ idled period count self.old }
    {
        self.sound();
        let Some(first) = self.get(0) else {
            return;
        };
        let Some(second) = self.get(1) else {
            return;
        };
        if count <= first.remaining {
            self.pass(count);
            return;
        }
        let rest = rest_behind(first.remaining, period, count);
        self.take_out(0);
        self.take_out(0);
        self.pass(count);
        self.put(first.unit, rest);
        self.put(second.unit, rest);
    }

    /// Asks for the first two events again after so many instructions, where they are due and then stand in front of
    /// the others; answers whether.
    pub(crate) fn look_both(&mut self, period: u32) -> bool
        requires { 1 ≤ period }
        ensures looked { result ≡ true → self.new ≡ looked period self.old }
        ensures same { result ≡ false → self.new ≡ self.old }
    {
        look_both(self.list.as_mut_slice(), period)
    }

    /// The same, where one of the others then stands in front of them.
    pub(crate) fn look_behind_one(&mut self, period: u32) -> bool
        requires { 1 ≤ period }
        ensures looked { result ≡ true → self.new ≡ looked period self.old }
        ensures same { result ≡ false → self.new ≡ self.old }
    {
        look_behind_one(self.list.as_mut_slice(), period)
    }

    /// How many events wait.
    pub(crate) fn len(&self) -> usize
        ensures { result ≡ length self.now }
    {
        self.list.len()
    }

    /// An event by its place from 0: the differences up to its own add up.
    pub(crate) fn get(&self, k: usize) -> Option<Waiting>
        ensures entry { result ≡ slice_get self.now k }
        ensures low { IfSome result (λ e. e.unit.unit < units_of e.unit.kind) }
    {
        event_at(self.list.as_slice(), k)
    }

    /// The unit of an event by its place.
    pub(crate) fn unit_at(&self, at: usize) -> UnitName
        requires { at < length self.now }
        ensures { option_map (λ e. e.unit) (slice_get self.now at) ≡ Some result }
    {
        self.list[at].unit
    }

    /// The events as they are kept.
    pub(crate) fn entries(&self) -> &[Delta]
        ensures { events_of result.now ≡ self.now }
    {
        self.list.as_slice()
    }

    /// The list is sound.
    pub(crate) fn sound(&self)
        ensures { Sound self.now }
    {
        let _ = &self.list;
    }
}

/// What remains to an event that had so many instructions left, and was asked for again each so many.
fn rest_behind(left: u32, period: u32, count: u32) -> u32
    requires late { left < count }
    requires period { 1 ≤ period }
    ensures { result ≡ rest_behind left period count }
{
    let over = (count - left) % period;
    if over == 0 { 0 } else { period - over }
}
