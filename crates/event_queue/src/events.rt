ghost use Rattle.std.specs.Prelude.{◌≡◌, ◌<◌, ◌≤◌, ◌+◌, ◌-◌, ◌++◌, [], true, false, Some, None, length, take, drop, remove, option_map, slice_get, IfOk, IfSome};
ghost use Rattle.unit_trait.specs.Kinds.{units_of};
ghost use Rattle.unit_trait.specs.Row.{IsLater, IsAgain};
ghost use Rattle.event_queue.specs.Idle.{AreOthersLater, AreTwins, AreLaterThanTwo, looked, idled};
ghost use Rattle.event_queue.specs.EventList.{Sound, activated, is_of_kind, cancelled, wished, due, dues, served, lowered, ticked, IsApart, IsClear};
ghost use Rattle.event_queue.specs.Deltas.{events_of};

use crate::active::Active;
use crate::delta::Delta;
use crate::deltas::Deltas;
use std::alloc::{AllocError, Global};
use std::marker::Model;
use unit_trait::{Kind, Queue, UnitName, code_of};

/// The events that wait, in rising time: each unit has at most one, and those of one time are in the order in which
/// they were asked for (Writing a Simulator for the SIMH System, "Device Timing"). Times are in instructions.
#[derive(Drop)]
pub struct Events {
    /// The events, each by its difference to the one before it.
    deltas: Deltas,
    /// The units that have one.
    active: Active,
}

impl Model for Events {
    ghost use Rattle.std.specs.Prelude.{List};
    ghost use Rattle.event_queue.specs.EventList.{Event};
    ghost use Rattle.event_queue.specs.Active.{Marks};

    ghost Value = { List Event };

    ghost view = { λ e. e.deltas };

    ghost invariant = { λ e. Marks e.active.bits e.deltas };
}

impl Events {
    /// No event. There is room for one of each of the 81 units, so that no other call takes memory; the error is that
    /// there was no memory for it.
    pub fn new(alloc: Global) -> Result<Events, AllocError>
        ensures { IfOk result (λ e. e ≡ []) }
    {
        Ok(Events {
            deltas: Deltas::new(alloc)?,
            active: Active::none(),
        })
    }

    /// Asks for an event of a unit after so many instructions, behind those that are due no later. Nothing changes for
    /// a unit that waits already.
    #[tactic(auto, using(crate::proofs::Dues::activation))]
    pub fn activate(&mut self, unit: UnitName, delay: u32)
        requires { unit.unit < units_of unit.kind }
        ensures activated { self.new ≡ activated unit delay self.old }
        ensures later { 1 ≤ delay → due self.old ≡ None → due self.new ≡ None }
        ensures again { 1 ≤ delay → dues self.new ≡ dues self.old }
    {
        if !self.active.has(unit) {
            self.deltas.put(unit, delay);
            self.active.set(unit);
        }
    }

    /// Takes out the events of all units of a kind.
    pub fn cancel(&mut self, kind: Kind)
        ensures cancelled { self.new ≡ cancelled kind self.old }
        ensures later { due self.old ≡ None → due self.new ≡ None }
    {
        self.sound();
        let mut at = 0;
        for _k in 0..self.len() {
            at = self.cancel_at(at, kind);
        }
    }

    /// Takes out the event at a place, where it is of a unit of that kind; answers the place of the one behind it.
    fn cancel_at(&mut self, at: usize, kind: Kind) -> usize
        requires { at < length self.old }
        ensures front { take result self.new ≡ take at self.old ++ cancelled kind (take 1 (drop at self.old)) }
        ensures behind { drop result self.new ≡ drop (at + 1) self.old }
    {
        self.sound();
        if is_of_kind(self.deltas.unit_at(at), kind) {
            self.take_out(at);
            at
        } else {
            at + 1
        }
    }

    /// Takes out the event at a place, and answers its unit.
    fn take_out(&mut self, at: usize) -> UnitName
        requires { at < length self.old }
        ensures unit { option_map (λ e. e.unit) (slice_get self.old at) ≡ Some result }
        ensures rest { self.new ≡ remove self.old at }
        ensures low { result.unit < units_of result.kind }
    {
        self.deltas.sound();
        let unit = self.deltas.take_out(at);
        self.active.unset(unit);
        unit
    }

    /// Does what a device wishes, for one of its units.
    pub fn wish(&mut self, unit: UnitName, wish: Queue)
        requires { unit.unit < units_of unit.kind }
        ensures wished { self.new ≡ wished unit wish self.old }
        ensures later { IsLater wish → due self.old ≡ None → due self.new ≡ None }
        ensures again { IsAgain wish → dues self.new ≡ dues self.old }
    {
        match wish {
            Queue::Keep => (),
            Queue::Cancel => self.cancel(unit.kind),
            Queue::After(delay) => self.activate(unit, delay),
        }
    }

    /// Takes out all events.
    pub fn clear(&mut self)
        ensures { self.new ≡ [] }
    {
        self.deltas.clear();
        self.active = Active::none();
    }

    /// Whether an event may be due: where it answers no, none is.
    #[inline]
    pub fn may_be_due(&self) -> bool
        ensures { result ≡ false → due self.now ≡ None }
    {
        self.deltas.is_due()
    }

    /// Takes out the event that is due first, and answers its unit; None where none is due.
    pub fn next_due(&mut self) -> Option<UnitName>
        ensures unit { result ≡ due self.old }
        ensures rest { self.new ≡ served self.old }
        ensures low { IfSome result (λ u. u.unit < units_of u.kind) }
        ensures alone { IfSome result (λ u. IsApart u (dues self.new)) }
    {
        self.sound();
        if self.deltas.is_due() {
            Some(self.take_out(0))
        } else {
            None
        }
    }

    /// Lets one instruction pass.
    #[inline]
    pub fn tick(&mut self)
        requires { due self.old ≡ None }
        ensures { self.new ≡ ticked self.old }
    {
        self.deltas.pass(1);
    }

    /// How many instructions can pass, at least, before one in front of which an event is due.
    #[inline]
    pub fn clear_for(&self) -> u32
        ensures { IsClear result self.now }
    {
        self.deltas.first()
    }

    /// Lets so many instructions pass.
    #[inline]
    pub fn pass(&mut self, count: u32)
        requires { IsClear count self.old }
        ensures { self.new ≡ lowered count self.old }
    {
        self.deltas.pass(count);
    }

    /// Lets so many instructions pass in front of which nothing is due but looks of the first event's unit, each of
    /// which asks for the event again after so many instructions.
    pub fn pass_looks(&mut self, count: u32, period: u32)
        requires others { AreOthersLater count self.old }
        requires period { 1 ≤ period }
        ensures { self.new ≡ idled period count self.old }
    {
        self.sound();
        self.deltas.pass_looks(count, period);
    }

    /// The same, where the looks are those of the first two events' units, which come together.
    pub fn pass_twins(&mut self, count: u32, period: u32)
        requires twins { AreTwins self.old }
        requires others { AreLaterThanTwo count self.old }
        requires period { 1 ≤ period }
        ensures { self.new ≡ idled period count self.old }
    {
        self.sound();
        self.deltas.pass_twins(count, period);
    }

    /// Asks for each event that is due again after so many instructions, behind those that are due no later.
    #[tactic(auto, using(crate::proofs::Looks::lookings))]
    pub fn look(&mut self, period: u32)
        requires { 1 ≤ period }
        ensures { self.new ≡ looked period self.old }
    {
        if self.look_both(period) {
            return;
        }
        for _k in 0..self.len() {
            self.look_first(period);
        }
    }

    /// The same, where two events are due that then stand in front of the others, or of all but one; answers whether.
    fn look_both(&mut self, period: u32) -> bool
        requires { 1 ≤ period }
        ensures looked { result ≡ true → self.new ≡ looked period self.old }
        ensures same { result ≡ false → self.new ≡ self.old }
    {
        self.sound();
        self.deltas.look_both(period) || self.deltas.look_behind_one(period)
    }

    /// Asks for the event that is due first again, where one is due.
    #[tactic(auto, using(crate::proofs::Looks::again))]
    fn look_first(&mut self, period: u32)
        requires { 1 ≤ period }
        ensures looked { looked period self.new ≡ looked period self.old }
        ensures fewer { length (dues self.new) ≤ length (dues self.old) - 1 }
    {
        match self.next_due() {
            None => (),
            Some(unit) => self.activate(unit, period),
        }
    }

    /// The unit whose event comes first, where one waits.
    pub fn first_unit(&self) -> Option<UnitName>
        ensures { result ≡ option_map (λ e. e.unit) (slice_get self.now 0) }
    {
        match self.deltas.get(0) {
            None => None,
            Some(entry) => Some(entry.unit),
        }
    }

    /// How many instructions can pass, at least, before one in front of which an event is due that is not the first.
    pub fn others_later(&self) -> u32
        ensures { AreOthersLater result self.now }
    {
        self.deltas.sound();
        match self.deltas.get(1) {
            None => u32::MAX,
            Some(entry) => entry.remaining,
        }
    }

    /// The unit of the second event, where that is due together with the first.
    pub fn twin(&self) -> Option<UnitName>
        ensures unit { IfSome result (λ u. option_map (λ e. e.unit) (slice_get self.now 1) ≡ Some u) }
        ensures twins { IfSome result (λ u. AreTwins self.now) }
    {
        match (self.deltas.get(0), self.deltas.get(1)) {
            (Some(first), Some(second)) if first.remaining == second.remaining => Some(second.unit),
            _ => None,
        }
    }

    /// How many instructions can pass, at least, before one in front of which an event is due that is none of the first
    /// two.
    pub fn later_than_two(&self) -> u32
        ensures { AreLaterThanTwo result self.now }
    {
        self.deltas.sound();
        match self.deltas.get(2) {
            None => u32::MAX,
            Some(entry) => entry.remaining,
        }
    }

    /// How many events wait.
    pub fn len(&self) -> usize
        ensures { result ≡ length self.now }
    {
        self.deltas.len()
    }

    /// The unit of an event by its place from 0, and the instructions that remain to it; None past the last one.
    pub fn in_order(&self, k: usize) -> Option<(UnitName, u64)>
        ensures entry { result ≡ option_map (λ e. (e.unit, e.remaining)) (slice_get self.now k) }
        ensures low { IfSome result (λ e. e.0.unit < units_of e.0.kind) }
    {
        let entry = self.deltas.get(k)?;
        Some((entry.unit, u64::from(entry.remaining)))
    }

    /// The events as they are kept, in their order: the instructions that remain to one are the differences of all
    /// entries up to its own, added up.
    pub fn entries(&self) -> &[Delta]
        ensures { events_of result.now ≡ self.now }
    {
        self.deltas.entries()
    }

    /// Tells that the list is sound, as every one is: what the laws ask for.
    pub fn sound(&self)
        ensures { Sound self.now }
    {
        self.deltas.sound();
    }
}

/// Whether a unit is of a kind.
fn is_of_kind(unit: UnitName, kind: Kind) -> bool
    ensures { result ≡ is_of_kind kind unit }
{
    code_of(unit.kind) == code_of(kind)
}
