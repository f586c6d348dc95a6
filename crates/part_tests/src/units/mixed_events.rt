// Calls of the events by chance, each beside the same call of a plain list.
use crate::checked::holds;
use crate::units::plain_events::{Waiting, add_up, ask, cancel, pass, stand, take};
use event_queue::Events;
use std::alloc::Global;
use std::process::Abort;
use std::test::Fail;
use unit_trait::{Kind, UnitName, units_of};

const KINDS: [Kind; 11] = [
    Kind::Dsk,
    Kind::Mta,
    Kind::Lpt,
    Kind::Ptr,
    Kind::Ptp,
    Kind::Clk,
    Kind::Tti,
    Kind::Tto,
    Kind::Tti1,
    Kind::Tto1,
    Kind::Qty,
];

/// Delays of many ties, and long ones.
const DELAYS: [u32; 12] = [0, 1, 1, 2, 2, 3, 5, 5, 8, 100, 70000, u32::MAX];

#[derive(Clone, Copy)]
struct Chance {
    state: u32,
}

impl Chance {
    /// A number below 65536.
    fn next(&mut self) -> u32 {
        self.state = self.state.wrapping_mul(1664525).wrapping_add(1013904223);
        self.state >> 16
    }

    fn kind(&mut self) -> Kind {
        KINDS[self.next() as usize % 11]
    }

    fn delay(&mut self) -> u32 {
        DELAYS[self.next() as usize % 12]
    }
}

/// Asks for an event of a unit by chance.
fn asks(events: &mut Events, plain: &mut Vec<Waiting>, chance: &mut Chance) {
    let kind = chance.kind();
    let unit = (chance.next() % 64) as u8 % units_of(kind).max(1);
    let delay = chance.delay();
    let name = UnitName { kind, unit };
    if unit < units_of(kind) {
        events.activate(name, delay);
        ask(plain, name, delay);
    }
}

/// Takes out what a kind has, or now and then all.
fn cancels(events: &mut Events, plain: &mut Vec<Waiting>, chance: &mut Chance) {
    if chance.next() % 8 == 0 {
        events.clear();
        plain.clear();
    } else {
        let kind = chance.kind();
        events.cancel(kind);
        cancel(plain, kind);
    }
}

/// Whether the event that is due, or none, is taken from both.
fn takes(events: &mut Events, plain: &mut Vec<Waiting>) -> bool {
    match (events.next_due(), take(plain)) {
        (Some(unit), Some(wanted)) => unit.is(wanted),
        (None, None) => true,
        _ => false,
    }
}

/// Lets one instruction pass, where nothing is due.
fn ticks(events: &mut Events, plain: &mut Vec<Waiting>) {
    if !events.may_be_due() {
        events.tick();
        pass(plain, 1);
    }
}

/// Lets instructions pass, up to the next at which an event is due.
fn passes(events: &mut Events, plain: &mut Vec<Waiting>) {
    let count = events.clear_for();
    events.pass(count);
    pass(plain, count);
}

/// One call of both, by chance; whether both answer the same.
fn calls(events: &mut Events, plain: &mut Vec<Waiting>, chance: &mut Chance) -> bool {
    match chance.next() % 16 {
        0..=6 => asks(events, plain, chance),
        7 => cancels(events, plain, chance),
        8..=11 => return takes(events, plain),
        12..=14 => ticks(events, plain),
        _ => passes(events, plain),
    }
    true
}

/// Whether both are the same behind each of so many calls, from that seed on.
fn stay_alike(alloc: Global, seed: u32, count: u32) -> Result<bool, Fail> {
    let mut chance = Chance { state: seed };
    let mut events = Events::new(alloc)?;
    let mut plain = Vec::new(alloc);
    for _ in 0..count {
        if !calls(&mut events, &mut plain, &mut chance)
            || !stand(&events, plain.as_slice())
            || !add_up(&events, plain.as_slice())
        {
            return Ok(false);
        }
    }
    Ok(true)
}

#[test]
fn events_are_a_plain_list_behind_200_mixed_calls(rt: HostRuntime) -> Result<(), Fail> {
    holds(&rt, stay_alike(rt.alloc(), 36, 200)?, "200 mixed calls");
    Ok(())
}

fn from_seed(rt: &impl Abort, so: bool, seed: u32) {
    assert!(rt; so, "seed {seed}");
}

#[test]
fn events_are_a_plain_list_behind_2000_calls_by_chance(rt: HostRuntime) -> Result<(), Fail> {
    for seed in 1..11u32 {
        from_seed(&rt, stay_alike(rt.alloc(), seed, 200)?, seed);
    }
    Ok(())
}
