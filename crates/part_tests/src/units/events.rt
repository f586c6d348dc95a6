// Events that wait, with their times and ties.
use crate::checked::holds;
use event_queue::Events;
use std::alloc::{AllocError, Global};
use std::process::Abort;
use std::test::Fail;
use unit_trait::{Kind, Queue, UnitName, units_of};

/// A unit and the instructions that remain to its event.
type Row = (Kind, u8, u32);

/// Asks for an event of a unit, where its kind has that unit.
fn ask(events: &mut Events, kind: Kind, unit: u8, delay: u32) {
    if unit < units_of(kind) {
        events.activate(UnitName { kind, unit }, delay);
    }
}

/// Lets instructions pass, up to the first at which an event is due.
fn pass(events: &mut Events, instructions: u32) {
    for _ in 0..instructions {
        if !events.may_be_due() {
            events.tick();
        }
    }
}

fn ask_all(events: &mut Events, rows: &[Row]) {
    for row in rows.iter() {
        ask(events, row.0, row.1, row.2);
    }
}

/// Whether the event with that number is that one.
fn stands_at(events: &Events, place: usize, row: &Row) -> bool {
    match events.in_order(place) {
        Some((unit, left)) => unit.kind == row.0 && unit.unit == row.1 && left == u64::from(row.2),
        None => false,
    }
}

/// Whether these events wait, in this order, and no others.
fn stand(events: &Events, rows: &[Row]) -> bool {
    for (place, row) in rows.iter().enumerate() {
        if !stands_at(events, place, row) {
            return false;
        }
    }
    events.in_order(rows.len()).is_none() && events.in_order(usize::MAX).is_none()
}

/// Five events, three of them due at one time.
const FIVE: [Row; 5] = [
    (Kind::Clk, 0, 5),
    (Kind::Tti, 0, 5),
    (Kind::Lpt, 0, 3),
    (Kind::Mta, 7, 5),
    (Kind::Ptp, 0, 4),
];

fn five(alloc: Global) -> Result<Events, AllocError> {
    let mut events = Events::new(alloc)?;
    ask_all(&mut events, &FIVE);
    Ok(events)
}

#[test]
fn ties_keep_the_order_of_activation(rt: HostRuntime) -> Result<(), Fail> {
    const ORDER: [Row; 5] = [
        (Kind::Lpt, 0, 3),
        (Kind::Ptp, 0, 4),
        (Kind::Clk, 0, 5),
        (Kind::Tti, 0, 5),
        (Kind::Mta, 7, 5),
    ];
    let events = five(rt.alloc())?;
    holds(&rt, stand(&events, &ORDER), "five events");
    Ok(())
}

/// Asks in another list for each event of this one, in its order.
fn ask_again(events: &Events, again: &mut Events) {
    for place in 0..events.len() {
        if let Some((unit, left)) = events.in_order(place) {
            again.activate(unit, u32::try_from(left).unwrap_or(u32::MAX));
        }
    }
}

/// The five events two instructions later, asked for in another list.
fn stand_again(rt: &impl Abort, alloc: Global, events: &Events) -> Result<(), AllocError> {
    const ORDER: [Row; 5] = [
        (Kind::Lpt, 0, 1),
        (Kind::Ptp, 0, 2),
        (Kind::Clk, 0, 3),
        (Kind::Tti, 0, 3),
        (Kind::Mta, 7, 3),
    ];
    let mut again = Events::new(alloc)?;
    ask_again(events, &mut again);
    holds(rt, stand(&again, &ORDER), "asked for again");
    Ok(())
}

#[test]
fn events_that_are_asked_for_again_stand_as_they_stood(rt: HostRuntime) -> Result<(), Fail> {
    let mut events = five(rt.alloc())?;
    pass(&mut events, 2);
    stand_again(&rt, rt.alloc(), &events)?;
    Ok(())
}

/// Whether the next event that is due is that unit's, and is taken; none: that none is due.
fn takes(events: &mut Events, wanted: Option<Kind>) -> bool {
    match events.next_due() {
        Some(unit) => Some(unit.kind) == wanted,
        None => wanted.is_none(),
    }
}

/// Whether these units are served at the next moment, in this order and no others, and an instruction passes.
fn served(events: &mut Events, kinds: &[Kind]) -> bool {
    for kind in kinds.iter() {
        if !takes(events, Some(*kind)) {
            return false;
        }
    }
    let all = takes(events, None);
    pass(events, 1);
    all
}

const SERVED: [&[Kind]; 8] = [
    &[],
    &[],
    &[],
    &[Kind::Lpt],
    &[Kind::Ptp],
    &[Kind::Clk, Kind::Tti, Kind::Mta],
    &[],
    &[],
];

fn are_served(rt: &impl Abort, events: &mut Events) {
    for kinds in SERVED.iter() {
        holds(rt, served(events, kinds), "a moment");
    }
}

#[test]
fn an_event_is_due_at_its_time_and_not_before(rt: HostRuntime) -> Result<(), Fail> {
    let mut events = five(rt.alloc())?;
    are_served(&rt, &mut events);
    Ok(())
}

/// A second delay that is asked for, how many instructions pass then, and what remains.
const AGAIN: [(u32, u32, u32); 4] = [(10, 4, 6), (3, 0, 6), (100, 1, 5), (0, 5, 0)];

fn keeps_time(events: &mut Events, row: &(u32, u32, u32)) -> bool {
    ask(events, Kind::Clk, 0, row.0);
    pass(events, row.1);
    stand(events, &[(Kind::Clk, 0, row.2)])
}

fn keep_time(rt: &impl Abort, events: &mut Events) {
    for row in AGAIN.iter() {
        asked(rt, keeps_time(events, row), row.0);
    }
    holds(rt, served(events, &[Kind::Clk]), "the clock is served");
}

fn asked(rt: &impl Abort, so: bool, delay: u32) {
    assert!(rt; so, "asked {delay}");
}

#[test]
fn a_second_activation_keeps_the_first_time(rt: HostRuntime) -> Result<(), Fail> {
    let mut events = Events::new(rt.alloc())?;
    keep_time(&rt, &mut events);
    Ok(())
}

/// Whether the events of all drives are cancelled by one, which then has one again.
fn cancels_all_drives(events: &mut Events) -> bool {
    const LEFT: [Row; 5] = [
        (Kind::Lpt, 0, 3),
        (Kind::Ptp, 0, 4),
        (Kind::Clk, 0, 5),
        (Kind::Tti, 0, 5),
        (Kind::Mta, 3, 6),
    ];
    let drive = UnitName {
        kind: Kind::Mta,
        unit: 3,
    };
    events.wish(drive, Queue::Keep);
    let all = events.in_order(11).is_some();
    events.wish(drive, Queue::Cancel);
    events.wish(drive, Queue::After(6));
    all && stand(events, &LEFT)
}

fn are_cancelled(rt: &impl Abort, events: &mut Events) {
    for drive in 0..8u8 {
        ask(events, Kind::Mta, drive, 2);
    }
    holds(rt, cancels_all_drives(events), "all drives");
    events.clear();
    holds(rt, stand(events, &[]), "all events");
}

#[test]
fn all_drives_are_cancelled_at_once(rt: HostRuntime) -> Result<(), Fail> {
    let mut events = five(rt.alloc())?;
    are_cancelled(&rt, &mut events);
    Ok(())
}

const KINDS: [Kind; 11] = [
    Kind::Dsk,
    Kind::Mta,
    Kind::Lpt,
    Kind::Ptr,
    Kind::Ptp,
    Kind::Clk,
    Kind::Tti,
    Kind::Tto,
    Kind::Tti1,
    Kind::Tto1,
    Kind::Qty,
];

fn ask_every_unit(events: &mut Events, kind: Kind) {
    for unit in 0..units_of(kind) {
        ask(events, kind, unit, 100 - u32::from(unit.min(100)));
    }
}

fn all_wait(events: &mut Events) -> bool {
    for kind in KINDS.iter() {
        ask_every_unit(events, *kind);
    }
    stands_at(events, 0, &(Kind::Qty, 63, 37))
        && stands_at(events, 80, &(Kind::Qty, 0, 100))
        && events.in_order(81).is_none()
}

#[test]
fn all_81_units_wait_at_once(rt: HostRuntime) -> Result<(), Fail> {
    let mut events = Events::new(rt.alloc())?;
    holds(&rt, all_wait(&mut events), "81 units");
    Ok(())
}
