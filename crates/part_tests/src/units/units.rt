// A list of units: each is found by its code, asked and set.
mod keys;

use crate::checked::holds;
use event_queue::Events;
use keys::Keys;
use std::alloc::{AllocError, Global};
use std::process::Abort;
use std::test::Fail;
use unit_list::{
    Places, all_fit, calls_reach_one_unit, due_at, flags_at, got_at, has_unit, io_at, reg_at,
    register_count, regs_at, reset_all, set_reg_at, set_regs_at,
};
use unit_trait::{Got, IoOp, Kind, Pulse, Queue, UnitName, UnitStop, Want, units_of};

const CONSOLE: UnitName = UnitName {
    kind: Kind::Tti,
    unit: 0,
};

const SECOND: UnitName = UnitName {
    kind: Kind::Tti1,
    unit: 0,
};

const CLOCK: UnitName = UnitName {
    kind: Kind::Clk,
    unit: 0,
};

/// A machine's units: the keyboard of the second terminal in front of the console's, and no clock.
fn keyboards() -> [Keys; 2] {
    [Keys::new(true), Keys::new(false)]
}

/// Whether the registers of a unit hold these values, and it has no fifth one.
fn hold(units: &[Keys], kind: Kind, values: [u32; 4]) -> bool {
    let places = Places::new(units);
    reg_at(&places, units, kind, 0) == Some(values[0])
        && reg_at(&places, units, kind, 1) == Some(values[1])
        && reg_at(&places, units, kind, 2) == Some(values[2])
        && reg_at(&places, units, kind, 3) == Some(values[3])
        && reg_at(&places, units, kind, 4).is_none()
}

/// Whether the unit with that code has these flags.
fn has_flags(units: &[Keys], code: u8, busy: bool, done: bool) -> bool {
    match flags_at(&Places::new(units), units, code) {
        Some(flags) => flags.busy == busy && flags.done == done,
        None => false,
    }
}

/// Whether a unit is found by that code, exactly where one is there.
fn is_found(units: &[Keys], code: u8, there: bool) -> bool {
    let places = Places::new(units);
    has_unit(&places, units, code) == there && flags_at(&places, units, code).is_some() == there
}

/// Whether a DIA with that pulse to that code is answered by that kind with that word.
fn answers(units: &mut [Keys], code: u8, pulse: Pulse, kind: Kind, word: u16) -> bool {
    let places = Places::new(units);
    match io_at(&places, units, code, IoOp::Dia, pulse, 0) {
        Some(said) => said.kind == kind && said.answer.word == word,
        None => false,
    }
}

/// Whether each device is asked by its own code, and no other one changes.
fn are_asked_by_code(units: &mut [Keys]) -> bool {
    let first = answers(units, 0o10, Pulse::Start, Kind::Tti, 0o101);
    let flags = has_flags(units, 0o10, true, false) && has_flags(units, 0o50, false, true);
    let second = answers(units, 0o50, Pulse::None, Kind::Tti1, 0o102);
    let places = Places::new(units);
    let none = io_at(&places, units, 0o14, IoOp::Dia, Pulse::Clear, 0).is_none();
    first && flags && second && none && has_flags(units, 0o10, true, false)
}

fn are_set(units: &mut [Keys]) -> bool {
    is_set(units, &(Kind::Tti, 3, 0o101, true))
        && is_set(units, &(Kind::Tti1, 3, 0o102, true))
        && is_set(units, &(Kind::Tti1, 1, 1, true))
}

fn are_found(units: &[Keys]) -> bool {
    is_found(units, 0o10, true)
        && is_found(units, 0o50, true)
        && is_found(units, 0o14, false)
        && is_found(units, 0, false)
}

#[test]
fn a_word_goes_to_the_device_with_its_code(rt: HostRuntime) {
    let mut units = keyboards();
    holds(&rt, are_set(&mut units), "their registers");
    holds(&rt, are_found(&units), "their codes");
    holds(&rt, are_asked_by_code(&mut units), "their words");
}

/// Whether a table that is made once finds the same unit behind calls of it and of another.
fn is_kept(units: &mut [Keys]) -> bool {
    let places = Places::new(units);
    let started = io_at(&places, units, 0o50, IoOp::Nio, Pulse::Start, 0).is_some();
    let set = set_reg_at(&places, units, Kind::Tti, 3, 0o103).is_ok();
    let read = reg_at(&places, units, Kind::Tti, 3) == Some(0o103);
    let busy = match flags_at(&places, units, 0o50) {
        Some(flags) => flags.busy,
        None => false,
    };
    started && set && read && busy && !has_unit(&places, units, 0o11)
}

#[test]
fn a_table_of_places_is_made_once(rt: HostRuntime) {
    holds(&rt, is_kept(&mut keyboards()), "a table");
}

/// Whether a unit has these registers, and no more.
fn has_all(
    alloc: Global,
    units: &[Keys],
    kind: Kind,
    registers: &[u32],
) -> Result<bool, AllocError> {
    let found = regs_at(alloc, &Places::new(units), units, kind)?;
    Ok(found.as_slice() == registers && usize::from(register_count(kind)) >= registers.len())
}

fn have_all(alloc: Global, units: &[Keys]) -> Result<bool, AllocError> {
    let set = has_all(alloc, units, Kind::Tti, &[1, 0, 50, 0o303])?;
    let other = has_all(alloc, units, Kind::Tti1, &[0, 0, 100, 0])?;
    let none = has_all(alloc, units, Kind::Clk, &[])?;
    Ok(set && other && none)
}

#[test]
fn all_registers_of_a_unit_are_set_at_once(rt: HostRuntime) -> Result<(), Fail> {
    let mut units = keyboards();
    set_regs_at(
        &Places::new(&units),
        &mut units,
        Kind::Tti,
        &[1, 0, 50, 0o303],
    );
    holds(&rt, have_all(rt.alloc(), &units)?, "all registers");
    Ok(())
}

fn wants(units: &mut [Keys], unit: UnitName, wanted: Want) -> bool {
    let places = Places::new(units);
    unit.unit < units_of(unit.kind) && due_at(&places, units, unit) == wanted
}

/// Whether a key is handed to the keyboard that its name says, which asks for its event again.
fn takes_key(units: &mut [Keys]) -> bool {
    let places = Places::new(units);
    let after = got_at(&places, units, CONSOLE, Got::Key(0o301));
    let none = got_at(&places, units, CLOCK, Got::Done);
    after.queue == Queue::After(100) && after.stop == UnitStop::Go && none.queue == Queue::Keep
}

fn all_want(units: &mut [Keys]) -> bool {
    wants(units, CONSOLE, Want::Key)
        && wants(units, SECOND, Want::LineKey(0))
        && wants(units, CLOCK, Want::Nothing)
}

fn have_taken(units: &[Keys]) -> bool {
    hold(units, Kind::Tti, [0, 1, 100, 0o301]) && hold(units, Kind::Tti1, [0, 0, 100, 0])
}

#[test]
fn a_unit_is_served_by_its_name(rt: HostRuntime) {
    let mut units = keyboards();
    holds(&rt, all_want(&mut units), "what they want");
    holds(&rt, takes_key(&mut units), "a key");
    holds(&rt, have_taken(&units), "their registers");
}

/// A register, a value, and whether it is taken.
const VALUES: [(Kind, u8, u32, bool); 8] = [
    (Kind::Tti, 2, 1, true),
    (Kind::Tti, 2, 0, false),
    (Kind::Tti1, 2, 65535, true),
    (Kind::Tti1, 2, 65536, false),
    (Kind::Tti1, 0, 1, true),
    (Kind::Tti, 4, 0, false),
    (Kind::Clk, 0, 0, false),
    (Kind::Tti, 3, 0o377, true),
];

/// Whether the value is taken exactly where it should be.
fn is_set(units: &mut [Keys], row: &(Kind, u8, u32, bool)) -> bool {
    let places = Places::new(units);
    match set_reg_at(&places, units, row.0, row.1, row.2) {
        Ok(()) => row.3,
        Err(_) => !row.3,
    }
}

fn with_value(rt: &impl Abort, so: bool, row: &(Kind, u8, u32, bool)) {
    assert!(rt; so, "{:?} {} {}", row.0, row.1, row.2);
}

fn are_limited(rt: &impl Abort, units: &mut [Keys]) {
    for row in VALUES.iter() {
        with_value(rt, is_set(units, row), row);
    }
}

fn have_their_last(units: &[Keys]) -> bool {
    all_fit(units);
    hold(units, Kind::Tti, [0, 0, 1, 0o377])
        && hold(units, Kind::Tti1, [1, 0, 65535, 0])
        && reg_at(&Places::new(units), units, Kind::Clk, 0).is_none()
}

#[test]
fn a_register_is_set_within_its_limits(rt: HostRuntime) {
    let mut units = keyboards();
    are_limited(&rt, &mut units);
    holds(&rt, have_their_last(&units), "the last values");
}

/// Whether the event with that number is that unit's, in 100 instructions.
fn waits_at(events: &Events, place: usize, name: UnitName) -> bool {
    match events.in_order(place) {
        Some((unit, left)) => unit.is(name) && left == 100,
        None => false,
    }
}

/// The events behind a reset of these units.
fn events_of_reset(alloc: Global, units: &mut [Keys]) -> Result<Events, AllocError> {
    let mut events = Events::new(alloc)?;
    reset_all(units, &mut events);
    Ok(events)
}

fn both_wait(events: &Events) -> bool {
    waits_at(events, 0, SECOND) && waits_at(events, 1, CONSOLE) && events.in_order(2).is_none()
}

fn are_reset(rt: &impl Abort, alloc: Global, units: &mut [Keys]) -> Result<(), AllocError> {
    let events = events_of_reset(alloc, units)?;
    holds(rt, both_wait(&events), "their events");
    holds(rt, has_flags(units, 0o10, false, false), "DONE");
    Ok(())
}

#[test]
fn a_reset_wishes_in_bus_order(rt: HostRuntime) -> Result<(), Fail> {
    let mut units = keyboards();
    let set = is_set(&mut units, &(Kind::Tti, 1, 1, true));
    holds(&rt, set, "DONE before");
    calls_reach_one_unit();
    are_reset(&rt, rt.alloc(), &mut units)?;
    Ok(())
}
