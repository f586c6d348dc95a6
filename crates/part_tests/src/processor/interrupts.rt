// Interrupts: which device asks for one, and when they are on.
use crate::checked::holds;
use crate::processor::rows::octals;
use clock_unit::Clk;
use nova_interrupts::{Ints, zero_is_no_request};
use std::alloc::{AllocError, Global};
use std::test::Fail;
use tty_units::{Tti, Tto};
use unit_trait::Unit;

/// DONE of the clock, the keyboard and the printer, the mask word, and the code that is acknowledged.
const REQUESTS: &str = "0 0 0 0 0
1 0 0 0 14
0 1 0 0 10
0 0 1 0 11
1 1 1 0 14
0 1 1 0 10
1 1 1 4 10
1 1 1 6 11
1 1 1 7 0
1 1 1 177777 0
1 1 1 177770 14
1 0 1 5 0
0 0 1 2 11";

fn units(alloc: Global) -> Result<Vec<Box<dyn Unit>>, AllocError> {
    let mut units: Vec<Box<dyn Unit>> = Vec::new(alloc);
    units.push(Box::new(alloc, Clk::new())?)?;
    units.push(Box::new(alloc, Tti::new())?)?;
    units.push(Box::new(alloc, Tto::new())?)?;
    Ok(units)
}

/// Sets the DONE of each unit.
fn set_done<U: Unit>(units: &mut [U], done: &[u16]) -> bool {
    for (unit, done) in units.iter_mut().zip(done) {
        if unit.set_reg(1, u32::from(*done)).is_err() {
            return false;
        }
    }
    true
}

fn acknowledges<U: Unit>(units: &[U], mask: u16, code: u16) -> bool {
    let mut ints = Ints::new();
    ints.mask_out(mask);
    ints.acknowledge(units) == code && ints.requested(units) == (code != 0)
}

fn answers<U: Unit>(units: &mut [U], line: &str) -> bool {
    match octals::<5>(line) {
        Some(row) => {
            let [clock, keyboard, printer, mask, code] = row;
            set_done(units, &[clock, keyboard, printer]) && acknowledges(units, mask, code)
        }
        None => false,
    }
}

#[test]
fn the_first_device_that_asks_is_acknowledged(rt: HostRuntime) -> Result<(), Fail> {
    let mut units = units(rt.alloc())?;
    for line in REQUESTS.lines() {
        holds(&rt, answers(units.as_mut_slice(), line), line);
    }
    zero_is_no_request();
    Ok(())
}

fn are(ints: &Ints, mask: u16, on: bool, hold: bool) -> bool {
    ints.mask == mask && ints.on == on && ints.hold == hold
}

fn wait_behind_an_enable(ints: &mut Ints) -> bool {
    let off = are(ints, 0, false, false);
    ints.mask_out(0o123456);
    ints.enable();
    let wait = are(ints, 0o123456, true, true);
    ints.release();
    off && wait && are(ints, 0o123456, true, false)
}

fn are_turned_off(ints: &mut Ints) -> bool {
    ints.enable();
    ints.disable();
    let off = are(ints, 0o123456, false, false);
    ints.enable();
    ints.reset();
    off && are(ints, 0, false, false)
}

#[test]
fn interrupts_wait_behind_an_enable(rt: HostRuntime) {
    let mut ints = Ints::new();
    holds(&rt, wait_behind_an_enable(&mut ints), "an enable");
    holds(&rt, are_turned_off(&mut ints), "a disable and a reset");
}
