use crate::checked::holds;
use crate::units::{all_units, standard_units};
use nova_top::is_standard;
use std::test::Fail;
use unit_trait::Unit;

/// Sets register 2 of the first unit to 1. Answers whether the units are standard ones then.
fn stay_standard<U: Unit>(units: &mut [U]) -> bool {
    match units.first_mut() {
        Some(unit) => {
            let _set = unit.set_reg(2, 1);
        }
        None => (),
    }
    is_standard(units)
}

/// Whether these units are standard ones, and were not without the last one.
fn are_standard_together<U: Unit>(units: &[U]) -> bool {
    match units.split_last() {
        Some((_, others)) => !is_standard(others) && is_standard(units),
        None => false,
    }
}

/// Whether the last two units are standard ones in their order alone.
fn are_standard_in_order<U: Unit>(units: &mut [U]) -> bool {
    if units.len() != 10 {
        return false;
    }
    units.swap(8, 9);
    let swapped = is_standard(units);
    units.swap(8, 9);
    !swapped && is_standard(units)
}

fn are_told<U: Unit>(units: &mut [U]) -> bool {
    are_standard_together(units) && are_standard_in_order(units) && !stay_standard(units)
}

#[test]
fn standard_units_are_told_by_their_kinds_and_registers(rt: HostRuntime) -> Result<(), Fail> {
    let mut units = standard_units(rt.alloc())?;
    holds(&rt, are_told(units.as_mut_slice()), "standard units");
    Ok(())
}

/// Whether these units are standard ones, with the last one and without it.
fn are_standard_both_ways<U: Unit>(units: &[U]) -> bool {
    match units.split_last() {
        Some((_, others)) => is_standard(others) && is_standard(units),
        None => false,
    }
}

/// Whether the multiplexer is the last one alone.
fn is_last<U: Unit>(units: &mut [U]) -> bool {
    if units.len() != 11 {
        return false;
    }
    units.swap(9, 10);
    let swapped = is_standard(units);
    units.swap(9, 10);
    !swapped && is_standard(units)
}

#[test]
fn a_multiplexer_may_stand_behind_them(rt: HostRuntime) -> Result<(), Fail> {
    let mut units = all_units(rt.alloc())?;
    let units = units.as_mut_slice();
    let told = are_standard_both_ways(units) && is_last(units) && !stay_standard(units);
    holds(&rt, told, "standard units and a multiplexer");
    Ok(())
}
