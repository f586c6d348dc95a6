// Devices in boxes, as a machine has them.
use crate::devices::rows::plays;
use clock_unit::Clk;
use paper_tape::{Lpt, Ptp, Ptr};
use std::alloc::{AllocError, Global};
use std::process::Abort;
use std::test::Fail;
use tty_units::{Tti, Tto};
use unit_trait::Unit;

/// A row for each device.
const CALLED: &str =
    "| kind = CLK | DOAS 2 = 0 after:10000 | due 0 = nothing | got 0 done = keep go | 0 1 2
| kind = TTI | DOAS 0o301 = 0 keep | due 0 = key | got 0 key 75 = after:100 go | 0 1 100 75
| kind = TTO | DOAS 0o301 = 0 after:100 | due 0 = console 65 | got 0 done = keep go | 0 1 100 0o301
| kind = LPT | DOAS 0o301 = 0 after:500 | due 0 = write 0 65 | got 0 done = keep go | 0 1 0 500 65 1
| kind = PTR | DOAS 0o301 = 0 after:300 | due 0 = read 0 | got 0 byte 1 = keep go | 0 1 0 300 1 1
| kind = PTP | DOAS 0o301 = 0 after:200 | due 0 = write 0 0o301 | got 0 done = keep go | 0 1 0 200 0o301 1";

type Units = Vec<Box<dyn Unit>>;

fn add_clock_and_teletype(alloc: Global, units: &mut Units) -> Result<(), AllocError> {
    units.push(Box::new(alloc, Clk::new())?)?;
    units.push(Box::new(alloc, Tti::new())?)?;
    units.push(Box::new(alloc, Tto::new())?)?;
    Ok(())
}

fn add_paper_units(alloc: Global, units: &mut Units) -> Result<(), AllocError> {
    units.push(Box::new(alloc, Lpt::new())?)?;
    units.push(Box::new(alloc, Ptr::new())?)?;
    units.push(Box::new(alloc, Ptp::new())?)?;
    Ok(())
}

fn boxes(alloc: Global) -> Result<Units, AllocError> {
    let mut units: Units = Vec::new(alloc);
    add_clock_and_teletype(alloc, &mut units)?;
    add_paper_units(alloc, &mut units)?;
    Ok(units)
}

fn are_called<U: Unit>(rt: &impl Abort, units: &mut [U]) {
    for (unit, row) in units.iter_mut().zip(CALLED.lines()) {
        plays(rt, unit, row);
    }
}

#[test]
fn devices_in_boxes_tick_type_print_read_and_write(rt: HostRuntime) -> Result<(), Fail> {
    let mut units = boxes(rt.alloc())?;
    are_called(&rt, &mut units);
    Ok(())
}
