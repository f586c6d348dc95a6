// The machines on which rows are played.
ghost use Rattle.std.specs.Prelude.{◌≡◌, ◌∷◌, [], map, IfOk};
ghost use Rattle.unit_trait.specs.declared.kind.Kind.TheVariants.{Mta as drives, Lpt as line_printer, Ptr as reader};
ghost use Rattle.unit_trait.specs.declared.kind.Kind.TheVariants.{Ptp as punch, Clk as clock, Tti as keyboard, Tto as printer};
ghost use Rattle.unit_trait.specs.declared.kind.Kind.TheVariants.{Tti1 as second_keyboard, Tto1 as second_printer};
ghost use Rattle.unit_trait.specs.Row.{initial_unit};

use crate::play::play;
use crate::row::Row;
use clock_unit::Clk;
use nova_machine::Machine;
use paper_tape::{Lpt, Ptp, Ptr};
use std::alloc::{AllocError, Global};
use std::process::Abort;
use std::test::Fail;
use tape_unit::Mta;
use tty_units::{Tti, Tti1, Tto, Tto1};
use unit_trait::Unit;

/// The units of a machine.
#[derive(Clone, Copy)]
pub enum Units {
    /// A clock, a keyboard and a printer.
    Console,
    /// A line printer, a reader and a punch.
    Paper,
    /// Magnetic tape alone.
    Tape,
    /// The second teletype, on terminal line 0.
    Teletype,
    /// The keyboard of the console, and the second teletype.
    Keyboards,
}

/// Plays each line of a table on a new machine, but comments, which begin with a semicolon.
pub fn all(
    rt: &impl Abort,
    alloc: Global,
    units: Units,
    base: &str,
    table: &str,
) -> Result<(), Fail> {
    for line in table.lines() {
        if !line.starts_with(';') {
            comes(rt, alloc, units, Row { base, line })?;
        }
    }
    Ok(())
}

fn comes(rt: &impl Abort, alloc: Global, units: Units, row: Row<'_>) -> Result<(), AllocError> {
    match units {
        Units::Console => console(rt, alloc, row),
        Units::Paper => paper(rt, alloc, row),
        Units::Tape => tape(rt, alloc, row),
        Units::Teletype => teletype(rt, alloc, row),
        Units::Keyboards => keyboards(rt, alloc, row),
    }
}

fn console(rt: &impl Abort, alloc: Global, row: Row<'_>) -> Result<(), AllocError> {
    let units = console_units(alloc)?;
    with_console(rt, alloc, units, row)
}

pub fn console_units(alloc: Global) -> Result<Vec<Box<dyn Unit>>, AllocError>
    ensures { IfOk result (λ units. map ⟦<Box<dyn Unit> as Unit>⟧.unit_state units.items ≡ map initial_unit (clock ∷ keyboard ∷ printer ∷ [])) }
{
    let mut units: Vec<Box<dyn Unit>> = Vec::new(alloc);
    units.push(Box::new(alloc, Clk::new())?)?;
    units.push(Box::new(alloc, Tti::new())?)?;
    units.push(Box::new(alloc, Tto::new())?)?;
    Ok(units)
}

fn with_console<U: Unit>(
    rt: &impl Abort,
    alloc: Global,
    units: Vec<U>,
    row: Row<'_>,
) -> Result<(), AllocError>
    requires { map U.unit_state units.items ≡ map initial_unit (clock ∷ keyboard ∷ printer ∷ []) }
{
    let mut machine = Machine::new(alloc, units)?;
    play(rt, alloc, &mut machine, row)
}

fn paper(rt: &impl Abort, alloc: Global, row: Row<'_>) -> Result<(), AllocError> {
    let units = paper_units(alloc)?;
    with_paper(rt, alloc, units, row)
}

fn paper_units(alloc: Global) -> Result<Vec<Box<dyn Unit>>, AllocError>
    ensures { IfOk result (λ units. map ⟦<Box<dyn Unit> as Unit>⟧.unit_state units.items ≡ map initial_unit (line_printer ∷ reader ∷ punch ∷ [])) }
{
    let mut units: Vec<Box<dyn Unit>> = Vec::new(alloc);
    units.push(Box::new(alloc, Lpt::new())?)?;
    units.push(Box::new(alloc, Ptr::new())?)?;
    units.push(Box::new(alloc, Ptp::new())?)?;
    Ok(units)
}

fn with_paper<U: Unit>(
    rt: &impl Abort,
    alloc: Global,
    units: Vec<U>,
    row: Row<'_>,
) -> Result<(), AllocError>
    requires { map U.unit_state units.items ≡ map initial_unit (line_printer ∷ reader ∷ punch ∷ []) }
{
    let mut machine = Machine::new(alloc, units)?;
    play(rt, alloc, &mut machine, row)
}

fn tape(rt: &impl Abort, alloc: Global, row: Row<'_>) -> Result<(), AllocError> {
    let mut units: Vec<Box<dyn Unit>> = Vec::new(alloc);
    units.push(Box::new(alloc, Mta::new())?)?;
    with_tape(rt, alloc, units, row)
}

fn with_tape<U: Unit>(
    rt: &impl Abort,
    alloc: Global,
    units: Vec<U>,
    row: Row<'_>,
) -> Result<(), AllocError>
    requires { map U.unit_state units.items ≡ map initial_unit (drives ∷ []) }
{
    let mut machine = Machine::new(alloc, units)?;
    play(rt, alloc, &mut machine, row)
}

fn teletype(rt: &impl Abort, alloc: Global, row: Row<'_>) -> Result<(), AllocError> {
    let mut units: Vec<Box<dyn Unit>> = Vec::new(alloc);
    units.push(Box::new(alloc, Tti1::new())?)?;
    units.push(Box::new(alloc, Tto1::new())?)?;
    with_teletype(rt, alloc, units, row)
}

fn with_teletype<U: Unit>(
    rt: &impl Abort,
    alloc: Global,
    units: Vec<U>,
    row: Row<'_>,
) -> Result<(), AllocError>
    requires { map U.unit_state units.items ≡ map initial_unit (second_keyboard ∷ second_printer ∷ []) }
{
    let mut machine = Machine::new(alloc, units)?;
    play(rt, alloc, &mut machine, row)
}

fn keyboards(rt: &impl Abort, alloc: Global, row: Row<'_>) -> Result<(), AllocError> {
    let mut units: Vec<Box<dyn Unit>> = Vec::new(alloc);
    units.push(Box::new(alloc, Tti::new())?)?;
    units.push(Box::new(alloc, Tti1::new())?)?;
    units.push(Box::new(alloc, Tto1::new())?)?;
    with_keyboards(rt, alloc, units, row)
}

fn with_keyboards<U: Unit>(
    rt: &impl Abort,
    alloc: Global,
    units: Vec<U>,
    row: Row<'_>,
) -> Result<(), AllocError>
    requires { map U.unit_state units.items ≡ map initial_unit (keyboard ∷ second_keyboard ∷ second_printer ∷ []) }
{
    let mut machine = Machine::new(alloc, units)?;
    play(rt, alloc, &mut machine, row)
}
