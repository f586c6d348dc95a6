// A run against its turns, one by one, on a machine with both keyboards: their looks come together or apart, and the second
// one's line has a port or none.
ghost use Rattle.std.specs.Prelude.{◌≡◌, ◌∷◌, [], map, IfOk};
ghost use Rattle.unit_trait.specs.declared.kind.Kind.TheVariants.{Tti as keyboard, Tti1 as second_keyboard};
ghost use Rattle.unit_trait.specs.Row.{initial_unit};

use crate::bursts::{Way, same_events, with_files};
use crate::lines::{gives_port, lines_of};
use crate::names::Place;
use crate::places::{held, load, put_all};
use crate::row::{Row, check, text};
use host_files::{ByteSink, MemFiles};
use host_lines::Lines;
use nova_machine::Machine;
use std::alloc::{AllocError, Global};
use std::process::Abort;
use std::test::Fail;
use tty_units::{Tti, Tti1};
use unit_files::Attached;
use unit_trait::{CpuReg, Kind, Unit};

/// A loop that counts; and from its first look on a keyboard looks each 100 instructions.
const BASE: &str = "words: 101400 777 | then: TTI.TIME=144 TTI1.TIME=144";

const A_RUN_PASSES_LOOKS_AS_ITS_TURNS_DO: &str = "; both together
put: TTI.TIME=144
; TTI behind TTI1, and TTI1 behind TTI
put: TTI.TIME=202
put: TTI1.TIME=202
; each in its own time from then on
put: TTI.TIME=144 | then: TTI1.TIME=145
; the line has a port: together and apart
put: TTI.TIME=144 | port: given | types: AB | takes: 100
put: TTI1.TIME=202 | port: given | types: AB | takes: 100";

#[test]
fn a_run_passes_looks_as_its_turns_do(rt: HostRuntime) -> Result<(), Fail> {
    for line in A_RUN_PASSES_LOOKS_AS_ITS_TURNS_DO.lines() {
        if !line.starts_with(';') {
            one_way(&rt, rt.alloc(), Row { base: BASE, line })?;
        }
    }
    Ok(())
}

/// A machine that runs.
fn one_way(rt: &impl Abort, alloc: Global, row: Row<'_>) -> Result<(), AllocError> {
    let units = keyboards(alloc)?;
    with_run(rt, alloc, units, row)
}

fn keyboards(alloc: Global) -> Result<Vec<Box<dyn Unit>>, AllocError>
    ensures { IfOk result (λ units. map ⟦<Box<dyn Unit> as Unit>⟧.unit_state units.items ≡ map initial_unit (keyboard ∷ second_keyboard ∷ [])) }
{
    let mut units: Vec<Box<dyn Unit>> = Vec::new(alloc);
    units.push(Box::new(alloc, Tti::new())?)?;
    units.push(Box::new(alloc, Tti1::new())?)?;
    Ok(units)
}

fn with_run<U: Unit>(
    rt: &impl Abort,
    alloc: Global,
    units: Vec<U>,
    row: Row<'_>,
) -> Result<(), AllocError>
    requires { map U.unit_state units.items ≡ map initial_unit (keyboard ∷ second_keyboard ∷ []) }
{
    let mut machine = begun(alloc, units)?;
    goes(rt, alloc, &mut machine, Way::Run, row)?;
    other_way(rt, alloc, &machine, row)
}

fn begun<U: Unit>(alloc: Global, units: Vec<U>) -> Result<Machine<U>, AllocError>
    requires { map U.unit_state units.items ≡ map initial_unit (keyboard ∷ second_keyboard ∷ []) }
{
    Machine::new(alloc, units)
}

/// The other machine, which makes turns.
fn other_way<U: Unit>(
    rt: &impl Abort,
    alloc: Global,
    run: &Machine<U>,
    row: Row<'_>,
) -> Result<(), AllocError> {
    let units = keyboards(alloc)?;
    with_turns(rt, alloc, run, units, row)
}

fn with_turns<U: Unit, V: Unit>(
    rt: &impl Abort,
    alloc: Global,
    run: &Machine<U>,
    units: Vec<V>,
    row: Row<'_>,
) -> Result<(), AllocError>
    requires { map V.unit_state units.items ≡ map initial_unit (keyboard ∷ second_keyboard ∷ []) }
{
    let mut machine = begun(alloc, units)?;
    goes(rt, alloc, &mut machine, Way::Turns, row)?;
    check(rt, same(run, &machine), row.line);
    Ok(())
}

/// A machine goes on for some thousands of instructions, of which the first 5 come before any look.
fn goes<U: Unit>(
    rt: &impl Abort,
    alloc: Global,
    machine: &mut Machine<U>,
    way: Way,
    row: Row<'_>,
) -> Result<(), AllocError> {
    load(rt, machine, text(row, "words"));
    put_all(rt, machine, text(row, "put"));
    machine.reset();
    let mut lines = lines_of(alloc, row)?;
    gives_port(rt, alloc, machine, &mut lines, row);
    on_lines(rt, alloc, machine, way, &mut lines, row)
}

fn on_lines<U: Unit, L: Lines>(
    rt: &impl Abort,
    alloc: Global,
    machine: &mut Machine<U>,
    way: Way,
    lines: &mut L,
    row: Row<'_>,
) -> Result<(), AllocError> {
    goes_on(alloc, machine, way, 5, lines)?;
    put_all(rt, machine, text(row, "then"));
    goes_on(alloc, machine, way, 4321, lines)
}

fn goes_on<U: Unit, L: Lines>(
    alloc: Global,
    machine: &mut Machine<U>,
    way: Way,
    count: u64,
    lines: &mut L,
) -> Result<(), AllocError> {
    *machine.attached_mut() = Attached::new(alloc)?;
    let mut files = MemFiles::with_room(alloc, 0)?;
    let mut console = ByteSink::with_room(alloc, 0)?;
    with_files(alloc, machine, way, count, &mut files, lines, &mut console)?;
    Ok(())
}

fn same<U: Unit, V: Unit>(run: &Machine<U>, turned: &Machine<V>) -> bool {
    run.time() == turned.time()
        && run.time() == 4326
        && run.cpu_reg(CpuReg::Ac0) == 2163
        && run.cpu_reg(CpuReg::Pc) == turned.cpu_reg(CpuReg::Pc)
        && run.cpu_reg(CpuReg::Ac0) == turned.cpu_reg(CpuReg::Ac0)
        && same_keyboards(run, turned)
        && same_events(run.events(), turned.events())
}

/// The same BUSY, DONE, TIME and BUF.
fn same_keyboards<U: Unit, V: Unit>(run: &Machine<U>, turned: &Machine<V>) -> bool {
    for number in 0..4u8 {
        if held(run, Place::Device(Kind::Tti, number))
            != held(turned, Place::Device(Kind::Tti, number))
            || held(run, Place::Device(Kind::Tti1, number))
                != held(turned, Place::Device(Kind::Tti1, number))
        {
            return false;
        }
    }
    true
}
