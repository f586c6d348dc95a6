// Parts of a machine that are set while it stands: its clock, its events and its memory.
ghost use Rattle.std.specs.Prelude.{◌≡◌, ◌∷◌, [], map};
ghost use Rattle.unit_trait.specs.declared.kind.Kind.TheVariants.{Clk as clock, Tti as keyboard, Tto as printer};
ghost use Rattle.unit_trait.specs.Row.{initial_unit};

use crate::machines::console_units;
use crate::row::check;
use event_queue::Events;
use nova_machine::{CpuReg, Machine};
use std::alloc::{AllocError, Global};
use std::process::Abort;
use std::test::Fail;
use unit_trait::{Kind, Unit, UnitName};

/// Whether the time and the number of taken keys are those that were set.
fn goes_from_there<U: Unit>(machine: &mut Machine<U>) -> bool {
    machine.set_clock(1 << 60, 3);
    machine.time() == 1 << 60 && machine.keys_taken() == 3
}

/// Asks for an event of a unit, where the machine has it.
fn ask<U: Unit>(machine: &mut Machine<U>, kind: Kind, remaining: u32) {
    if machine.has_unit(kind) {
        machine.activate(UnitName { kind, unit: 0 }, remaining);
    }
}

fn stands(events: &Events, place: usize, kind: Kind, remaining: u64) -> bool {
    events.in_order(place) == Some((UnitName { kind, unit: 0 }, remaining))
}

/// Whether three events wait, two of them of one time, in the order in which they were asked for.
fn stand_in_order(events: &Events) -> bool {
    events.len() == 3
        && stands(events, 0, Kind::Tto, 2)
        && stands(events, 1, Kind::Tti, 7)
        && stands(events, 2, Kind::Clk, 7)
}

fn asks_for_three<U: Unit>(machine: &mut Machine<U>) -> bool {
    machine.clear_events();
    let none = machine.events().len() == 0;
    ask(machine, Kind::Tti, 7);
    ask(machine, Kind::Tto, 2);
    ask(machine, Kind::Clk, 7);
    ask(machine, Kind::Clk, 1);
    ask(machine, Kind::Lpt, 1);
    none && stand_in_order(machine.events())
}

/// Whether a unit has these registers, and no more.
fn has_registers<U: Unit>(
    alloc: Global,
    machine: &Machine<U>,
    kind: Kind,
    values: &[u32],
) -> Result<bool, AllocError> {
    let found = machine.unit_regs(alloc, kind)?;
    Ok(found.as_slice() == values)
}

/// Sets all registers of a unit.
fn set_together<U: Unit>(
    rt: &impl Abort,
    alloc: Global,
    machine: &mut Machine<U>,
) -> Result<(), AllocError> {
    machine.set_unit_regs(Kind::Clk, &[1, 0, 3]);
    let clock = has_registers(alloc, machine, Kind::Clk, &[1, 0, 3])?;
    check(rt, clock, "the clock");
    let none = has_registers(alloc, machine, Kind::Lpt, &[])?;
    check(rt, none, "a unit that is not there");
    Ok(())
}

const WORDS: [u16; 4096] = [7; 4096];

fn has_the_words<U: Unit>(machine: &mut Machine<U>) -> bool {
    machine.memory_mut().set_words(&WORDS);
    machine.cpu_reg(CpuReg::Size) == 4096 && machine.memory().as_slice() == WORDS.as_slice()
}

fn goes_on<U: Unit>(rt: &impl Abort, machine: &mut Machine<U>) {
    check(rt, asks_for_three(machine), "events");
    check(rt, goes_from_there(machine), "the clock");
    check(
        rt,
        stand_in_order(machine.events()),
        "events behind the clock",
    );
    check(rt, has_the_words(machine), "memory");
}

fn is_set<U: Unit>(rt: &impl Abort, alloc: Global, units: Vec<U>) -> Result<(), AllocError>
    requires { map U.unit_state units.items ≡ map initial_unit (clock ∷ keyboard ∷ printer ∷ []) }
{
    let mut machine = Machine::new(alloc, units)?;
    set_together(rt, alloc, &mut machine)?;
    goes_on(rt, &mut machine);
    Ok(())
}

#[test]
fn a_machine_goes_on_from_what_is_set(rt: HostRuntime) -> Result<(), Fail> {
    let units = console_units(rt.alloc())?;
    is_set(&rt, rt.alloc(), units)?;
    Ok(())
}
