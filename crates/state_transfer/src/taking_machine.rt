// What is saved of a machine is taken from it: its processor, words, units, events and the ports of its lines.
ghost use Rattle.std.specs.Prelude.{◌≡◌, ◌<◌, map, option_map, slice_get, take, Some, IfOk, ℕ, length};
ghost use Rattle.host_lines.specs.State.{LineState};
ghost use Rattle.telnet_lines.specs.Joined.{seen_line};
ghost use Rattle.unit_trait.specs.Calls.{UnitState};
ghost use Rattle.unit_trait.specs.Kinds.{code_of};
ghost use Rattle.unit_list.specs.Bus.{unit_at};
ghost use Rattle.unit_list.specs.BusOrder.{place_of};
ghost use Rattle.saved_session.specs.Fields.{machine_in};
ghost use Rattle.saved_session.specs.Parts.{unit_in};
ghost use Rattle.saved_session.specs.Ranges.{kind_at, standard_kinds};
ghost use Rattle.state_transfer.specs.SavedValid.{AreStandard};
ghost use Rattle.saved_session.specs.Valid.{MachineFits};
ghost use Rattle.state_transfer.specs.Session.{saved_unit, saved_event, saved_machine, saved_ports, port_number, port_of as port_if};
ghost use Rattle.nova_machine.specs.Machine.{place_of as line_place};

use crate::processor::taken_cpu;
use event_queue::Events;
use nova_machine::Machine;
use nova_memory::Memory;
use nova_word::{Addr, Word};
use saved_session::{MachineFields, SavedEvent, SavedPorts, SavedUnit, kind_at, register_count};
use std::alloc::{AllocError, Global};
use telnet_lines::Line;
use unit_trait::{Kind, Unit};

/// The words below the size of memory.
pub fn taken_words(alloc: Global, memory: &Memory) -> Result<Vec<u16>, AllocError>
    ensures { IfOk result (λ v. v.items ≡ take memory.now.size memory.now.words) }
{
    let mut words = Vec::new(alloc);
    for address in 0..memory.size() {
        let word = memory.read(Addr::of_word(Word(address)));
        words.push(word.0)?;
    }
    Ok(words)
}

// The registers of the unit of a kind, which is there.
fn taken_registers<U: Unit>(
    alloc: Global,
    machine: &Machine<U>,
    kind: Kind,
) -> Result<Vec<u32>, AllocError>
    ensures { IfOk result (λ v. (u : UnitState) → unit_at (code_of kind) machine.now.units ≡ Some u → v.items ≡ u.registers) }
{
    machine.core();
    let mut registers = Vec::new(alloc);
    for i in 0..register_count(kind) {
        match machine.unit_reg(kind, i) {
            Some(value) => registers.push(value)?,
            None => return Ok(registers),
        }
    }
    Ok(registers)
}

// How many units a standard machine has.
fn unit_count<U: Unit>(machine: &Machine<U>) -> u8
    requires { AreStandard machine.now.units }
    ensures { result ≡ length machine.now.units }
{
    if machine.has_unit(Kind::Qty) { 11 } else { 10 }
}

/// All units, in bus order.
pub fn taken_units<U: Unit>(
    alloc: Global,
    machine: &Machine<U>,
) -> Result<Vec<SavedUnit>, AllocError>
    requires { AreStandard machine.now.units }
    ensures { IfOk result (λ v. map unit_in v.items ≡ map saved_unit machine.now.units) }
{
    let mut units = Vec::new(alloc);
    for position in 0..unit_count(machine) {
        let registers = taken_registers(alloc, machine, kind_at(position))?;
        units.push(SavedUnit {
            position,
            registers,
        })?;
    }
    Ok(units)
}

// The position of a kind in bus order.
fn position_of(kind: Kind) -> u8
    ensures { result ≡ place_of kind }
{
    match kind {
        Kind::Dsk => 0,
        Kind::Mta => 1,
        Kind::Lpt => 2,
        Kind::Ptr => 3,
        Kind::Ptp => 4,
        Kind::Clk => 5,
        Kind::Tti => 6,
        Kind::Tto => 7,
        Kind::Tti1 => 8,
        Kind::Tto1 => 9,
        Kind::Qty => 10,
    }
}

// The event at a place in the order of their times; None past the last one.
fn event_at(events: &Events, k: usize) -> Option<SavedEvent>
    ensures { result ≡ option_map saved_event (slice_get events.now k) }
{
    events.sound();
    match events.in_order(k) {
        Some((unit, remaining)) => Some(SavedEvent {
            position: position_of(unit.kind),
            unit: unit.unit,
            remaining: remaining as u32,
        }),
        None => None,
    }
}

/// The events that wait, the next one first.
pub fn taken_agenda(alloc: Global, events: &Events) -> Result<Vec<SavedEvent>, AllocError>
    ensures { IfOk result (λ v. v.items ≡ map saved_event events.now) }
{
    let mut agenda = Vec::new(alloc);
    for k in 0..events.len() {
        match event_at(events, k) {
            Some(event) => agenda.push(event)?,
            None => return Ok(agenda),
        }
    }
    Ok(agenda)
}

/// All that is saved of a machine but its files and its ports.
#[tactic(auto, unfolding(crate::specs::Session::saved_machine))]
pub fn taken_machine<U: Unit>(
    alloc: Global,
    machine: &Machine<U>,
) -> Result<MachineFields, AllocError>
    requires { AreStandard machine.now.units }
    ensures machine { IfOk result (λ f. machine_in f ≡ saved_machine machine.now) }
    ensures fit { IfOk result (λ f. MachineFits (machine_in f)) }
{
    machine.core();
    let _size = machine.memory().size();
    Ok(MachineFields {
        cpu: taken_cpu(machine),
        words: taken_words(alloc, machine.memory())?,
        units: taken_units(alloc, machine)?,
        agenda: taken_agenda(alloc, machine.events())?,
    })
}

// The port of a line, whoever is connected to it; 0 is none.
fn port_of(line: &Line) -> u16
    ensures { result ≡ port_number line.now.port }
{
    line.port().unwrap_or(0)
}

// The same of a terminal line by its number; 0 where it is not there.
fn port_at<U: Unit>(machine: &Machine<U>, number: u8) -> u16
    ensures { (s : LineState) → result ≡ port_if (slice_get (map (seen_line s) machine.now.lines) (line_place number)) }
{
    match machine.line_at(number) {
        Some(line) => port_of(line),
        None => 0,
    }
}

/// The ports of the second teletype's line, of the multiplexer's first and of the console's, whoever is connected to
/// them; 0 is none.
#[tactic(auto, unfolding(crate::specs::Session::saved_ports))]
pub fn taken_ports<U: Unit>(machine: &Machine<U>) -> SavedPorts
    ensures { (s : LineState) → result ≡ saved_ports (map (seen_line s) machine.now.lines) }
{
    SavedPorts {
        tti1: port_at(machine, 0),
        qty: port_at(machine, 1),
        console: port_of(machine.console_at()),
    }
}
