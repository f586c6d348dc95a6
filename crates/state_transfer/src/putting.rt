// What was saved of a machine is put into it: its processor, words, units and events.
ghost use Rattle.std.specs.Prelude.{◌≡◌, ◌*◌, ◌<◌, ℕ, false, [], IsTrue, length, map, is_some};
ghost use Rattle.unit_trait.specs.declared.kind.Kind.TheVariants.{Qty as multiplexer_kind};
ghost use Rattle.unit_trait.specs.Kinds.{code_of, units_of};
ghost use Rattle.unit_trait.specs.Registers.{registers};
ghost use Rattle.unit_trait.specs.Row.{InRange};
ghost use Rattle.unit_list.specs.Bus.{unit_at};
ghost use Rattle.unit_list.specs.Whole.{with_registers_in};
ghost use Rattle.event_queue.specs.EventList.{activated};
ghost use Rattle.nova_memory.specs.Memory.{IsSize};
ghost use Rattle.nova_machine.specs.Turn.{with_memory};
ghost use Rattle.saved_session.specs.Parts.{unit_in, state_in};
ghost use Rattle.state_transfer.specs.Processor.{with_cpu_of};
ghost use Rattle.state_transfer.specs.PutBack.{memory_from, unit_from, lack_multiplexer, misses_unit, first_multiplexer, units_from, unit_named, event_from};
ghost use Rattle.state_transfer.specs.Putting.{with_machine_of, IsSeenAs};
ghost use Rattle.saved_session.specs.Ranges.{kind_at, is_unit_count};
ghost use Rattle.saved_session.specs.Order.{next_number, with_event};
ghost use Rattle.state_transfer.specs.SavedValid.{AreStandard};
ghost use Rattle.saved_session.specs.Valid.{Follow, IsUnit, IsEvent, IsMachine};

use crate::processor::put_cpu;
use nova_machine::Machine;
use saved_session::{Saved, SavedEvent, SavedUnit, kind_at};
use unit_trait::{Kind, Unit, UnitName};

/// The words of memory, and with them its size; and the rule of the auto-index locations.
pub fn put_memory<U: Unit>(machine: &mut Machine<U>, words: &[u16], before: bool)
    requires { IsSize (length words.now) }
    ensures { (k : ℕ) → length words.now ≡ 1024 * k
        → machine.new ≡ with_memory machine.old (memory_from before k words.now) }
{
    machine.memory_mut().set_words(words);
    machine.memory_mut().set_autobit(before);
}

// The registers of a unit.
fn put_unit<U: Unit>(machine: &mut Machine<U>, unit: &SavedUnit)
    requires { InRange (registers (kind_at unit.now.position)) unit.now.registers.items }
    ensures { machine.new ≡ record machine.old {
      units = with_registers_in (kind_at unit.now.position)
          unit.now.registers.items machine.old.units;
    } }
{
    machine.set_unit_regs(kind_at(unit.position), &unit.registers);
}

// What the registers of the multiplexer hold at first: the time of its lines is 100, and all others are 0.
#[tactic(auto, using(crate::proofs::PutBackMachineLemmas::registers_first))]
fn first_registers() -> [u32; 131]
    ensures { result ≡ first_multiplexer.registers }
{
    let mut registers = [0; 131];
    registers[2] = 100;
    registers
}

// Whether the multiplexer is there, and not among the saved units.
fn lacks_first<U: Unit>(machine: &Machine<U>, units: &[SavedUnit]) -> bool
    requires all { IsTrue (is_unit_count (length units.now)) }
    requires valid { Follow IsUnit next_number 0 (map unit_in units.now) }
    ensures { result ≡ lack_multiplexer (map unit_from (map unit_in units.now)) machine.now.units }
{
    machine.has_unit(Kind::Qty) && units.len() == 10
}

// The registers of the multiplexer, as they are at first.
fn put_first<U: Unit>(machine: &mut Machine<U>)
    ensures { machine.new ≡ record machine.old {
      units = with_registers_in multiplexer_kind first_multiplexer.registers machine.old.units;
    } }
{
    machine.set_unit_regs(Kind::Qty, &first_registers());
}

/// The registers of all units, which are those of a standard machine. The multiplexer is as it is at first, where it
/// was not saved.
pub fn put_units<U: Unit>(machine: &mut Machine<U>, units: &[SavedUnit])
    requires standard { AreStandard machine.old.units }
    requires all { IsTrue (is_unit_count (length units.now)) }
    requires valid { Follow IsUnit next_number 0 (map unit_in units.now) }
    requires there { lack_multiplexer machine.old.units (map unit_from (map unit_in units.now)) ≡ false }
    ensures { machine.new ≡ record machine.old { units = units_from (map unit_in units.now) machine.old.units } }
{
    let lacks = lacks_first(machine, units);
    for unit in units {
        put_unit(machine, unit);
    }
    if lacks {
        put_first(machine);
    }
}

// The unit of an event.
fn unit_of(event: &SavedEvent) -> UnitName
    ensures { result ≡ unit_named event.now.position event.now.unit }
{
    UnitName {
        kind: kind_at(event.position),
        unit: event.unit,
    }
}

// An event that waits behind those that are due no later.
fn put_event<U: Unit>(machine: &mut Machine<U>, event: &SavedEvent)
    requires number { event.now.unit < units_of (kind_at event.now.position) }
    requires there { IsTrue (is_some (unit_at (code_of (kind_at event.now.position)) machine.old.units)) }
    ensures { machine.new ≡ record machine.old {
      events = activated (unit_named event.now.position event.now.unit)
          event.now.remaining machine.old.events;
    } }
{
    machine.activate(unit_of(event), event.remaining);
}

/// The events that wait, and no others: those of one time stay in their order.
pub fn put_agenda<U: Unit>(machine: &mut Machine<U>, agenda: &[SavedEvent])
    requires standard { AreStandard machine.old.units }
    requires valid { Follow (IsEvent (length machine.old.units)) with_event [] agenda.now }
    ensures { machine.new ≡ record machine.old { events = map event_from agenda.now } }
{
    machine.clear_events();
    for event in agenda {
        put_event(machine, event);
    }
}

/// The machine, but for its files and its lines.
pub fn put_machine<U: Unit>(machine: &mut Machine<U>, saved: &Saved)
    requires standard { AreStandard machine.old.units }
    requires valid { IsMachine (state_in saved.now).machine }
    requires there { misses_unit (state_in saved.now).machine machine.old.units ≡ false }
    ensures machine { machine.new ≡ with_machine_of machine.old (state_in saved.now).machine }
    ensures seen { IsSeenAs machine.old machine.new (state_in saved.now).machine }
    ensures standard { AreStandard machine.new.units }
{
    put_cpu(machine, &saved.cpu);
    put_memory(machine, &saved.words, saved.cpu.autobit == 1);
    put_units(machine, &saved.units);
    put_agenda(machine, &saved.agenda);
}
