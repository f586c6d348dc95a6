// What EXAMINE prints of the items of a list that has no fault.
ghost use Rattle.std.specs.Prelude.{◌≡◌, ◌+◌, ◌≤◌, ◌<◌, ◌^◌, ◌∷◌, [], None, IsTrue};
ghost use Rattle.fault_counts.specs.Faults.{CountsFault};
ghost use Rattle.file_traits.specs.Streams.{Puts};
ghost use Rattle.scp_examine.specs.Shape.{shape_of};
ghost use Rattle.scp_examine.specs.Places.{Cell, Register, UnitRegister, cells, places_of};
ghost use Rattle.scp_examine.specs.Places.{registers_of, unit_registers};
ghost use Rattle.scp_examine.specs.Checks.{item_fault, items_fault};
ghost use Rattle.scp_examine.specs.Named.{places_in, IsWithin};
ghost use Rattle.scp_examine.specs.Effect.{all_places, listed};

use crate::item::{Named, named_by};
use crate::place::{cell_line, is_chosen, register_line, unit_register_line, word_at};
use crate::registers::register_count;
use file_traits::{Failed, Sink, put_all};
use nova_machine::Machine;
use operand_forms::{Condition, Item, Name};
use unit_trait::{CpuReg, Kind, Unit};

// The line of a word of memory, where the condition chooses it.
#[tactic(auto, unfolding(crate::specs::Effect::listed))]
fn show_cell<U: Unit, S: Sink>(
    machine: &Machine<U>,
    symbolic: bool,
    condition: Option<Condition>,
    at: u16,
    out: &mut S,
) -> Result<(), Failed>
    requires { at < 2 ^ 15 }
    ensures told { IsTrue S.tells → Puts
        (S.written out.old)
        (listed machine.now symbolic condition (Cell at ∷ []))
        result
        (S.written out.new) }
    ensures counts { CountsFault (S.fault_count out.old) (S.fault_count out.new) result }
{
    let word = word_at(machine, at);
    if is_chosen(condition, u64::from(word.0)) {
        let line = cell_line(machine, symbolic, at);
        put_all(out, line.as_slice())
    } else {
        Ok(())
    }
}

// The line of a register, whatever the condition is.
#[tactic(auto, unfolding(crate::specs::Effect::listed))]
fn show_register<U: Unit, S: Sink>(
    machine: &Machine<U>,
    symbolic: bool,
    condition: Option<Condition>,
    register: CpuReg,
    out: &mut S,
) -> Result<(), Failed>
    ensures told { IsTrue S.tells → Puts
        (S.written out.old)
        (listed machine.now symbolic condition (Register register ∷ []))
        result
        (S.written out.new) }
    ensures counts { CountsFault (S.fault_count out.old) (S.fault_count out.new) result }
{
    let line = register_line(machine, register);
    put_all(out, line.as_slice())
}

// The line of a register of a device, whatever the condition is.
#[tactic(auto, unfolding(crate::specs::Effect::listed))]
fn show_unit_register<U: Unit, S: Sink>(
    machine: &Machine<U>,
    symbolic: bool,
    condition: Option<Condition>,
    kind: Kind,
    number: u8,
    out: &mut S,
) -> Result<(), Failed>
    ensures told { IsTrue S.tells → Puts
        (S.written out.old)
        (listed machine.now symbolic condition (UnitRegister kind number ∷ []))
        result
        (S.written out.new) }
    ensures counts { CountsFault (S.fault_count out.old) (S.fault_count out.new) result }
{
    let line = unit_register_line(machine, kind, number);
    put_all(out, line.as_slice())
}

fn show_cells<U: Unit, S: Sink>(
    machine: &Machine<U>,
    symbolic: bool,
    condition: Option<Condition>,
    from: u16,
    count: u16,
    out: &mut S,
) -> Result<(), Failed>
    requires { from + count ≤ 2 ^ 15 }
    ensures told { IsTrue S.tells → Puts
        (S.written out.old)
        (listed machine.now symbolic condition (cells from count))
        result
        (S.written out.new) }
    ensures counts { CountsFault (S.fault_count out.old) (S.fault_count out.new) result }
{
    for i in 0..count {
        show_cell(machine, symbolic, condition, from + i, out)?;
    }
    Ok(())
}

fn show_registers<U: Unit, S: Sink>(
    machine: &Machine<U>,
    symbolic: bool,
    condition: Option<Condition>,
    registers: &[CpuReg],
    out: &mut S,
) -> Result<(), Failed>
    ensures told { IsTrue S.tells → Puts
        (S.written out.old)
        (listed machine.now symbolic condition (registers_of registers.now))
        result
        (S.written out.new) }
    ensures counts { CountsFault (S.fault_count out.old) (S.fault_count out.new) result }
{
    for register in registers {
        show_register(machine, symbolic, condition, *register, out)?;
    }
    Ok(())
}

fn show_unit_registers<U: Unit, S: Sink>(
    machine: &Machine<U>,
    symbolic: bool,
    condition: Option<Condition>,
    kind: Kind,
    count: u8,
    out: &mut S,
) -> Result<(), Failed>
    ensures told { IsTrue S.tells → Puts
        (S.written out.old)
        (listed machine.now symbolic condition (unit_registers kind count))
        result
        (S.written out.new) }
    ensures counts { CountsFault (S.fault_count out.old) (S.fault_count out.new) result }
{
    for number in 0..count {
        show_unit_register(machine, symbolic, condition, kind, number, out)?;
    }
    Ok(())
}

fn show_named<U: Unit, S: Sink>(
    machine: &Machine<U>,
    symbolic: bool,
    condition: Option<Condition>,
    named: Named,
    out: &mut S,
) -> Result<(), Failed>
    requires { IsWithin (2 ^ 15) named }
    ensures told { IsTrue S.tells → Puts
        (S.written out.old)
        (listed machine.now symbolic condition (places_in named))
        result
        (S.written out.new) }
    ensures counts { CountsFault (S.fault_count out.old) (S.fault_count out.new) result }
{
    match named {
        Named::Words(from, count) => show_cells(machine, symbolic, condition, from, count, out),
        Named::Register(register) => show_register(machine, symbolic, condition, register, out),
        Named::State => show_registers(machine, symbolic, condition, &CpuReg::ALL, out),
        Named::UnitRegister(kind, number) => {
            show_unit_register(machine, symbolic, condition, kind, number, out)
        }
        Named::UnitRegisters(kind) => {
            show_unit_registers(
                machine,
                symbolic,
                condition,
                kind,
                register_count(kind),
                out,
            )
        }
    }
}

fn show_item<U: Unit, S: Sink>(
    machine: &Machine<U>,
    symbolic: bool,
    condition: Option<Condition>,
    device: Name,
    item: Item,
    out: &mut S,
) -> Result<(), Failed>
    requires { item_fault (shape_of machine.now) device item ≡ None }
    ensures told { IsTrue S.tells → Puts
        (S.written out.old)
        (listed machine.now symbolic condition (places_of (shape_of machine.now) device item))
        result
        (S.written out.new) }
    ensures counts { CountsFault (S.fault_count out.old) (S.fault_count out.new) result }
{
    let named = named_by(machine, device, item);
    show_named(machine, symbolic, condition, named, out)
}

/// Puts the lines of items that have no fault. Where the console refuses a byte, what comes before it was printed.
pub fn show_items<U: Unit, S: Sink>(
    machine: &Machine<U>,
    symbolic: bool,
    condition: Option<Condition>,
    device: Name,
    items: &[Item],
    out: &mut S,
) -> Result<(), Failed>
    requires { items_fault (item_fault (shape_of machine.now) device) items.now ≡ None }
    ensures told { IsTrue S.tells → Puts
        (S.written out.old)
        (listed machine.now symbolic condition (all_places (shape_of machine.now) device items.now))
        result
        (S.written out.new) }
    ensures counts { CountsFault (S.fault_count out.old) (S.fault_count out.new) result }
{
    for item in items {
        show_item(machine, symbolic, condition, device, *item, out)?;
    }
    Ok(())
}
