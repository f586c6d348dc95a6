// What DEPOSIT puts into the items of a list that has no fault.
ghost use Rattle.std.specs.Prelude.{◌≡◌, ◌+◌, ◌≤◌, ◌<◌, ◌^◌, true, None};
ghost use Rattle.nova_machine.specs.Registers.{with_register};
ghost use Rattle.scp_examine.specs.Shape.{has_kind, shape_of};
ghost use Rattle.scp_examine.specs.Places.{Cell, Register, UnitRegister, cells, places_of, unit_registers};
ghost use Rattle.scp_examine.specs.Checks.{deposit_fault, items_fault, value_fault, values_fault};
ghost use Rattle.scp_examine.specs.Named.{places_in, IsThere, IsWithin};
ghost use Rattle.scp_examine.specs.Effect.{all_places, filled, with_value};

use crate::item::{Named, named_by};
use crate::registers::register_count;
use nova_machine::Machine;
use nova_word::{Addr, Word};
use operand_forms::{Item, Name};
use unit_trait::{CpuReg, Kind, Unit};

fn fill_cell<U: Unit>(machine: &mut Machine<U>, at: u16, value: u16)
    requires { at < 2 ^ 15 }
    ensures { machine.new ≡ with_value value machine.old (Cell at) }
{
    machine
        .memory_mut()
        .write(Addr::of_word(Word(at)), Word(value));
}

fn fill_cells<U: Unit>(machine: &mut Machine<U>, from: u16, count: u16, value: u16)
    requires { from + count ≤ 2 ^ 15 }
    ensures { machine.new ≡ filled value machine.old (cells from count) }
{
    for i in 0..count {
        fill_cell(machine, from + i, value);
    }
}

fn fill_register<U: Unit>(machine: &mut Machine<U>, register: CpuReg, value: u32)
    requires { value_fault value (Register register) ≡ None }
    ensures { machine.new ≡ with_register machine.old register value }
{
    let _fits = machine.set_cpu_reg(register, value);
}

fn fill_unit_register<U: Unit>(machine: &mut Machine<U>, kind: Kind, number: u8, value: u32)
    requires there { has_kind kind (shape_of machine.old).kinds ≡ true }
    requires value { value_fault value (UnitRegister kind number) ≡ None }
    ensures { machine.new ≡ with_value value machine.old (UnitRegister kind number) }
{
    let _fits = machine.set_unit_reg(kind, number, value);
}

fn fill_unit_registers<U: Unit>(machine: &mut Machine<U>, kind: Kind, count: u8, value: u32)
    requires there { has_kind kind (shape_of machine.old).kinds ≡ true }
    requires value { values_fault value (unit_registers kind count) ≡ None }
    ensures { machine.new ≡ filled value machine.old (unit_registers kind count) }
{
    for number in 0..count {
        fill_unit_register(machine, kind, number, value);
    }
}

fn fill_named<U: Unit>(machine: &mut Machine<U>, named: Named, value: u32)
    requires within { IsWithin (2 ^ 15) named }
    requires there { IsThere (shape_of machine.old) named }
    requires value { values_fault value (places_in named) ≡ None }
    ensures { machine.new ≡ filled value machine.old (places_in named) }
{
    match named {
        Named::Words(from, count) => {
            if count > 0 {
                fill_cells(machine, from, count, value as u16);
            }
        }
        Named::Register(register) => fill_register(machine, register, value),
        // Size is one of them, so no value goes into all registers.
        Named::State => (),
        Named::UnitRegister(kind, number) => fill_unit_register(machine, kind, number, value),
        Named::UnitRegisters(kind) => fill_unit_registers(
            machine,
            kind,
            register_count(kind),
            value,
        ),
    }
}

fn fill_item<U: Unit>(machine: &mut Machine<U>, device: Name, item: Item, value: u32)
    requires { deposit_fault (shape_of machine.old) device value item ≡ None }
    ensures { machine.new ≡ filled value machine.old (places_of (shape_of machine.old) device item) }
{
    let named = named_by(machine, device, item);
    fill_named(machine, named, value);
}

/// Puts a value into the places of items that have no fault, from the left.
pub fn fill_items<U: Unit>(machine: &mut Machine<U>, device: Name, items: &[Item], value: u32)
    requires { items_fault (deposit_fault (shape_of machine.old) device value) items.now ≡ None }
    ensures { machine.new ≡ filled value machine.old (all_places (shape_of machine.old) device items.now) }
{
    for item in items {
        fill_item(machine, device, *item, value);
    }
}
