ghost use Rattle.std.specs.Prelude.{◌≡◌, ◌<◌, ◌^◌, None, option_map, option_to_list};
ghost use Rattle.operand_forms.specs.Forms.{IsTested};
ghost use Rattle.scp_examine.specs.Shape.{shape_of};
ghost use Rattle.operand_forms.specs.declared.listing.Name.TheVariants.{Device};
ghost use Rattle.scp_examine.specs.Places.{Register, cells, named_register, places_of};
ghost use Rattle.scp_examine.specs.Checks.{item_fault};
ghost use Rattle.scp_examine.specs.Effect.{compared, test_of, tested};

use crate::check::{LARGEST_WORD, condition_fits, item_fault};
use crate::fault::ExamineFault;
use crate::place::{meets, unit_value, word_at};
use crate::registers::{has_unit_register, largest_value, processor_register};
use nova_machine::Machine;
use operand_forms::{Condition, Item, Name, Test};
use unit_trait::{CpuReg, Kind, Unit};

/// Whether what ASSERT names meets its condition (SIMH Users' Guide, "Executing Command Files").
///
/// A fault of the item is answered first: `NoSuchName`, or `OutOfRange` for an address that is not below the size. Then
/// `OutOfRange` means that the mask or the value of the condition is above the largest value of the item; a value below
/// the least one of a register is no fault. The machine is only read.
#[tactic(auto, unfolding(crate::specs::Effect::tested))]
pub fn holds<U: Unit>(machine: &Machine<U>, what: &Test) -> Result<bool, ExamineFault>
    requires { IsTested what.now.item }
    ensures { result ≡ tested machine.now what.now }
{
    match item_fault(machine, what.device, what.item) {
        Some(fault) => Err(fault),
        None => test_item(machine, what.device, what.item, what.condition),
    }
}

#[tactic(auto, unfolding(crate::specs::Places::places_of, crate::specs::Checks::item_fault))]
fn test_item<U: Unit>(
    machine: &Machine<U>,
    device: Name,
    item: Item,
    condition: Condition,
) -> Result<bool, ExamineFault>
    requires kind { IsTested item }
    requires fault { item_fault (shape_of machine.now) device item ≡ None }
    ensures { result ≡ test_of machine.now condition (places_of (shape_of machine.now) device item) }
{
    let _size = machine.memory().size();
    match item {
        Item::At(at) => test_cell(machine, at as u16, condition),
        Item::Reg(number) => test_register(machine, device, number, condition),
        _ => Err(ExamineFault::NoSuchName),
    }
}

#[tactic(auto, unfolding(crate::specs::Places::numbered))]
fn test_cell<U: Unit>(
    machine: &Machine<U>,
    at: u16,
    condition: Condition,
) -> Result<bool, ExamineFault>
    requires { at < 2 ^ 15 }
    ensures { result ≡ test_of machine.now condition (cells at 1) }
{
    compare(u32::from(word_at(machine, at).0), LARGEST_WORD, condition)
}

fn test_register<U: Unit>(
    machine: &Machine<U>,
    device: Name,
    number: u8,
    condition: Condition,
) -> Result<bool, ExamineFault>
    ensures { result ≡ test_of machine.now condition (option_to_list (named_register device number)) }
{
    match device {
        Name::Cpu => test_processor_register(machine, processor_register(number), condition),
        Name::Device(kind) => test_unit_register(machine, kind, number, condition),
    }
}

fn test_processor_register<U: Unit>(
    machine: &Machine<U>,
    register: Option<CpuReg>,
    condition: Condition,
) -> Result<bool, ExamineFault>
    ensures { result ≡ test_of machine.now condition (option_to_list (option_map Register register)) }
{
    match register {
        None => Err(ExamineFault::NoSuchName),
        Some(register) => compare(machine.cpu_reg(register), register.largest(), condition),
    }
}

fn test_unit_register<U: Unit>(
    machine: &Machine<U>,
    kind: Kind,
    number: u8,
    condition: Condition,
) -> Result<bool, ExamineFault>
    ensures { result
        ≡ test_of machine.now condition (option_to_list (named_register (Device kind) number)) }
{
    if has_unit_register(kind, number) {
        compare(
            unit_value(machine, kind, number),
            largest_value(kind, number),
            condition,
        )
    } else {
        Err(ExamineFault::NoSuchName)
    }
}

// Compares a value with a condition up to the largest value of its place.
fn compare(value: u32, largest: u32, condition: Condition) -> Result<bool, ExamineFault>
    ensures { result ≡ compared value largest condition }
{
    if condition_fits(largest, condition) {
        Ok(meets(condition, u64::from(value)))
    } else {
        Err(ExamineFault::OutOfRange)
    }
}
