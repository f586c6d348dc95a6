// The faults of items, values and conditions.
ghost use Rattle.std.specs.Prelude.{◌≡◌, ℕ, ◌+◌, ◌≤◌, ◌^◌, ◌&&◌, nat_le, nat_lt, length};
ghost use Rattle.unit_trait.specs.Processor.{all_registers, largest_of};
ghost use Rattle.unit_trait.specs.Registers.{registers, register_at};
ghost use Rattle.unit_trait.specs.Row.{takes_value};
ghost use Rattle.scp_examine.specs.Shape.{has_named, shape_of};
ghost use Rattle.scp_examine.specs.Places.{Register, UnitRegister, cells, named_register, places_of};
ghost use Rattle.scp_examine.specs.Places.{registers_of, unit_registers};
ghost use Rattle.scp_examine.specs.Checks.{condition_fault, condition_fits, deposit_fault, item_fault, items_fault};
ghost use Rattle.scp_examine.specs.Checks.{mask_fits, memory_fault, no_such_name_unless, out_of_range_unless};
ghost use Rattle.scp_examine.specs.Checks.{value_fault, values_fault};
ghost use Rattle.scp_examine.specs.Named.{places_in, IsWithin};

use crate::fault::ExamineFault;
use crate::item::{Named, named_by};
use crate::registers::{has_named, has_register, register_count, takes_value};
use nova_machine::Machine;
use operand_forms::{Condition, Item, Name};
use unit_trait::{CpuReg, Kind, Unit};

/// The largest value of a word.
pub const LARGEST_WORD: u32 = 0o177777;

fn out_of_range_unless(fits: bool) -> Option<ExamineFault>
    ensures { result ≡ out_of_range_unless fits }
{
    if fits {
        None
    } else {
        Some(ExamineFault::OutOfRange)
    }
}

// The fault of words of memory, which belong to no device.
fn memory_fault(device: Name, fits: bool) -> Option<ExamineFault>
    ensures { result ≡ memory_fault device fits }
{
    match device {
        Name::Cpu => out_of_range_unless(fits),
        Name::Device(_) => Some(ExamineFault::NoSuchName),
    }
}

fn no_such_name_unless(there: bool) -> Option<ExamineFault>
    ensures { result ≡ no_such_name_unless there }
{
    if there {
        None
    } else {
        Some(ExamineFault::NoSuchName)
    }
}

fn range_fits(size: u64, from: u64, to: u64) -> bool
    ensures { result ≡ (nat_le from to && nat_lt to size) }
{
    from <= to && to < size
}

// Whether there are so many words from an address. The sum of the two may be too large for its type.
fn count_fits(size: u64, from: u64, count: u64) -> bool
    ensures { result ≡ (nat_lt 0 count && nat_le (from + count) size) }
{
    0 < count && from <= size && count <= size - from
}

/// The fault of an item by what it names.
#[tactic(auto, unfolding(crate::specs::Checks::item_fault))]
pub fn item_fault<U: Unit>(machine: &Machine<U>, device: Name, item: Item) -> Option<ExamineFault>
    ensures { result ≡ item_fault (shape_of machine.now) device item }
{
    let size = u64::from(machine.memory().size());
    match item {
        Item::At(at) => memory_fault(device, at < size),
        Item::Range(from, to) => memory_fault(device, range_fits(size, from, to)),
        Item::Count(from, count) => memory_fault(device, count_fits(size, from, count)),
        Item::All => memory_fault(device, true),
        Item::Reg(number) => {
            no_such_name_unless(has_named(machine, device) && has_register(device, number))
        }
        Item::State => no_such_name_unless(has_named(machine, device)),
        Item::Unknown => Some(ExamineFault::NoSuchName),
    }
}

/// The first fault of the items of an EXAMINE.
pub fn items_fault<U: Unit>(
    machine: &Machine<U>,
    device: Name,
    items: &[Item],
) -> Option<ExamineFault>
    ensures { result ≡ items_fault (item_fault (shape_of machine.now) device) items.now }
{
    for item in items {
        match item_fault(machine, device, *item) {
            Some(fault) => return Some(fault),
            None => (),
        }
    }
    None
}

fn mask_fits(largest: u32, mask: Option<u64>) -> bool
    ensures { result ≡ mask_fits largest mask }
{
    match mask {
        None => true,
        Some(mask) => mask <= u64::from(largest),
    }
}

/// Whether the numbers of a condition are at most the largest value of what they are compared with.
pub fn condition_fits(largest: u32, condition: Condition) -> bool
    ensures { result ≡ condition_fits largest condition }
{
    mask_fits(largest, condition.mask) && condition.value <= u64::from(largest)
}

/// The fault of the condition of an EXAMINE.
pub fn condition_fault(condition: Option<Condition>) -> Option<ExamineFault>
    ensures { result ≡ condition_fault condition }
{
    match condition {
        None => None,
        Some(condition) => out_of_range_unless(condition_fits(LARGEST_WORD, condition)),
    }
}

// The fault of a value for words of memory, of which there may be none.
fn words_value_fault(value: u32, count: u16) -> Option<ExamineFault>
    ensures { (from : ℕ) → result ≡ values_fault value (cells from count) }
{
    if count == 0 {
        None
    } else {
        out_of_range_unless(value <= LARGEST_WORD)
    }
}

// The fault of a value for a register.
fn register_value_fault(value: u32, register: CpuReg) -> Option<ExamineFault>
    ensures { result ≡ value_fault value (Register register) }
{
    match register {
        CpuReg::Size => Some(ExamineFault::ReadOnlyName),
        _ => out_of_range_unless(value <= register.largest()),
    }
}

// The first fault of a value for registers.
fn registers_value_fault(value: u32, registers: &[CpuReg]) -> Option<ExamineFault>
    ensures { result ≡ values_fault value (registers_of registers.now) }
{
    for register in registers {
        match register_value_fault(value, *register) {
            Some(fault) => return Some(fault),
            None => (),
        }
    }
    None
}

// The fault of a value for a register of a device.
fn unit_register_value_fault(value: u32, kind: Kind, number: u8) -> Option<ExamineFault>
    ensures { result ≡ value_fault value (UnitRegister kind number) }
{
    out_of_range_unless(takes_value(kind, number, value))
}

// The first fault of a value for the first registers of a device.
fn unit_registers_value_fault(value: u32, kind: Kind, count: u8) -> Option<ExamineFault>
    ensures { result ≡ values_fault value (unit_registers kind count) }
{
    for number in 0..count {
        match unit_register_value_fault(value, kind, number) {
            Some(fault) => return Some(fault),
            None => (),
        }
    }
    None
}

// The first fault of a value for what an item names.
fn value_fault(value: u32, named: Named) -> Option<ExamineFault>
    ensures { result ≡ values_fault value (places_in named) }
{
    match named {
        Named::Words(_, count) => words_value_fault(value, count),
        Named::Register(register) => registers_value_fault(value, &[register]),
        Named::State => registers_value_fault(value, &CpuReg::ALL),
        Named::UnitRegister(kind, number) => unit_register_value_fault(value, kind, number),
        Named::UnitRegisters(kind) => unit_registers_value_fault(value, kind, register_count(kind)),
    }
}

// The fault of an item of a DEPOSIT.
#[tactic(auto, unfolding(crate::specs::Checks::deposit_fault))]
fn deposit_fault<U: Unit>(
    machine: &Machine<U>,
    device: Name,
    value: u32,
    item: Item,
) -> Option<ExamineFault>
    ensures { result ≡ deposit_fault (shape_of machine.now) device value item }
{
    match item_fault(machine, device, item) {
        Some(fault) => Some(fault),
        None => value_fault(value, named_by(machine, device, item)),
    }
}

/// The first fault of the items of a DEPOSIT.
pub fn deposits_fault<U: Unit>(
    machine: &Machine<U>,
    device: Name,
    value: u32,
    items: &[Item],
) -> Option<ExamineFault>
    ensures { result ≡ items_fault (deposit_fault (shape_of machine.now) device value) items.now }
{
    for item in items {
        match deposit_fault(machine, device, value, *item) {
            Some(fault) => return Some(fault),
            None => (),
        }
    }
    None
}
