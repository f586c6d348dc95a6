// The registers of the processor and of devices, by their numbers.
ghost use Rattle.std.specs.Prelude.{◌≡◌, length, is_some, slice_get};
ghost use Rattle.unit_trait.specs.Processor.{all_registers};
ghost use Rattle.unit_trait.specs.Registers.{registers, register_at};
ghost use Rattle.unit_trait.specs.Row.{takes_value};
ghost use Rattle.scp_examine.specs.Shape.{has_named, shape_of};
ghost use Rattle.scp_examine.specs.Places.{largest_or_0, named_register};

use nova_machine::Machine;
use operand_forms::Name;
use unit_trait::{CpuReg, Kind, Unit, reg_limit};

/// Whether a machine has what is named: its processor, or a unit of that kind.
pub fn has_named<U: Unit>(machine: &Machine<U>, device: Name) -> bool
    ensures { result ≡ has_named (shape_of machine.now) device }
{
    match device {
        Name::Cpu => true,
        Name::Device(kind) => machine.has_unit(kind),
    }
}

/// Whether the processor or a device has a register with that number.
#[tactic(auto, unfolding(crate::specs::Places::named_register))]
pub fn has_register(device: Name, number: u8) -> bool
    ensures { result ≡ is_some (named_register device number) }
{
    match device {
        Name::Cpu => processor_register(number).is_some(),
        Name::Device(kind) => has_unit_register(kind, number),
    }
}

/// The register of the processor with that number.
pub fn processor_register(number: u8) -> Option<CpuReg>
    ensures { result ≡ slice_get all_registers number }
{
    CpuReg::ALL.get(usize::from(number)).copied()
}

/// Whether a device has a register with that number.
pub fn has_unit_register(kind: Kind, number: u8) -> bool
    ensures { result ≡ is_some (register_at kind number) }
{
    reg_limit(kind, number).is_some()
}

/// How many registers a device has.
pub fn register_count(kind: Kind) -> u8
    ensures { result ≡ length (registers kind) }
{
    for number in 0..u8::MAX {
        if !has_unit_register(kind, number) {
            return number;
        }
    }
    u8::MAX
}

/// Whether a value is from the least to the largest of a register of a device. None is where there is no register.
pub fn takes_value(kind: Kind, number: u8, value: u32) -> bool
    ensures { result ≡ takes_value (register_at kind number) value }
{
    match reg_limit(kind, number) {
        Some((least, largest)) => least <= value && value <= largest,
        None => false,
    }
}

/// The largest value of a register of a device; 0 where there is no register.
pub fn largest_value(kind: Kind, number: u8) -> u32
    ensures { result ≡ largest_or_0 (register_at kind number) }
{
    match reg_limit(kind, number) {
        Some((_least, largest)) => largest,
        None => 0,
    }
}
