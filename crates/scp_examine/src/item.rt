// What an item names, once it is known to have no fault.
ghost use Rattle.std.specs.Prelude.{◌≡◌, ◌≤◌, ◌^◌, true, option_to_list};
ghost use Rattle.scp_examine.specs.Shape.{Shape, has_named, shape_of};
ghost use Rattle.scp_examine.specs.Places.{all_of, named_register, places_of};
ghost use Rattle.scp_examine.specs.Checks.{item_fault};
ghost use Rattle.scp_examine.specs.Named.{places_in, IsWithin, IsThere};

use crate::registers::{has_unit_register, processor_register};
use nova_machine::Machine;
use operand_forms::{Item, Name};
use unit_trait::{CpuReg, Kind, Unit};

/// What an item names.
#[derive(Clone, Copy)]
pub enum Named {
    /// So many words from an address.
    Words(u16, u16),
    Register(CpuReg),
    /// All registers of the processor.
    State,
    /// A register of a device, by its number from 0.
    UnitRegister(Kind, u8),
    /// All registers of a device.
    UnitRegisters(Kind),
}

impl Named {
    // What names no place.
    const NOTHING: Named = Named::Words(0, 0);
}

/// The places that an item names.
#[tactic(auto, unfolding(crate::specs::Places::places_of, crate::specs::Checks::item_fault))]
pub fn named_by<U: Unit>(machine: &Machine<U>, device: Name, item: Item) -> Named
    requires { item_fault (shape_of machine.now) device item ≡ None }
    ensures places { places_in result ≡ places_of (shape_of machine.now) device item }
    ensures within { IsWithin (2 ^ 15) result }
    ensures there { IsThere (shape_of machine.now) result }
{
    let size = machine.memory().size();
    match item {
        Item::At(at) => Named::Words(at as u16, 1),
        Item::Range(from, to) => Named::Words(from as u16, (to + 1 - from) as u16),
        Item::Count(from, count) => Named::Words(from as u16, count as u16),
        Item::All => Named::Words(0, size),
        Item::Reg(number) => one_register(device, number),
        Item::State => all_of(device),
        Item::Unknown => Named::NOTHING,
    }
}

#[tactic(auto, unfolding(crate::specs::Places::numbered, crate::specs::Places::named_register))]
fn one_register(device: Name, number: u8) -> Named
    ensures places { places_in result ≡ option_to_list (named_register device number) }
    ensures within { IsWithin 0 result }
    ensures there { (shape : Shape) → has_named shape device ≡ true → IsThere shape result }
{
    match device {
        Name::Cpu => match processor_register(number) {
            Some(register) => Named::Register(register),
            None => Named::NOTHING,
        },
        Name::Device(kind) => {
            if has_unit_register(kind, number) {
                Named::UnitRegister(kind, number)
            } else {
                Named::NOTHING
            }
        }
    }
}

fn all_of(device: Name) -> Named
    ensures places { places_in result ≡ all_of device }
    ensures within { IsWithin 0 result }
    ensures there { (shape : Shape) → has_named shape device ≡ true → IsThere shape result }
{
    match device {
        Name::Cpu => Named::State,
        Name::Device(kind) => Named::UnitRegisters(kind),
    }
}
