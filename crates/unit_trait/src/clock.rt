ghost use Rattle.std.specs.Prelude.{◌≡◌, option_map, slice_get, IfSome};
ghost use Rattle.unit_trait.specs.Clock.{clock};
ghost use Rattle.unit_trait.specs.Seen.{seen, HasShortName};

use crate::device::{Device, Register, cleared_register};

/// The real-time clock.
pub const CLOCK: Device = Device {
    name: "CLK",
    code: 0o14,
    mask: 0o4,
    units: 1,
    takes_file: false,
};

/// A register of the clock, by its number from 0.
pub fn register(i: u8) -> Option<Register>
    ensures register { option_map seen result ≡ slice_get clock.registers i }
    ensures short { IfSome result HasShortName }
{
    let register = match i {
        0 => cleared_register("BUSY", 1),
        1 => cleared_register("DONE", 1),
        2 => cleared_register("SEL", 3),
        _ => return None,
    };
    Some(register)
}
