ghost use Rattle.std.specs.Prelude.{◌≡◌, option_map, slice_get, IfSome};
ghost use Rattle.unit_trait.specs.Teleprinter.{teleprinter_registers};
ghost use Rattle.unit_trait.specs.Seen.{seen, HasShortName};

use crate::device::{Device, Register, cleared_register, kept_register, time_register};

/// The console's printer.
pub const TTO: Device = Device {
    name: "TTO",
    code: 0o11,
    mask: 0o1,
    units: 1,
    takes_file: false,
};

/// The second terminal's printer.
pub const TTO1: Device = Device {
    name: "TTO1",
    code: 0o51,
    mask: 0o1,
    units: 1,
    takes_file: false,
};

/// A register of the teleprinter, of either terminal, by its number from 0.
pub fn register(i: u8) -> Option<Register>
    ensures register { option_map seen result ≡ slice_get teleprinter_registers i }
    ensures short { IfSome result HasShortName }
{
    let register = match i {
        0 => cleared_register("BUSY", 1),
        1 => cleared_register("DONE", 1),
        2 => time_register(100),
        3 => kept_register("BUF", 0o377),
        _ => return None,
    };
    Some(register)
}
