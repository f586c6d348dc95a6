ghost use Rattle.std.specs.Prelude.{◌≡◌, option_map, slice_get, IfSome};
ghost use Rattle.unit_trait.specs.Reader.{reader};
ghost use Rattle.unit_trait.specs.Seen.{seen, HasShortName};

use crate::device::{Device, Register, cleared_register, kept_register, time_register};

/// The paper tape reader.
pub const READER: Device = Device {
    name: "PTR",
    code: 0o12,
    mask: 0o20,
    units: 1,
    takes_file: true,
};

/// A register of the reader, by its number from 0.
pub fn register(i: u8) -> Option<Register>
    ensures register { option_map seen result ≡ slice_get reader.registers i }
    ensures short { IfSome result HasShortName }
{
    let register = match i {
        0 => cleared_register("BUSY", 1),
        1 => cleared_register("DONE", 1),
        2 => kept_register("STOP_IOE", 1),
        3 => time_register(300),
        4 => kept_register("BUF", 0o377),
        5 => kept_register("POS", 0o100000000),
        _ => return None,
    };
    Some(register)
}
