ghost use Rattle.std.specs.Prelude.{◌≡◌, option_map, slice_get, IfSome};
ghost use Rattle.unit_trait.specs.Disk.{disk};
ghost use Rattle.unit_trait.specs.Seen.{seen, HasShortName};

use crate::device::{Device, Register, cleared_register, kept_register, time_register};

/// The fixed-head disk.
pub const DISK: Device = Device {
    name: "DSK",
    code: 0o20,
    mask: 0o100,
    units: 1,
    takes_file: true,
};

/// A register of the disk, by its number from 0.
pub fn register(i: u8) -> Option<Register>
    ensures register { option_map seen result ≡ slice_get disk.registers i }
    ensures short { IfSome result HasShortName }
{
    let register = match i {
        0 => cleared_register("BUSY", 1),
        1 => cleared_register("DONE", 1),
        2 => kept_register("STOP_IOE", 1),
        3 => time_register(200),
        4 => kept_register("DA", 0o17777),
        5 => kept_register("MA", 0o77777),
        6 => cleared_register("STAT", 0o17),
        7 => cleared_register("WRITE", 1),
        _ => return None,
    };
    Some(register)
}
