ghost use Rattle.std.specs.Prelude.{◌≡◌, option_map, slice_get, IfSome};
ghost use Rattle.unit_trait.specs.Tape.{tape};
ghost use Rattle.unit_trait.specs.Seen.{seen, HasShortName};

use crate::device::{
    Device, Register, cleared_register, kept_register, numbered_register, time_register,
};

/// The magnetic tape.
pub const TAPE: Device = Device {
    name: "MTA",
    code: 0o22,
    mask: 0o40,
    units: 8,
    takes_file: true,
};

/// A register of the tape, by its number from 0.
pub fn register(i: u8) -> Option<Register>
    ensures register { option_map seen result ≡ slice_get tape.registers i }
    ensures short { IfSome result HasShortName }
{
    let register = match i {
        0 => cleared_register("BUSY", 1),
        1 => cleared_register("DONE", 1),
        2 => kept_register("STOP_IOE", 1),
        3 => time_register(1000),
        4 => cleared_register("CMD", 7),
        5 => cleared_register("DRIVE", 7),
        6 => kept_register("MA", 0o77777),
        7 => kept_register("WC", 0o7777),
        8 => cleared_register("STAT", 0o177777),
        9 => numbered_register("POS", 0, 0o400000000),
        10 => numbered_register("POS", 1, 0o400000000),
        11 => numbered_register("POS", 2, 0o400000000),
        12 => numbered_register("POS", 3, 0o400000000),
        13 => numbered_register("POS", 4, 0o400000000),
        14 => numbered_register("POS", 5, 0o400000000),
        15 => numbered_register("POS", 6, 0o400000000),
        16 => numbered_register("POS", 7, 0o400000000),
        _ => return None,
    };
    Some(register)
}
