// The table of devices: registers, codes, mask bits and names.
use crate::checked::holds;
use crate::units::checked::{of_kind, of_one};
use unit_trait::{
    Kind, UnitName, code_of, is_cleared, mask_of, reg_initial, reg_limit, reg_text, takes_file,
    unit_text, units_of,
};

/// A kind and the names of its registers, with a blank behind each.
const NAMES: [(Kind, &[u8]); 11] = [
    (Kind::Dsk, b"BUSY DONE STOP_IOE TIME DA MA STAT WRITE "),
    (
        Kind::Mta,
        b"BUSY DONE STOP_IOE TIME CMD DRIVE MA WC STAT POS0 POS1 POS2 POS3 POS4 POS5 POS6 POS7 ",
    ),
    (Kind::Lpt, b"BUSY DONE STOP_IOE TIME BUF POS "),
    (Kind::Ptr, b"BUSY DONE STOP_IOE TIME BUF POS "),
    (Kind::Ptp, b"BUSY DONE STOP_IOE TIME BUF POS "),
    (Kind::Clk, b"BUSY DONE SEL "),
    (Kind::Tti, b"BUSY DONE TIME BUF "),
    (Kind::Tto, b"BUSY DONE TIME BUF "),
    (Kind::Tti1, b"BUSY DONE TIME BUF "),
    (Kind::Tto1, b"BUSY DONE TIME BUF "),
    (
        Kind::Qty,
        b"BUSY DONE TIME RX0 RX1 RX2 RX3 RX4 RX5 RX6 RX7 RX8 RX9 RX10 RX11 RX12 RX13 RX14 RX15 RX16 RX17 RX18 RX19 RX20 \
        RX21 RX22 RX23 RX24 RX25 RX26 RX27 RX28 RX29 RX30 RX31 RX32 RX33 RX34 RX35 RX36 RX37 RX38 RX39 RX40 RX41 RX42 \
        RX43 RX44 RX45 RX46 RX47 RX48 RX49 RX50 RX51 RX52 RX53 RX54 RX55 RX56 RX57 RX58 RX59 RX60 RX61 RX62 RX63 TX0 \
        TX1 TX2 TX3 TX4 TX5 TX6 TX7 TX8 TX9 TX10 TX11 TX12 TX13 TX14 TX15 TX16 TX17 TX18 TX19 TX20 TX21 TX22 TX23 \
        TX24 TX25 TX26 TX27 TX28 TX29 TX30 TX31 TX32 TX33 TX34 TX35 TX36 TX37 TX38 TX39 TX40 TX41 TX42 TX43 TX44 TX45 \
        TX46 TX47 TX48 TX49 TX50 TX51 TX52 TX53 TX54 TX55 TX56 TX57 TX58 TX59 TX60 TX61 TX62 TX63 ",
    ),
];

/// What is left of such a text behind the name of a register; none where another name stands there.
fn behind_name(kind: Kind, i: u8, text: &'static [u8]) -> Option<&'static [u8]> {
    let mut out = [0; 8];
    let count = reg_text(kind, i, &mut out).min(8);
    if count == 0 {
        return Some(text);
    }
    match text.strip_prefix(&out[..count]) {
        Some(rest) => rest.strip_prefix(b" "),
        None => None,
    }
}

/// Whether these are the names of the kind's registers, in their order.
fn are_names(kind: Kind, names: &'static [u8]) -> bool {
    let mut rest = names;
    for i in 0..140u8 {
        match behind_name(kind, i, rest) {
            Some(behind) => rest = behind,
            None => return false,
        }
    }
    rest.is_empty()
}

#[test]
fn registers_stand_in_their_order(rt: HostRuntime) {
    for row in NAMES.iter() {
        of_kind(&rt, are_names(row.0, row.1), row.0);
    }
}

/// A register, its least and its largest value, the first one, and whether a reset clears it.
const REGISTERS: [(Kind, u8, u32, u32, u32, bool); 16] = [
    (Kind::Dsk, 1, 0, 1, 0, true),
    (Kind::Dsk, 2, 0, 1, 0, false),
    (Kind::Dsk, 3, 1, 65535, 200, false),
    (Kind::Dsk, 4, 0, 8191, 0, false),
    (Kind::Dsk, 6, 0, 15, 0, true),
    (Kind::Mta, 3, 1, 65535, 1000, false),
    (Kind::Mta, 8, 0, 65535, 0, true),
    (Kind::Mta, 16, 0, 67108864, 0, false),
    (Kind::Lpt, 4, 0, 127, 0, false),
    (Kind::Ptr, 5, 0, 16777216, 0, false),
    (Kind::Clk, 2, 0, 3, 0, true),
    (Kind::Tto1, 2, 1, 65535, 100, false),
    (Kind::Qty, 1, 0, 1, 0, true),
    (Kind::Qty, 2, 1, 65535, 100, false),
    (Kind::Qty, 66, 0, 511, 0, true),
    (Kind::Qty, 67, 0, 1023, 0, true),
];

fn is_register(row: &(Kind, u8, u32, u32, u32, bool)) -> bool {
    reg_limit(row.0, row.1) == Some((row.2, row.3))
        && reg_initial(row.0, row.1) == Some(row.4)
        && is_cleared(row.0, row.1) == Some(row.5)
}

fn is_no_register(kind: Kind, i: u8) -> bool {
    reg_limit(kind, i).is_none() && reg_initial(kind, i).is_none() && is_cleared(kind, i).is_none()
}

#[test]
fn registers_have_their_limits_and_what_they_hold_at_first(rt: HostRuntime) {
    for row in REGISTERS.iter() {
        of_one(&rt, is_register(row), row.0, row.1);
    }
    let none = is_no_register(Kind::Dsk, 8)
        && is_no_register(Kind::Mta, 17)
        && is_no_register(Kind::Qty, 131);
    holds(&rt, none, "a register past the last");
}

/// A kind, its code, the bit of the mask word from 0, the most significant, and whether a file is attached.
const KINDS: [(Kind, u8, u32, bool); 11] = [
    (Kind::Dsk, 0o20, 9, true),
    (Kind::Mta, 0o22, 10, true),
    (Kind::Lpt, 0o17, 12, true),
    (Kind::Ptr, 0o12, 11, true),
    (Kind::Ptp, 0o13, 13, true),
    (Kind::Clk, 0o14, 13, false),
    (Kind::Tti, 0o10, 14, false),
    (Kind::Tto, 0o11, 15, false),
    (Kind::Tti1, 0o50, 14, false),
    (Kind::Tto1, 0o51, 15, false),
    (Kind::Qty, 0o30, 14, false),
];

fn is_kind(row: &(Kind, u8, u32, bool)) -> bool {
    let mask = mask_of(row.0);
    code_of(row.0) == row.1
        && mask.leading_zeros() == row.2
        && mask.count_ones() == 1
        && takes_file(row.0) == row.3
}

#[test]
fn kinds_have_their_codes_their_mask_bits_and_maybe_files(rt: HostRuntime) {
    for row in KINDS.iter() {
        of_kind(&rt, is_kind(row), row.0);
    }
}

const UNITS: [(Kind, u8, &[u8]); 6] = [
    (Kind::Ptr, 0, b"PTR"),
    (Kind::Tto1, 0, b"TTO1"),
    (Kind::Mta, 0, b"MTA0"),
    (Kind::Mta, 7, b"MTA7"),
    (Kind::Qty, 9, b"QTY9"),
    (Kind::Qty, 63, b"QTY63"),
];

fn is_unit(kind: Kind, unit: u8, name: &[u8]) -> bool {
    if unit >= units_of(kind) {
        return false;
    }
    let mut out = [0; 8];
    let count = unit_text(UnitName { kind, unit }, &mut out).min(8);
    &out[..count] == name
}

#[test]
fn units_have_their_names(rt: HostRuntime) {
    for row in UNITS.iter() {
        of_one(&rt, is_unit(row.0, row.1, row.2), row.0, row.1);
    }
}
