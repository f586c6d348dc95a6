ghost use Rattle.std.specs.Prelude.{◌≡◌, ◌<◌, ◌≤◌, ◌++◌, ◌↔◌, IsTrue, length, drop};
ghost use Rattle.unit_trait.specs.Kinds.{kind_name, code_of, mask_of, same_unit, units_of, takes_file, TakesFile, unit_name};

use crate::clock::CLOCK;
use crate::device::{Device, push_decimal};
use crate::disk::DISK;
use crate::keyboard::{TTI, TTI1};
use crate::multiplexer::MULTIPLEXER;
use crate::printer::PRINTER;
use crate::punch::PUNCH;
use crate::reader::READER;
use crate::tape::TAPE;
use crate::teleprinter::{TTO, TTO1};
use line_text::Text;

/// The kinds of units, in bus order.
#[derive(Clone, Copy, Debug, PartialEq, Eq)]
pub enum Kind {
    /// Fixed-head disk.
    Dsk,
    /// Magnetic tape.
    Mta,
    /// Line printer.
    Lpt,
    /// Paper tape reader.
    Ptr,
    /// Paper tape punch.
    Ptp,
    /// Real-time clock.
    Clk,
    /// Console keyboard.
    Tti,
    /// Console printer.
    Tto,
    /// Second terminal's keyboard.
    Tti1,
    /// Second terminal's printer.
    Tto1,
    /// Multiplexer of 64 lines.
    Qty,
}

/// A unit: its kind, and its number among the units of that kind.
#[derive(Clone, Copy, Debug, PartialEq, Eq)]
pub struct UnitName {
    pub kind: Kind,
    pub unit: u8,
}

impl UnitName {
    /// Whether this is the name of that unit.
    pub fn is(self, other: UnitName) -> bool
        ensures { result ≡ same_unit self other }
    {
        code_of(self.kind) == code_of(other.kind) && self.unit == other.unit
    }
}

impl Kind {
    /// The name of the kind, in capitals.
    pub fn name(self) -> &'static str
        ensures name { result.now ≡ kind_name self }
        ensures short { length result.now ≤ 4 }
    {
        device(self).name
    }
}

// What stands of a kind in the table of its device.
fn device(kind: Kind) -> Device
    ensures name { result.name.now ≡ kind_name kind }
    ensures short { length result.name.now ≤ 4 }
    ensures code { result.code ≡ code_of kind }
    ensures mask { result.mask ≡ mask_of kind }
    ensures units { result.units ≡ units_of kind }
    ensures few { result.units ≤ 64 }
    ensures six_bits { result.code < 64 }
    ensures bit { 0 < result.mask }
    ensures file { result.takes_file ≡ takes_file kind }
{
    match kind {
        Kind::Dsk => DISK,
        Kind::Mta => TAPE,
        Kind::Lpt => PRINTER,
        Kind::Ptr => READER,
        Kind::Ptp => PUNCH,
        Kind::Clk => CLOCK,
        Kind::Tti => TTI,
        Kind::Tto => TTO,
        Kind::Tti1 => TTI1,
        Kind::Tto1 => TTO1,
        Kind::Qty => MULTIPLEXER,
    }
}

/// The code of a kind on the bus.
pub fn code_of(kind: Kind) -> u8
    ensures code { result ≡ code_of kind }
    ensures range { result < 64 }
{
    device(kind).code
}

/// The interrupt mask word that masks a kind out: one bit of 16.
pub fn mask_of(kind: Kind) -> u16
    ensures mask { result ≡ mask_of kind }
    ensures some { 0 < result }
{
    device(kind).mask
}

/// How many units a kind has: 8 drives, 64 lines, and else one.
pub fn units_of(kind: Kind) -> u8
    ensures units { result ≡ units_of kind }
    ensures few { result ≤ 64 }
{
    device(kind).units
}

/// Whether a file is attached to the units of a kind.
pub fn takes_file(kind: Kind) -> bool
    ensures { IsTrue result ↔ TakesFile kind }
{
    device(kind).takes_file
}

/// Writes the name of a unit first into `out`, and answers its length: the name of its kind, and the unit's number in
/// decimal where its kind has more than one.
pub fn unit_text(unit: UnitName, out: &mut [u8; 8]) -> usize
    requires { unit.unit < units_of unit.kind }
    ensures count { result ≡ length (unit_name unit) }
    ensures text { out.new ≡ unit_name unit ++ drop (length (unit_name unit)) out.old }
{
    unit_name(unit).copy_to(out)
}

// The name of a unit.
fn unit_name(unit: UnitName) -> Text<8>
    requires { unit.unit < units_of unit.kind }
    ensures { result ≡ unit_name unit }
{
    let mut text = Text::new();
    text.push_all(unit.kind.name().as_bytes());
    if units_of(unit.kind) > 1 {
        push_decimal(unit.unit, &mut text);
    }
    text
}
