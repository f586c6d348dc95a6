ghost use Rattle.std.specs.Prelude.{◌≡◌, ◌≤◌};
ghost use Rattle.unit_files.specs.Attachments.{file_place, is_disk, only_writes, longest_file};

use file_traits::FileId;
use unit_trait::{Kind, UnitName, units_of};

/// How many units can have a file.
pub(crate) const FILE_UNITS: usize = 12;

/// How many bytes the image of a disk may have.
pub(crate) const DISK_BYTES: usize = 4_194_304;

/// The file of a unit: its number, its name, and whether it is only read.
#[derive(Drop)]
pub(crate) struct UnitFile {
    pub(crate) file: FileId,
    pub(crate) name: String,
    pub(crate) read_only: bool,
}

/// The place of a unit among those that can have a file, in bus order; past them for any other.
pub(crate) fn place_of(unit: UnitName) -> usize
    ensures { result ≡ file_place unit }
{
    if unit.unit >= units_of(unit.kind) {
        return FILE_UNITS;
    }
    match unit.kind {
        Kind::Dsk => 0,
        Kind::Mta => 1 + unit.unit as usize,
        Kind::Lpt => 9,
        Kind::Ptr => 10,
        Kind::Ptp => 11,
        _ => FILE_UNITS,
    }
}

/// Whether that is the disk.
pub(crate) fn is_disk(kind: Kind) -> bool
    ensures { result ≡ is_disk kind }
{
    matches!(kind, Kind::Dsk)
}

/// Whether the units of a kind only write.
pub(crate) fn only_writes(kind: Kind) -> bool
    ensures { result ≡ only_writes kind }
{
    match kind {
        Kind::Lpt | Kind::Ptp => true,
        _ => false,
    }
}

/// How many bytes the file of a unit may have.
#[tactic(auto, unfolding(crate::specs::Attachments::longest_file))]
pub(crate) fn longest_file(kind: Kind) -> u64
    ensures { result ≡ longest_file kind }
{
    match kind {
        Kind::Dsk => DISK_BYTES as u64,
        Kind::Mta => 67_108_864,
        _ => 16_777_216,
    }
}
