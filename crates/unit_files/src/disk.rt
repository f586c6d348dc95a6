ghost use Rattle.std.specs.Prelude.{◌≡◌, ◌<◌};
ghost use Rattle.unit_files.specs.Attachments.{attachments_of, attachment_at};
ghost use Rattle.unit_files.specs.Buffer.{disk_unit, disk_sectors};
ghost use Rattle.unit_files.specs.Buffer.{said_of_reading, sector_read, said_of_writing, sector_written};
ghost use Rattle.unit_files.specs.InStep.{marks_written, MarksCover};

use crate::attached::Attached;
use crate::faults::SectorAnswer;
use unit_trait::{Kind, UnitName};

/// How many bytes a sector has: 256 words.
pub const SECTOR_BYTES: usize = 512;

/// The disk.
const DISK: UnitName = UnitName {
    kind: Kind::Dsk,
    unit: 0,
};

impl Attached {
    /// Reads a sector of the disk, below 8192. Behind the end of what the disk holds its bytes are 0. `NoFile` comes
    /// exactly where nothing is attached, and `into` is then as it was.
    pub fn read_sector(&self, sector: u16, into: &mut [u8; 512]) -> SectorAnswer
        requires { sector < disk_sectors }
        ensures said { result ≡ said_of_reading (attachment_at (attachments_of self.now.slots) disk_unit) }
        ensures bytes { into.new ≡ sector_read (attachment_at (attachments_of self.now.slots) disk_unit) self.now.disk
            sector into.old }
    {
        if self.held_file(DISK).is_none() {
            return SectorAnswer::NoFile;
        }
        self.disk.read(sector, into);
        SectorAnswer::Done
    }

    /// Writes a sector of the disk, below 8192, into what the disk holds of its file, behind zero bytes where there is
    /// a gap. It takes no memory and makes no call on the file: the bytes are written back by `flush` and `detach`.
    /// `NoFile` comes exactly where nothing is attached, and `ReadOnly` exactly where the file is only read; then
    /// nothing has changed.
    pub fn write_sector(&mut self, sector: u16, from: &[u8; 512]) -> SectorAnswer
        requires { sector < disk_sectors }
        ensures said { result ≡ said_of_writing (attachment_at (attachments_of self.old.slots) disk_unit) }
        ensures slots { self.new.slots ≡ self.old.slots }
        ensures disk { self.new.disk ≡ sector_written (attachment_at (attachments_of self.old.slots) disk_unit)
            self.old.disk sector from.now }
        ensures marks { self.new.aside ≡ marks_written (attachment_at (attachments_of self.old.slots) disk_unit)
            self.old.disk.bytes sector self.old.aside }
        ensures covers { MarksCover self.old self.new }
    {
        if self.held_file(DISK).is_none() {
            return SectorAnswer::NoFile;
        }
        if self.is_read_only(DISK) {
            return SectorAnswer::ReadOnly;
        }
        self.disk.write(sector, from);
        SectorAnswer::Done
    }
}
