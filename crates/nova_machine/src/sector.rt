// A sector of the disk is moved between its file and memory.
ghost use Rattle.std.specs.Prelude.{◌≡◌, ◌<◌, ◌^◌, true, false};
ghost use Rattle.unit_trait.specs.declared.calls.Want.TheVariants as wants;
ghost use Rattle.unit_files.specs.Attachments.{attachment_at};
ghost use Rattle.unit_files.specs.InStep.{MarksCover};
ghost use Rattle.unit_files.specs.Buffer.{disk_unit, disk_sectors, said_of_reading, said_of_writing};
ghost use Rattle.nova_machine.specs.declared.service.Hosted.TheVariants.{Gets};
ghost use Rattle.nova_machine.specs.Sectors.{got_of_sector, memory_after, disk_after};

use crate::machine::Machine;
use crate::service::Hosted;
use memory_transfer::{bytes_of, put_words};
use unit_files::SectorAnswer;
use unit_trait::{Got, Unit};

impl<U: Unit> Machine<U> {
    ghost use Rattle.nova_machine.specs.Seen.{attached_in};
    ghost use Rattle.nova_machine.specs.Machine.{attached_files};

    /// Reads a sector into memory, from an address on.
    pub(crate) fn read_sector(&mut self, sector: u16, address: u16) -> Hosted
        requires sector { sector < disk_sectors }
        requires address { address < 2 ^ 15 }
        ensures machine { self.new ≡ record self.old {
          processor = record self.old.processor {
            memory = memory_after (attachment_at (attached_in self.old) disk_unit) self.old.disk
                (wants.Sector false sector address) self.old.processor.memory;
          };
        } }
        ensures said { result
            ≡ Gets (got_of_sector (said_of_reading (attachment_at (attached_in self.old) disk_unit))) }
    {
        let mut bytes = [0; 512];
        let answer = self.attached.read_sector(sector, &mut bytes);
        if matches!(answer, SectorAnswer::Done) {
            put_words(&mut self.processor.memory, address, &bytes);
        }
        hosted(answer)
    }

    /// Writes a sector from memory, from an address on.
    pub(crate) fn write_sector(&mut self, sector: u16, address: u16) -> Hosted
        requires sector { sector < disk_sectors }
        requires address { address < 2 ^ 15 }
        ensures machine { self.new ≡ record self.old {
          disk = disk_after (attachment_at (attached_in self.old) disk_unit) self.old.processor.memory
              (wants.Sector true sector address) self.old.disk;
          aside = self.new.aside;
        } }
        ensures covers { MarksCover (attached_files self.old) (attached_files self.new) }
        ensures said { result
            ≡ Gets (got_of_sector (said_of_writing (attachment_at (attached_in self.old) disk_unit))) }
    {
        let bytes = bytes_of(&self.processor.memory, address);
        hosted(self.attached.write_sector(sector, &bytes))
    }
}

/// What the disk's answer means for the unit.
fn hosted(answer: SectorAnswer) -> Hosted
    ensures { result ≡ Gets (got_of_sector answer) }
{
    match answer {
        SectorAnswer::Done => Hosted::Gets(Got::Done),
        SectorAnswer::NoFile => Hosted::Gets(Got::NoFile),
        SectorAnswer::ReadOnly => Hosted::Gets(Got::ReadOnly),
    }
}
