ghost use Rattle.std.specs.Prelude.{◌≡◌, ◌≤◌, ◌<◌, ◌^◌, IsTrue, [], ◌∷◌};
ghost use Rattle.file_traits.specs.declared.files.FileCall.TheVariants.{Read, Write};
ghost use Rattle.file_traits.specs.Lists.{changed};
ghost use Rattle.file_traits.specs.State.{IsOpen, IsWritable, content, name_at};
ghost use Rattle.unit_files.specs.Attachments.{attachments_of, attachment_at, is_paper, may_write};
ghost use Rattle.unit_files.specs.Acts.{failure_at, read_said, write_said, byte_written, read_act, write_act};
ghost use Rattle.unit_files.specs.Acts.{write_files, most_bytes};
ghost use Rattle.unit_files.specs.Answers.{said_of_byte, failure_of_byte};
ghost use Rattle.unit_files.specs.Open.{AllOpen};
ghost use Rattle.unit_files.specs.Causes.{ByteCause};
ghost use Rattle.unit_files.specs.Shapes.{MayRead, IsOfRead, WroteAtMostOne, OpenCause};

use crate::attached::Attached;
use crate::faults::{ByteAnswer, UnitFault};
use file_traits::{Failed, FileCall, FileId, Files};
use unit_trait::UnitName;

/// How many bytes of its file a unit sees: 8 octal digits of places.
const MOST_BYTES: u64 = 16_777_216;

impl Attached {
    /// The byte at a place of a unit's file, places counting bytes. `End` comes at the file's end and past the bytes
    /// that the unit sees, where nothing is read; `NoFile` exactly where nothing is attached. After `Failed` all is as
    /// it was.
    #[tactic(auto, unfolding(crate::specs::Acts::read_act, crate::specs::Acts::most_bytes))]
    pub fn read_byte<F: Files>(&mut self, unit: UnitName, place: u64, files: &mut F) -> ByteAnswer
        requires unit { IsTrue (is_paper unit.kind) }
        requires place { place ≤ 8 ^ 8 }
        requires open { AllOpen self.old.slots (F.state files.old).opened }
        ensures said { IsTrue F.tells → said_of_byte result ≡ read_act (failure_of_byte result)
            (attachment_at (attachments_of self.old.slots) unit) place (F.state files.old).files }
        ensures may { MayRead result (attachment_at (attachments_of self.old.slots) unit) place }
        ensures same { self.new ≡ self.old }
        ensures files { (F.state files.new).files ≡ (F.state files.old).files }
        ensures opened { (F.state files.new).opened ≡ (F.state files.old).opened }
        ensures cause { ByteCause result unit self.old.slots (F.state files.old) (F.state files.new) }
    {
        match self.held_file(unit) {
            None => ByteAnswer::NoFile,
            Some(_) if place >= MOST_BYTES => ByteAnswer::End,
            Some(file) => read_one(unit, file, place, files),
        }
    }

    /// Writes a byte at a place of a unit's file, places counting bytes. A gap in front of it is filled with zero
    /// bytes. `End` comes past the bytes that the unit sees, where nothing is written; `NoFile` exactly where nothing
    /// is attached. After `Failed` the byte was written exactly where the fault says so.
    #[tactic(auto, unfolding(crate::specs::Acts::write_act, crate::specs::Acts::write_files, crate::specs::Acts::most_bytes))]
    pub fn write_byte<F: Files>(
        &mut self,
        unit: UnitName,
        place: u64,
        byte: u8,
        files: &mut F,
    ) -> ByteAnswer
        requires unit { IsTrue (is_paper unit.kind) }
        requires place { place ≤ 8 ^ 8 }
        requires writable { IsTrue (may_write self.old.slots unit) }
        requires open { AllOpen self.old.slots (F.state files.old).opened }
        ensures said { said_of_byte result ≡ write_act (failure_of_byte result)
            (attachment_at (attachments_of self.old.slots) unit) place }
        ensures part { WroteAtMostOne result }
        ensures same { self.new ≡ self.old }
        ensures files { (F.state files.new).files ≡ write_files (failure_of_byte result)
            (attachment_at (attachments_of self.old.slots) unit) place byte (F.state files.old).files }
        ensures opened { (F.state files.new).opened ≡ (F.state files.old).opened }
        ensures cause { ByteCause result unit self.old.slots (F.state files.old) (F.state files.new) }
    {
        match self.writable_file(unit) {
            None => ByteAnswer::NoFile,
            Some(_) if place >= MOST_BYTES => ByteAnswer::End,
            Some(file) => write_one(unit, file, place, byte, files),
        }
    }
}

// The byte at a place of an open file.
fn read_one<F: Files>(unit: UnitName, file: FileId, place: u64, files: &mut F) -> ByteAnswer
    requires { IsOpen (F.state files.old) file.0 }
    ensures said { IsTrue F.tells → said_of_byte result
        ≡ read_said (failure_at Read (failure_of_byte result)) (content (F.state files.old) file.0) place }
    ensures may { IsOfRead result }
    ensures files { (F.state files.new).files ≡ (F.state files.old).files }
    ensures opened { (F.state files.new).opened ≡ (F.state files.old).opened }
    ensures cause { OpenCause result unit file (F.state files.old) (F.state files.new) }
{
    let mut buf = [0; 1];
    match files.read_at(file, place, &mut buf) {
        Ok(0) => ByteAnswer::End,
        Ok(_) => ByteAnswer::Byte(buf[0]),
        Err(Failed) => ByteAnswer::Failed(UnitFault {
            unit,
            file: Some(file),
            call: FileCall::Read,
            done: 0,
        }),
    }
}

// Writes a byte at a place of an open file.
fn write_one<F: Files>(
    unit: UnitName,
    file: FileId,
    place: u64,
    byte: u8,
    files: &mut F,
) -> ByteAnswer
    requires open { IsOpen (F.state files.old) file.0 }
    requires writable { IsWritable (F.state files.old) file.0 }
    ensures said { said_of_byte result ≡ write_said (failure_at Write (failure_of_byte result)) }
    ensures part { WroteAtMostOne result }
    ensures files { (F.state files.new).files
        ≡ changed (F.state files.old).files (name_at (F.state files.old).opened file.0)
        (byte_written (failure_of_byte result) place byte) }
    ensures opened { (F.state files.new).opened ≡ (F.state files.old).opened }
    ensures cause { OpenCause result unit file (F.state files.old) (F.state files.new) }
{
    match files.write_at(file, place, &[byte]) {
        Ok(()) => ByteAnswer::Written,
        Err(fault) => ByteAnswer::Failed(UnitFault {
            unit,
            file: Some(file),
            call: FileCall::Write,
            done: fault.done as u64,
        }),
    }
}
