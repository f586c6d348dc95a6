// A tape operation is done on the file of a drive.
ghost use Rattle.std.specs.Prelude.{◌≡◌, ◌<◌, ◌&&◌, ℕ, Option, IsTrue, IfSome};
ghost use Rattle.file_traits.specs.OneList.{shown};
ghost use Rattle.file_traits.specs.Lists.{changed};
ghost use Rattle.file_traits.specs.State.{IsOpen, IsWritable, content, name_at};
ghost use Rattle.unit_trait.specs.declared.calls.Want.TheVariants as wants;
ghost use Rattle.unit_trait.specs.Kinds.{units_of};
ghost use Rattle.unit_files.specs.Attachments.{attachment_at, attachments_of, read_only_at, is_tape};
ghost use Rattle.unit_files.specs.Open.{AllOpen};
ghost use Rattle.nova_machine.specs.Comes.{AreTold, StopCounts, FileCause};
ghost use Rattle.memory_transfer.specs.Tapes.{writes_tape, operation, memory_operated, image_operated};
ghost use Rattle.nova_machine.specs.Drives.{tape_memory, tape_files};
ghost use Rattle.memory_transfer.specs.Operated.{operated, failure_of, IsOnImage, IsTapeCall};
ghost use Rattle.nova_machine.specs.DriveCauses.{StopCause};
ghost use Rattle.expect_actions.specs.Expects.{ExpectTable};
ghost use Rattle.nova_machine.specs.Notes.{unit_note, failure_of_stop};
ghost use Rattle.nova_machine.specs.Hosting.{IsHosted, IsImageOf, HasRoom, IsTapeOrder, stop_in};
ghost use Rattle.nova_machine.specs.StopCauses.{IsMadeOf};
ghost use Rattle.memory_transfer.specs.Operated.{IsOfTape};
ghost use Rattle.nova_machine.specs.Steps.{IsTapeAnswer};
ghost use Rattle.nova_machine.specs.Wants.{HasUnit};

use crate::machine::{Machine, Stop};
use crate::service::Hosted;
use file_traits::{FileId, Files, OneFile};
use memory_transfer::{TapeStop, operate};
use nova_memory::Memory;
use unit_files::{Attached, UnitFault};
use unit_trait::{Got, TapeOrder, Unit, UnitName};

impl<U: Unit> Machine<U> {
    ghost use Rattle.nova_machine.specs.Seen.{attached_in};

    /// Does an operation on the tape of a drive.
    pub(crate) fn move_tape<F: Files>(
        &mut self,
        unit: UnitName,
        order: TapeOrder,
        files: &mut F,
    ) -> Hosted
        requires number { unit.unit < units_of unit.kind }
        requires kind { IsTrue (is_tape unit.kind) }
        requires order { IsTapeOrder order }
        requires open { AllOpen self.old.slots (F.state files.old).opened }
        ensures machine { AreTold F.tells self.old.slots → self.new ≡ record self.old {
          processor = record self.old.processor {
            memory = tape_memory (failure_of_stop (stop_in result)) (attachment_at (attached_in self.old) unit)
                (F.state files.old).files order self.old.processor.memory;
          };
        } }
        ensures rest { (record self.new { processor = self.old.processor }) ≡ self.old }
        ensures moved { self.new ≡ record self.old {
          processor = record self.old.processor { memory = self.new.processor.memory };
        } }
        ensures said { AreTold F.tells self.old.slots → (key : Option ℕ) (expects : ExpectTable) → IsHosted (wants.Tape order)
            (attachment_at (attached_in self.old) unit) (F.state files.old).files key expects result }
        ensures files { AreTold F.tells self.old.slots → (F.state files.new).files
            ≡ tape_files (failure_of_stop (stop_in result)) (attachment_at (attached_in self.old) unit)
            self.old.processor.memory (F.state files.old).files order }
        ensures room { HasRoom (wants.Tape order) result }
        ensures own { IfSome (unit_note (stop_in result)) (λ n. n.unit ≡ unit) }
        ensures image { IsImageOf unit (stop_in result) }
        ensures unit { IfSome (stop_in result) HasUnit }
        ensures console { (count : ℕ) → StopCounts (stop_in result) count count }
        ensures opened { (F.state files.new).opened ≡ (F.state files.old).opened }
        ensures file_cause { FileCause (stop_in result) self.old.slots (F.state files.old) (F.state files.new) }
        ensures made { (key : Option ℕ) (expects : ExpectTable) → IsMadeOf (wants.Tape order) unit.kind
            (attachment_at (attached_in self.old) unit) key expects result }
        ensures answer { IsTapeAnswer order (attachment_at (attached_in self.old) unit) result }
    {
        operate_drive(
            &self.attached,
            unit,
            order,
            &mut self.processor.memory,
            files,
        )
    }
}

// Does an operation on the tape of a drive: none where the drive has no file, or one that is only read and would be
// written.
fn operate_drive<F: Files>(
    attached: &Attached,
    unit: UnitName,
    order: TapeOrder,
    memory: &mut Memory,
    files: &mut F,
) -> Hosted
    requires number { unit.unit < units_of unit.kind }
    requires kind { IsTrue (is_tape unit.kind) }
    requires order { IsTapeOrder order }
    requires open { AllOpen attached.now.slots (F.state files.old).opened }
    ensures memory { AreTold F.tells attached.now.slots → memory.new
        ≡ tape_memory (failure_of_stop (stop_in result)) (attachment_at (attachments_of attached.now.slots) unit)
        (F.state files.old).files order memory.old }
    ensures said { AreTold F.tells attached.now.slots → (key : Option ℕ) (expects : ExpectTable) → IsHosted (wants.Tape order)
        (attachment_at (attachments_of attached.now.slots) unit) (F.state files.old).files key expects result }
    ensures files { AreTold F.tells attached.now.slots → (F.state files.new).files
        ≡ tape_files (failure_of_stop (stop_in result)) (attachment_at (attachments_of attached.now.slots) unit)
        memory.old (F.state files.old).files order }
    ensures room { HasRoom (wants.Tape order) result }
    ensures own { IfSome (unit_note (stop_in result)) (λ n. n.unit ≡ unit) }
    ensures image { IsImageOf unit (stop_in result) }
    ensures unit { IfSome (stop_in result) HasUnit }
    ensures console { (count : ℕ) → StopCounts (stop_in result) count count }
    ensures opened { (F.state files.new).opened ≡ (F.state files.old).opened }
    ensures file_cause { FileCause (stop_in result) attached.now.slots (F.state files.old) (F.state files.new) }
    ensures made { (key : Option ℕ) (expects : ExpectTable) → IsMadeOf (wants.Tape order) unit.kind
        (attachment_at (attachments_of attached.now.slots) unit) key expects result }
    ensures answer { IsTapeAnswer order (attachment_at (attachments_of attached.now.slots) unit) result }
{
    match attached.file_of(unit) {
        None => Hosted::Gets(Got::NoFile),
        Some(_) if is_refused(attached, unit, order) => Hosted::Gets(Got::ReadOnly),
        Some(file) => match operate_file(memory, order, file, files) {
            Ok(got) => Hosted::Gets(got),
            Err(TapeStop::Image(place)) => Hosted::Stops(Stop::BadImage(unit, place)),
            Err(TapeStop::Call(fault)) => Hosted::Stops(Stop::FileFault(UnitFault {
                unit,
                file: Some(file),
                call: fault.call,
                done: fault.done,
            })),
        },
    }
}

// Whether an operation would write a tape that is only read.
fn is_refused(attached: &Attached, unit: UnitName, order: TapeOrder) -> bool
    ensures { result ≡ (writes_tape order && read_only_at attached.now.slots unit) }
{
    writes_tape(order) && attached.is_read_only(unit)
}

// Whether an operation changes the image.
fn writes_tape(order: TapeOrder) -> bool
    ensures { result ≡ writes_tape order }
{
    order.command >= 5
}

// Does an operation on an open file.
fn operate_file<F: Files>(
    memory: &mut Memory,
    order: TapeOrder,
    file: FileId,
    files: &mut F,
) -> Result<Got, TapeStop>
    requires order { IsTapeOrder order }
    requires open { IsOpen (F.state files.old) file.0 }
    requires writable { IsTrue (writes_tape order) → IsWritable (F.state files.old) file.0 }
    ensures said { IsTrue F.tells → operated result
        ≡ operation (failure_of result) (shown (content (F.state files.old) file.0)) order }
    ensures memory { IsTrue F.tells → memory.new
        ≡ memory_operated (failure_of result) (shown (content (F.state files.old) file.0)) order memory.old }
    ensures files { IsTrue F.tells → (F.state files.new).files ≡ changed (F.state files.old).files
        (name_at (F.state files.old).opened file.0) (image_operated (failure_of result) memory.old order) }
    ensures opened { (F.state files.new).opened ≡ (F.state files.old).opened }
    ensures bound { IsOnImage result }
    ensures call { IsTapeCall result }
    ensures moved { IsOfTape result }
    ensures cause { StopCause result file.0 (F.state files.old) (F.state files.new) }
{
    let mut tape = OneFile { files, file };
    operate(memory, order, &mut tape)
}
