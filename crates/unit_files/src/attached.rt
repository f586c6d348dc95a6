ghost use Rattle.std.specs.Prelude.{◌≡◌, ◌≤◌, ◌<◌, List, IsTrue, IfOk, IfSome, OnOk, OnErr, Ok, length, option_map, is_some, Some, None};
ghost use Rattle.std.specs.Prelude.{true, false, not, map, if◌then◌else◌, vec_capacity};
ghost use Rattle.file_traits.specs.Lists.{bytes_of};
ghost use Rattle.file_traits.specs.State.{Opened, IsOpen, without};
ghost use Rattle.unit_files.specs.Attachments.{held_at, with_held, attachments_of, with_attachment, is_disk};
ghost use Rattle.unit_files.specs.Pages.{no_marks};
ghost use Rattle.unit_files.specs.Buffer.{nothing_attached, no_buffer};
ghost use Rattle.unit_files.specs.InStep.{InStep, marks_flushed, marks_left, pages_back, pages_flushed};
ghost use Rattle.unit_files.specs.Attachments.{attachment_at, takes_attachment, may_write, read_only_at, only_writes};
ghost use Rattle.unit_files.specs.Attachments.{longest_file, file_place, IsFileName, HaveFileNames, is_any_attached};
ghost use Rattle.unit_files.specs.Acts.{attach_said, attach_files, attached_by, buffer_by, refused_first};
ghost use Rattle.unit_files.specs.Acts.{detach_said, detached_by, buffer_left, flush_said, flush_files, buffer_flushed};
ghost use Rattle.unit_files.specs.Answers.{said_of_attach, failure_of_attach, first_refusal, IfNoMemory};
ghost use Rattle.unit_files.specs.Answers.{said_of_detach, failure_of_detach, said_of_flush, failure_of_flush};
ghost use Rattle.unit_files.specs.Open.{AllOpen, Around, HaveOwnNumbers, IsFree};
ghost use Rattle.unit_files.specs.Causes.{OnlyNewCounts, AttachCause, CountsAttach, DetachCause, FlushCause, OnlyKept, AreFrom};
ghost use Rattle.unit_files.specs.Shapes.{CloseCause, WriteCause, IsPart};
ghost use Rattle.unit_files.specs.Acts.{detached, is_due_back};
ghost use Rattle.unit_files.specs.Answers.{failure_in};
ghost use Rattle.file_traits.specs.Lists.{changed};
ghost use Rattle.file_traits.specs.State.{IsWritable, name_at};
ghost use Rattle.unit_files.specs.View.{held_of, slot_of, Holds, IsNewCopy};

use crate::disk_copy::DiskCopy;
use crate::faults::{AttachFault, DetachFault, UnitFault};
use crate::flushing::write_copy;
use crate::modes::AttachMode;
use crate::opening::{room_for, take_file};
use crate::slots::{FILE_UNITS, UnitFile, is_disk, only_writes, place_of};
use file_traits::{Failed, FileCall, FileId, Files, OutOfMemory};
use std::alloc::{AllocError, Global};
use std::marker::Model;
use unit_trait::UnitName;

/// The files that are attached to units.
#[derive(Drop)]
pub struct Attached {
    slots: Vec<Option<UnitFile>>,
    pub(crate) disk: DiskCopy,
}

impl Model for Attached {
    ghost use Rattle.std.specs.Prelude.{◌≡◌, map, length, IsTrue};
    ghost use Rattle.unit_files.specs.Attachments.{file_units, writers_write, HaveFileNames};
    ghost use Rattle.unit_files.specs.Buffer.{AttachedFiles};
    ghost use Rattle.unit_files.specs.Open.{HaveOwnNumbers};
    ghost use Rattle.unit_files.specs.View.{slot_of, buffer_of, marks_of, CanWrite};

    ghost Value = { AttachedFiles };

    ghost view = { λ a. record {
      slots = map slot_of a.slots.items;
      disk = buffer_of a.disk;
      aside = marks_of a.disk.marks.items;
    } };

    ghost invariant = { λ a. (length a.slots.items ≡ file_units) × IsTrue (writers_write (map slot_of a.slots.items))
        × CanWrite (map slot_of a.slots.items) a.disk × HaveOwnNumbers (map slot_of a.slots.items)
        × HaveFileNames (map slot_of a.slots.items) };
}

impl Attached {
    /// Nothing is attached.
    pub fn new(alloc: Global) -> Result<Attached, OutOfMemory>
        ensures none { IfOk result (λ a. a ≡ nothing_attached) }
        ensures open { IfOk result (λ a. (opened : List Opened) → AllOpen a.slots opened) }
        ensures around { IfOk result (λ a. (opened : List Opened) → Around a.slots opened opened) }
    {
        let mut slots = Vec::with_capacity(alloc, FILE_UNITS)?;
        for _place in 0..FILE_UNITS {
            slots.push(None)?;
        }
        Ok(Attached {
            slots,
            disk: DiskCopy::none(alloc),
        })
    }

    /// Attaches a file to a unit, and answers its length in bytes. The refusals, in this order: `AlreadyAttached` where
    /// the unit has a file; `ReadOnly` where a unit that only writes is to read only; `OutOfMemory`; `NoFile`, or
    /// `Failed` of the opening; `Failed` of the length; `TooLong`; `Failed` of a read, which the disk alone makes: it
    /// reads the file whole, into memory that it takes before the opening. A refusal leaves all units as they were, and
    /// closes the file that it opened; that file may have been made or emptied.
    #[tactic(auto, using(crate::proofs::OpeningCounts::counts_untried), unfolding(crate::specs::Acts::attach_said, crate::specs::Acts::attach_files))]
    pub fn attach<F: Files>(
        &mut self,
        alloc: Global,
        unit: UnitName,
        name: &str,
        mode: AttachMode,
        files: &mut F,
    ) -> Result<u64, AttachFault>
        requires unit { IsTrue (takes_attachment unit) }
        requires name { IsFileName name.now }
        requires open { AllOpen self.old.slots (F.state files.old).opened }
        ensures said { IsTrue F.tells → IfSome (said_of_attach result) (λ said. said
            ≡ attach_said (failure_of_attach result) mode unit name.now (attachments_of self.old.slots)
            (F.state files.old).files) }
        ensures first { first_refusal result ≡ refused_first (attachment_at (attachments_of self.old.slots) unit) unit mode }
        ensures bound { IfOk result (λ n. n ≤ longest_file unit.kind) }
        ensures attached { IfSome (said_of_attach result) (λ said. attachments_of self.new.slots
            ≡ attached_by said mode unit name.now (attachments_of self.old.slots)) }
        ensures disk { IsTrue F.tells → IfSome (said_of_attach result) (λ said. self.new.disk
            ≡ buffer_by said unit (bytes_of (F.state files.new).files name.now) self.old.disk) }
        ensures there { IfOk result (λ n. IsTrue (is_some (attachment_at (attachments_of self.new.slots) unit))) }
        ensures unwritten { IfOk result (λ n. is_disk unit.kind ≡ true → self.new.disk.written ≡ false) }
        ensures unmarked { IfOk result (λ n. is_disk unit.kind ≡ true → self.new.aside ≡ no_marks) }
        ensures step { IsTrue F.tells → OnOk result (is_disk unit.kind ≡ true → InStep self.new (F.state files.new).files) }
        ensures other { is_disk unit.kind ≡ false → self.new.disk ≡ self.old.disk }
        ensures other_marks { is_disk unit.kind ≡ false → self.new.aside ≡ self.old.aside }
        ensures refused { OnErr result (self.new ≡ self.old) }
        ensures files { IsTrue F.tells → IfSome (said_of_attach result) (λ said. (F.state files.new).files
            ≡ attach_files (failure_of_attach result) mode unit name.now (attachments_of self.old.slots)
            (F.state files.old).files) }
        ensures no_memory { IfNoMemory result ((F.state files.new).files ≡ (F.state files.old).files) }
        ensures closed { OnErr result ((F.state files.new).opened ≡ (F.state files.old).opened) }
        ensures open { AllOpen self.new.slots (F.state files.new).opened }
        ensures around { (base : List Opened) → Around self.old.slots base (F.state files.old).opened
            → Around self.new.slots base (F.state files.new).opened }
        ensures from { AreFrom self.old.slots self.new.slots (F.state files.old) (F.state files.new) }
        ensures counts { OnlyNewCounts (F.state files.old) (F.state files.new) }
        ensures cause { AttachCause F.tells result unit (F.state files.old) (F.state files.new) }
        ensures exact { CountsAttach mode F.tells result (F.state files.old) (F.state files.new) }
    {
        if self.held_file(unit).is_some() {
            return Err(AttachFault::AlreadyAttached);
        }
        if mode.is_read_only() && only_writes(unit.kind) {
            return Err(AttachFault::ReadOnly);
        }
        let text = match String::from_str(alloc, name) {
            Ok(text) => text,
            Err(AllocError) => return Err(AttachFault::OutOfMemory),
        };
        let copy = match room_for(alloc, unit.kind) {
            Ok(copy) => copy,
            Err(AllocError) => return Err(AttachFault::OutOfMemory),
        };
        match take_file(alloc, unit, name, mode, copy, files) {
            Ok(taken) => {
                let held = UnitFile {
                    file: taken.file,
                    name: text,
                    read_only: mode.is_read_only(),
                };
                self.put(unit, held, taken.copy);
                Ok(taken.length)
            }
            Err(fault) => Err(fault),
        }
    }

    /// Writes back what the disk holds of its file, as `flush` does, and then closes a unit's file. Behind that nothing
    /// is attached to the unit, also where the closing failed, which is answered as a fault. `NotAttached` comes
    /// exactly where nothing was attached. `Failed` comes where the file could not be written: it is still attached,
    /// and holds what `flush` leaves in it.
    #[tactic(auto, unfolding(crate::specs::InStep::pages_flushed))]
    pub fn detach<F: Files>(
        &mut self,
        unit: UnitName,
        files: &mut F,
    ) -> Result<Option<UnitFault>, DetachFault>
        requires unit { IsTrue (takes_attachment unit) }
        requires open { AllOpen self.old.slots (F.state files.old).opened }
        ensures said { said_of_detach result
            ≡ detach_said (failure_of_detach result) unit (attachments_of self.old.slots) self.old.disk }
        ensures attached { attachments_of self.new.slots
            ≡ detached_by (said_of_detach result) unit (attachments_of self.old.slots) }
        ensures disk { self.new.disk ≡ buffer_left (said_of_detach result) unit self.old.disk }
        ensures marks { self.new.aside ≡ marks_left (said_of_detach result) unit self.old.aside }
        ensures refused { OnErr result (self.new ≡ self.old) }
        ensures part { OnErr result (IsPart (failure_of_detach result) self.old.disk) }
        ensures pages { (F.state files.new).files ≡ pages_flushed (failure_of_detach result) unit
            (attachment_at (attachments_of self.old.slots) unit) self.old.disk self.old.aside (F.state files.old).files }
        ensures files { InStep self.old (F.state files.old).files → (F.state files.new).files
            ≡ flush_files (failure_of_detach result) unit (attachment_at (attachments_of self.old.slots) unit)
            self.old.disk (F.state files.old).files }
        ensures step { InStep self.old (F.state files.old).files → InStep self.new (F.state files.new).files }
        ensures open { AllOpen self.new.slots (F.state files.new).opened }
        ensures around { (base : List Opened) → Around self.old.slots base (F.state files.old).opened
            → Around self.new.slots base (F.state files.new).opened }
        ensures kept { OnlyKept self.old.slots self.new.slots }
        ensures cause { DetachCause result unit self.old.slots (F.state files.old) (F.state files.new) }
    {
        match self.flush(unit, files) {
            Err(fault) => Err(fault),
            Ok(()) => Ok(self.release(unit, files)),
        }
    }

    /// Writes back what the disk holds of its file: each page of 4096 bytes in which a sector was written since the
    /// file was attached or last written back, or the gap in front of one, by a write of its own, from the front on.
    /// For another unit it does nothing. `NotAttached` comes exactly where nothing is attached. After `Failed` the
    /// pages in front of the one whose write failed are written, and of that one as much as the fault says, which
    /// counts from the front of the file. All of them are still to be written back.
    #[tactic(auto, unfolding(crate::specs::InStep::pages_flushed))]
    pub fn flush<F: Files>(&mut self, unit: UnitName, files: &mut F) -> Result<(), DetachFault>
        requires unit { IsTrue (takes_attachment unit) }
        requires open { AllOpen self.old.slots (F.state files.old).opened }
        ensures said { said_of_flush result ≡ flush_said (failure_of_flush result) unit
            (attachment_at (attachments_of self.old.slots) unit) self.old.disk }
        ensures slots { self.new.slots ≡ self.old.slots }
        ensures disk { self.new.disk ≡ buffer_flushed (said_of_flush result) unit self.old.disk }
        ensures marks { self.new.aside ≡ marks_flushed (said_of_flush result) unit self.old.aside }
        ensures part { OnErr result (IsPart (failure_of_flush result) self.old.disk) }
        ensures pages { (F.state files.new).files ≡ pages_flushed (failure_of_flush result) unit
            (attachment_at (attachments_of self.old.slots) unit) self.old.disk self.old.aside (F.state files.old).files }
        ensures files { InStep self.old (F.state files.old).files → (F.state files.new).files
            ≡ flush_files (failure_of_flush result) unit (attachment_at (attachments_of self.old.slots) unit)
            self.old.disk (F.state files.old).files }
        ensures step { InStep self.old (F.state files.old).files → InStep self.new (F.state files.new).files }
        ensures opened { (F.state files.new).opened ≡ (F.state files.old).opened }
        ensures cause { FlushCause result unit self.old.slots (F.state files.old) (F.state files.new) }
    {
        match self.held_file(unit) {
            None => Err(DetachFault::NotAttached),
            Some(_) if !self.is_due_back(unit) => Ok(()),
            Some(file) => match write_copy(unit, file, &self.disk, files) {
                Ok(()) => {
                    self.disk.unmark();
                    Ok(())
                }
                Err(fault) => Err(DetachFault::Failed(fault)),
            },
        }
    }

    // Whether what the disk holds is to be written back.
    fn is_due_back(&self, unit: UnitName) -> bool
        requires { IsTrue (takes_attachment unit) }
        ensures due { result ≡ is_due_back unit self.now.disk }
        ensures writable { IsTrue result → read_only_at self.now.slots unit ≡ false }
    {
        is_disk(unit.kind) && self.disk.written
    }

    // Closes a unit's file, of which nothing is to be written back. Nothing is attached to the unit behind that.
    fn release<F: Files>(&mut self, unit: UnitName, files: &mut F) -> Option<UnitFault>
        requires unit { IsTrue (takes_attachment unit) }
        requires there { IsTrue (is_some (held_at self.old.slots unit)) }
        requires open { AllOpen self.old.slots (F.state files.old).opened }
        ensures attached { attachments_of self.new.slots ≡ detached unit (attachments_of self.old.slots) }
        ensures disk { self.new.disk ≡ (if is_disk unit.kind then no_buffer else self.old.disk) }
        ensures marks { self.new.aside ≡ (if is_disk unit.kind then no_marks else self.old.aside) }
        ensures files { (F.state files.new).files ≡ (F.state files.old).files }
        ensures open { AllOpen self.new.slots (F.state files.new).opened }
        ensures around { (base : List Opened) → Around self.old.slots base (F.state files.old).opened
            → Around self.new.slots base (F.state files.new).opened }
        ensures kept { OnlyKept self.old.slots self.new.slots }
        ensures cause { DetachCause (Ok result) unit self.old.slots (F.state files.old) (F.state files.new) }
    {
        match self.held_file(unit) {
            None => None,
            Some(file) => {
                self.take(unit);
                close_one(unit, file, files)
            }
        }
    }

    /// The number of a unit's open file, which no other unit has; none where nothing is attached.
    pub fn file_of(&self, unit: UnitName) -> Option<FileId>
        ensures holds { Holds self.now.slots unit result }
        ensures own { HaveOwnNumbers self.now.slots }
        ensures number { option_map (λ id. id.0) result ≡ option_map (λ h. h.file) (held_at self.now.slots unit) }
    {
        self.held_file(unit)
    }

    /// The name of a unit's file, 1 to 255 bytes; none where nothing is attached.
    pub fn name_of(&self, unit: UnitName) -> Option<&str>
        ensures file_name { IfSome result (λ n. IsFileName n.now) }
        ensures name { option_map (λ n. n.now) result
            ≡ option_map (λ h. h.attachment.name) (held_at self.now.slots unit) }
    {
        match self.unit_file(unit) {
            Some(held) => Some(held.name.as_str()),
            None => None,
        }
    }

    /// Whether a unit's file is only read: never where nothing is attached, and never at a unit that only writes.
    pub fn is_read_only(&self, unit: UnitName) -> bool
        ensures read_only { result ≡ read_only_at self.now.slots unit }
        ensures writers { only_writes unit.kind ≡ true → result ≡ false }
    {
        match self.unit_file(unit) {
            Some(held) => held.read_only,
            None => false,
        }
    }

    /// Whether nothing is attached to any unit. Then there is no copy of a disk either.
    pub fn is_empty(&self) -> bool
        ensures any { result ≡ not (is_any_attached (attachments_of self.now.slots)) }
        ensures nothing { IsTrue result → self.now ≡ nothing_attached }
    {
        are_free(&self.slots)
    }

    // The number of a unit's open file.
    pub(crate) fn held_file(&self, unit: UnitName) -> Option<FileId>
        ensures holds { Holds self.now.slots unit result }
        ensures own { HaveOwnNumbers self.now.slots }
    {
        match self.unit_file(unit) {
            Some(held) => Some(held.file),
            None => None,
        }
    }

    // The number of a unit's open file, which may be written.
    pub(crate) fn writable_file(&self, unit: UnitName) -> Option<FileId>
        requires { IsTrue (may_write self.now.slots unit) }
        ensures holds { Holds self.now.slots unit result }
        ensures writable { read_only_at self.now.slots unit ≡ false }
    {
        match self.unit_file(unit) {
            Some(held) => Some(held.file),
            None => None,
        }
    }

    // What is attached to a unit.
    fn unit_file(&self, unit: UnitName) -> Option<&UnitFile>
        ensures held { option_map (λ f. held_of f.now) result ≡ held_at self.now.slots unit }
        ensures writers { only_writes unit.kind ≡ true → read_only_at self.now.slots unit ≡ false }
        ensures own { HaveOwnNumbers self.now.slots }
        ensures names { HaveFileNames self.now.slots }
    {
        match self.slots.get(place_of(unit)) {
            Some(slot) => slot.as_ref(),
            None => None,
        }
    }

    // Attaches a file that no unit has to a unit, with a copy of it where the unit is the disk.
    fn put(&mut self, unit: UnitName, held: UnitFile, copy: DiskCopy)
        requires unit { IsTrue (takes_attachment unit) }
        requires name { IsFileName (held_of held).attachment.name }
        requires own { IsFree self.old.slots held.file.0 }
        requires writers { only_writes unit.kind ≡ true → held.read_only ≡ false }
        requires copy { IsTrue (is_disk unit.kind) → IsNewCopy copy }
        ensures within { file_place unit < length self.old.slots }
        ensures held { self.new.slots ≡ with_held self.old.slots unit (Some (held_of held)) }
        ensures attachments { attachments_of self.new.slots
            ≡ with_attachment (attachments_of self.old.slots) unit (Some (held_of held).attachment) }
        ensures disk { self.new.disk ≡ (if is_disk unit.kind
            then record { bytes = copy.bytes.items; written = false } else self.old.disk) }
        ensures marks { self.new.aside ≡ (if is_disk unit.kind then no_marks else self.old.aside) }
    {
        self.slots[place_of(unit)] = Some(held);
        if is_disk(unit.kind) {
            self.disk = copy;
        }
    }

    // Leaves nothing attached to a unit.
    fn take(&mut self, unit: UnitName)
        requires { IsTrue (takes_attachment unit) }
        ensures held { self.new.slots ≡ with_held self.old.slots unit None }
        ensures attachments { attachments_of self.new.slots ≡ with_attachment (attachments_of self.old.slots) unit None }
        ensures disk { self.new.disk ≡ (if is_disk unit.kind then no_buffer else self.old.disk) }
        ensures marks { self.new.aside ≡ (if is_disk unit.kind then no_marks else self.old.aside) }
    {
        self.slots[place_of(unit)] = None;
        if is_disk(unit.kind) {
            self.disk.clear();
        }
    }
}

// Whether none of these places has a file.
fn are_free(slots: &[Option<UnitFile>]) -> bool
    ensures { result ≡ not (is_any_attached (attachments_of (map slot_of slots.now))) }
{
    match slots.split_first() {
        None => true,
        Some((first, others)) => first.is_none() && are_free(others),
    }
}

// Closes the file of a unit.
fn close_one<F: Files>(unit: UnitName, file: FileId, files: &mut F) -> Option<UnitFault>
    requires { IsOpen (F.state files.old) file.0 }
    ensures files { (F.state files.new).files ≡ (F.state files.old).files }
    ensures closed { (F.state files.new).opened ≡ without (F.state files.old).opened file.0 }
    ensures cause { CloseCause result unit file (F.state files.old) (F.state files.new) }
{
    match files.close_file(file) {
        Ok(()) => None,
        Err(Failed) => Some(UnitFault {
            unit,
            file: Some(file),
            call: FileCall::Closing,
            done: 0,
        }),
    }
}
