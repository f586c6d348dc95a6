ghost use Rattle.std.specs.Prelude.{◌≡◌, ◌<◌, ◌≤◌, ◌+◌, ◌++◌, true, false, is_some, List, IsTrue, IfOk, IfSome, OnOk, OnErr, vec_len, vec_capacity};
ghost use Rattle.file_traits.specs.State.{Opened};
ghost use Rattle.file_traits.specs.Lists.{bytes_of};
ghost use Rattle.unit_files.specs.Attachments.{attachments_of, attachment_at, takes_attachment, longest_file, is_disk, IsFileName};
ghost use Rattle.unit_files.specs.Acts.{attach_said, attach_files, attached_by, buffer_by, refused_first};
ghost use Rattle.unit_files.specs.Acts.{detach_said, detached_by, buffer_left, flush_files};
ghost use Rattle.unit_files.specs.InStep.{InStep, marks_left};
ghost use Rattle.unit_files.specs.Causes.{AttachCause, CountsAttach, DetachCause};
ghost use Rattle.unit_files.specs.Answers.{said_of_attach, said_of_detach, first_refusal, IfNoMemory};
ghost use Rattle.unit_files.specs.Open.{AllOpen, Around};
ghost use Rattle.file_commands.specs.declared.note.Subject.TheVariants as subjects;
ghost use Rattle.file_commands.specs.Notes.{failure_now};
ghost use Rattle.file_commands.specs.Counts.{AreCounted, AreAll};
ghost use Rattle.file_commands.specs.OwnFiles.{AreOwn};
ghost use Rattle.file_commands.specs.Kept.{IsAttachFault, MissingCause, HoldsNothing, fault_of_attach, fault_of_detach, kept_of, own_of};

use crate::stamp::{Stamp, note_of};
use crate::{FaultNote, keep};
use file_traits::Files;
use std::alloc::Global;
use unit_files::{AttachFault, AttachMode, Attached, DetachFault, UnitFault};
use unit_trait::UnitName;

/// Attaches a file to a unit, and notes the call that failed, if that is why it was refused. Its answer is the file's
/// length, in bytes.
pub fn attach_unit<F: Files>(
    alloc: Global,
    attached: &mut Attached,
    unit: UnitName,
    name: &str,
    mode: AttachMode,
    files: &mut F,
    notes: &mut Vec<FaultNote>,
    stamp: Stamp,
) -> Result<u64, AttachFault>
    requires unit { IsTrue (takes_attachment unit) }
    requires name { IsFileName name.now }
    requires open { AllOpen attached.old.slots (F.state files.old).opened }
    requires room { vec_len notes.old < vec_capacity notes.old }
    ensures said { IsTrue F.tells → IfSome (said_of_attach result) (λ said. said
        ≡ attach_said (failure_now stamp.time (subjects.Unit unit) (own_of stamp.time (fault_of_attach result))) mode unit
        name.now (attachments_of attached.old.slots) (F.state files.old).files) }
    ensures first { first_refusal result ≡ refused_first (attachment_at (attachments_of attached.old.slots) unit) unit mode }
    ensures bound { IfOk result (λ n. n ≤ longest_file unit.kind) }
    ensures attached { IfSome (said_of_attach result) (λ said. attachments_of attached.new.slots
        ≡ attached_by said mode unit name.now (attachments_of attached.old.slots)) }
    ensures disk { IsTrue F.tells → IfSome (said_of_attach result) (λ said. attached.new.disk
        ≡ buffer_by said unit (bytes_of (F.state files.new).files name.now) attached.old.disk) }
    ensures there { IfOk result (λ n. IsTrue (is_some (attachment_at (attachments_of attached.new.slots) unit))) }
    ensures unwritten { IfOk result (λ n. is_disk unit.kind ≡ true → attached.new.disk.written ≡ false) }
    ensures step { IsTrue F.tells → OnOk result (is_disk unit.kind ≡ true → InStep attached.new (F.state files.new).files) }
    ensures other { is_disk unit.kind ≡ false → attached.new.disk ≡ attached.old.disk }
    ensures other_marks { is_disk unit.kind ≡ false → attached.new.aside ≡ attached.old.aside }
    ensures refused { OnErr result (attached.new ≡ attached.old) }
    ensures files { IsTrue F.tells → IfSome (said_of_attach result) (λ said. (F.state files.new).files
        ≡ attach_files (failure_now stamp.time (subjects.Unit unit) (own_of stamp.time (fault_of_attach result))) mode unit
        name.now (attachments_of attached.old.slots) (F.state files.old).files) }
    ensures no_memory { IfNoMemory result ((F.state files.new).files ≡ (F.state files.old).files) }
    ensures own { IfSome (fault_of_attach result) (IsAttachFault unit) }
    ensures missing { MissingCause F.tells result (F.state files.old) (F.state files.new) }
    ensures cause { AttachCause F.tells result unit (F.state files.old) (F.state files.new) }
    ensures exact { CountsAttach mode F.tells result (F.state files.old) (F.state files.new) }
    ensures whose { AreOwn attached.old.slots attached.new.slots notes.old.items notes.new.items (F.state files.old)
        (F.state files.new) }
    ensures notes { notes.new.items ≡ notes.old.items ++ kept_of stamp (fault_of_attach result) }
    ensures capacity { vec_capacity notes.old ≤ vec_capacity notes.new }
    ensures counted { AreCounted (kept_of stamp (fault_of_attach result)) (F.state files.old) (F.state files.new) }
    ensures closed { OnErr result ((F.state files.new).opened ≡ (F.state files.old).opened) }
    ensures open { AllOpen attached.new.slots (F.state files.new).opened }
    ensures around { (base : List Opened) → Around attached.old.slots base (F.state files.old).opened
        → Around attached.new.slots base (F.state files.new).opened }
{
    let result = attached.attach(alloc, unit, name, mode, files);
    match result {
        Err(AttachFault::Failed(fault)) => {
            keep(notes, note_of(fault, stamp));
            Err(AttachFault::Failed(fault))
        }
        other => other,
    }
}

/// Takes a unit's file away, behind writing back what the disk holds of it, and notes the call that failed, if one did:
/// the write, behind which the unit still has its file, or the closing.
pub fn detach_unit<F: Files>(
    attached: &mut Attached,
    unit: UnitName,
    files: &mut F,
    notes: &mut Vec<FaultNote>,
    stamp: Stamp,
) -> Result<Option<UnitFault>, DetachFault>
    requires unit { IsTrue (takes_attachment unit) }
    requires open { AllOpen attached.old.slots (F.state files.old).opened }
    requires room { vec_len notes.old < vec_capacity notes.old }
    ensures said { said_of_detach result ≡ detach_said
        (failure_now stamp.time (subjects.Unit unit) (own_of stamp.time (fault_of_detach result))) unit
        (attachments_of attached.old.slots) attached.old.disk }
    ensures attached { attachments_of attached.new.slots
        ≡ detached_by (said_of_detach result) unit (attachments_of attached.old.slots) }
    ensures disk { attached.new.disk ≡ buffer_left (said_of_detach result) unit attached.old.disk }
    ensures marks { attached.new.aside ≡ marks_left (said_of_detach result) unit attached.old.aside }
    ensures step { InStep attached.old (F.state files.old).files → InStep attached.new (F.state files.new).files }
    ensures refused { OnErr result (attached.new ≡ attached.old) }
    ensures files { InStep attached.old (F.state files.old).files → (F.state files.new).files ≡ flush_files
        (failure_now stamp.time (subjects.Unit unit) (own_of stamp.time (fault_of_detach result))) unit
        (attachment_at (attachments_of attached.old.slots) unit) attached.old.disk (F.state files.old).files }
    ensures notes { notes.new.items ≡ notes.old.items ++ kept_of stamp (fault_of_detach result) }
    ensures few { vec_len notes.new ≤ vec_len notes.old + 1 }
    ensures capacity { vec_capacity notes.old ≤ vec_capacity notes.new }
    ensures counted { AreCounted (kept_of stamp (fault_of_detach result)) (F.state files.old) (F.state files.new) }
    ensures all { AreAll (kept_of stamp (fault_of_detach result)) (F.state files.old) (F.state files.new) }
    ensures own { IfSome (fault_of_detach result) (λ f. f.unit ≡ unit) }
    ensures nothing { is_disk unit.kind ≡ false → HoldsNothing result }
    ensures cause { DetachCause result unit attached.old.slots (F.state files.old) (F.state files.new) }
    ensures whose { AreOwn attached.old.slots attached.new.slots notes.old.items notes.new.items (F.state files.old)
        (F.state files.new) }
    ensures open { AllOpen attached.new.slots (F.state files.new).opened }
    ensures around { (base : List Opened) → Around attached.old.slots base (F.state files.old).opened
        → Around attached.new.slots base (F.state files.new).opened }
{
    match attached.detach(unit, files) {
        Ok(Some(fault)) => {
            keep(notes, note_of(fault, stamp));
            Ok(Some(fault))
        }
        Err(DetachFault::Failed(fault)) => {
            keep(notes, note_of(fault, stamp));
            Err(DetachFault::Failed(fault))
        }
        other => other,
    }
}
