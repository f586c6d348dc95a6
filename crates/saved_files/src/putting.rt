// The files that a saved session names: each is attached and compared, all of them or none.
ghost use Rattle.std.specs.Prelude.{◌≡◌, ◌≢◌, List, IsTrue, Ok, OnOk, OnErr, IfErr, false, true, Some, None, is_some};
ghost use Rattle.std.specs.Prelude.{Bool, length, if◌then◌else◌};
ghost use Rattle.std.specs.List.{AllByRecursion};
ghost use Rattle.file_traits.specs.Lists.{bytes_of};
ghost use Rattle.file_traits.specs.State.{Opened};
ghost use Rattle.unit_files.specs.Attachments.{Attachment, attachments_of, attachment_at, no_attachments};
ghost use Rattle.unit_files.specs.Attachments.{takes_attachment, is_disk};
ghost use Rattle.unit_files.specs.Aside.{nothing_aside};
ghost use Rattle.unit_files.specs.Buffer.{nothing_attached, no_buffer, disk_unit};
ghost use Rattle.unit_files.specs.InStep.{InStep};
ghost use Rattle.unit_files.specs.Acts.{detached};
ghost use Rattle.unit_files.specs.Causes.{AreFrom, OnlyKept, OnlyNewCounts};
ghost use Rattle.unit_files.specs.Open.{AllOpen, Around};
ghost use Rattle.saved_files.specs.GivingBack.{IsHeldIn, IsNoDisk, OnlyTheirCounts, without_all, copy_behind};
ghost use Rattle.saved_session.specs.Parts.{FilePart, file_in};
ghost use Rattle.saved_session.specs.Ranges.{kind_at};
ghost use Rattle.saved_files.specs.Putting.{files_in, unit_of, is_only_read, mode_of, refusal_of, with_file, with_all};
ghost use Rattle.saved_files.specs.Putting.{copy_of, first_refused, claim_in, Says, IsOfThese};
ghost use Rattle.saved_files.specs.PuttingOne.{CanAttach, IsFree, AreApart, IsClean, IsAsRead, IsOf, failure_of, SaysOne};
ghost use Rattle.saved_files.specs.PuttingOne.{Attaches, Compares, CompareCalls, CompareCause, OnlyItsCount};
ghost use Rattle.saved_files.specs.PuttingCauses.{ClosesOnce, ClosesOthers, HaveGivenNumbers, IsCompared, OpensEach, RestoreCause};
ghost use Rattle.saved_session.specs.Valid.{AreFiles};

use crate::file_faults::RestoreFault;
use crate::unit_digest::digest_unit;
use file_traits::Files;
use saved_session::{SavedFile, kind_at};
use std::alloc::Global;
use unit_files::{AttachFault, AttachMode, Attached};
use unit_trait::UnitName;

/// The unit of a file.
pub(crate) fn unit_of(file: &SavedFile) -> UnitName
    ensures { result ≡ unit_of (file_in file.now) }
{
    UnitName {
        kind: kind_at(file.position),
        unit: file.unit,
    }
}

// How a file is attached.
fn mode_of(file: &SavedFile) -> AttachMode
    ensures { result ≡ mode_of (is_only_read (file_in file.now)) }
{
    if file.read_only == 1 {
        AttachMode::ReadOnly
    } else {
        AttachMode::MustExist
    }
}

// Closes the file of a unit, of which nothing is to be written back. A closing that fails is not told.
fn give_back<F: Files>(attached: &mut Attached, unit: UnitName, files: &mut F)
    requires unit { IsTrue (takes_attachment unit) }
    requires there { IsTrue (is_some (attachment_at (attachments_of attached.old.slots) unit)) }
    requires clean { is_disk unit.kind ≡ true → attached.old.disk.written ≡ false }
    requires open { AllOpen attached.old.slots (F.state files.old).opened }
    ensures attached { attachments_of attached.new.slots ≡ detached unit (attachments_of attached.old.slots) }
    ensures disk { attached.new.disk ≡ (if is_disk unit.kind then no_buffer else attached.old.disk) }
    ensures marks { attached.new.aside ≡ (if is_disk unit.kind then nothing_aside else attached.old.aside) }
    ensures files { (F.state files.new).files ≡ (F.state files.old).files }
    ensures open { AllOpen attached.new.slots (F.state files.new).opened }
    ensures around { (base : List Opened) → Around attached.old.slots base (F.state files.old).opened
        → Around attached.new.slots base (F.state files.new).opened }
    ensures kept { OnlyKept attached.old.slots attached.new.slots }
    ensures count { OnlyItsCount attached.old.slots unit (F.state files.old) (F.state files.new) }
    ensures once { ClosesOthers (Ok tt) attached.new.slots (F.state files.old) (F.state files.new) }
{
    // No other unit has this file.
    prove!(attached.file_of(unit).is_some());
    let _closing = attached.detach(unit, files);
}

// Attaches a file, and does not look at its bytes.
fn attach_file<F: Files>(
    alloc: Global,
    file: &SavedFile,
    attached: &mut Attached,
    files: &mut F,
) -> Result<(), RestoreFault>
    requires can { CanAttach (file_in file.now) }
    requires free { IsFree (attachments_of attached.old.slots) (file_in file.now) }
    requires open { AllOpen attached.old.slots (F.state files.old).opened }
    ensures told { IsTrue F.tells → Attaches (file_in file.now) (attachments_of attached.old.slots)
        (F.state files.old).files result }
    ensures unit { IfErr result (IsOf (unit_of (file_in file.now))) }
    ensures attached { OnOk result (attachments_of attached.new.slots
        ≡ with_file (attachments_of attached.old.slots) (file_in file.now)) }
    ensures there { OnOk result
        (IsTrue (is_some (attachment_at (attachments_of attached.new.slots) (unit_of (file_in file.now))))) }
    ensures unwritten { OnOk result (is_disk (kind_at file.now.position) ≡ true → IsAsRead attached.new.disk) }
    ensures bytes { IsTrue F.tells → OnOk result (is_disk (kind_at file.now.position) ≡ true
        → attached.new.disk.bytes ≡ bytes_of (F.state files.old).files (file_in file.now).name) }
    ensures other { is_disk (kind_at file.now.position) ≡ false → attached.new.disk ≡ attached.old.disk }
    ensures unmarked { attached.old.aside ≡ nothing_aside → attached.new.aside ≡ nothing_aside }
    ensures step { IsTrue F.tells → InStep attached.old (F.state files.old).files
        → OnOk result (InStep attached.new (F.state files.new).files) }
    ensures refused { OnErr result (attached.new ≡ attached.old) }
    ensures files { IsTrue F.tells → (F.state files.new).files ≡ (F.state files.old).files }
    ensures open { AllOpen attached.new.slots (F.state files.new).opened }
    ensures around { (base : List Opened) → Around attached.old.slots base (F.state files.old).opened
        → Around attached.new.slots base (F.state files.new).opened }
    ensures from { AreFrom attached.old.slots attached.new.slots (F.state files.old) (F.state files.new) }
    ensures counts { OnlyNewCounts (F.state files.old) (F.state files.new) }
    ensures cause { RestoreCause F.tells result (F.state files.old) (F.state files.new) }
    ensures exact { OpensEach F.tells 1 result (F.state files.old) (F.state files.new) }
    ensures once { HaveGivenNumbers attached.old.slots (F.state files.old)
        → ClosesOthers result attached.new.slots (F.state files.old) (F.state files.new) }
    ensures compared { (force : Bool) → IsCompared force result }
{
    let unit = unit_of(file);
    match attached.attach(alloc, unit, file.name.as_str(), mode_of(file), files) {
        Ok(_length) => Ok(()),
        Err(AttachFault::NoFile) => Err(RestoreFault::NoFile(unit)),
        Err(AttachFault::TooLong) => Err(RestoreFault::TooLong(unit)),
        Err(AttachFault::Failed(fault)) => Err(RestoreFault::Failed(fault)),
        Err(AttachFault::OutOfMemory) => Err(RestoreFault::OutOfMemory),
        Err(AttachFault::AlreadyAttached | AttachFault::ReadOnly) => unreachable!(),
    }
}

// Whether the file of a unit is as the saved session says, by its length and digest.
fn compare<F: Files>(
    file: &SavedFile,
    attached: &mut Attached,
    files: &mut F,
) -> Result<(), RestoreFault>
    requires unit { IsTrue (takes_attachment (unit_of (file_in file.now))) }
    requires there { IsTrue (is_some (attachment_at (attachments_of attached.old.slots) (unit_of (file_in file.now)))) }
    requires open { AllOpen attached.old.slots (F.state files.old).opened }
    ensures told { IsTrue F.tells → (a : Attachment)
        → attachment_at (attachments_of attached.old.slots) (unit_of (file_in file.now)) ≡ Some a
        → Compares (file_in file.now) (bytes_of (F.state files.old).files a.name) result }
    ensures unit { IfErr result (IsOf (unit_of (file_in file.now))) }
    ensures calls { CompareCalls result }
    ensures kept { attached.new ≡ attached.old }
    ensures files { (F.state files.new).files ≡ (F.state files.old).files }
    ensures opened { (F.state files.new).opened ≡ (F.state files.old).opened }
    ensures count { OnlyItsCount attached.old.slots (unit_of (file_in file.now)) (F.state files.old)
        (F.state files.new) }
    ensures cause { CompareCause result (unit_of (file_in file.now)) attached.old.slots (F.state files.old)
        (F.state files.new) }
{
    let unit = unit_of(file);
    match digest_unit(attached, unit, files) {
        Ok(found) => {
            if found.length == file.length && found.digest == file.digest {
                Ok(())
            } else {
                Err(RestoreFault::Changed(unit))
            }
        }
        Err(fault) => Err(RestoreFault::Failed(fault)),
    }
}

// Attaches a file and compares it, unless that is forced. A refusal leaves nothing attached to its unit.
fn attach_one<F: Files>(
    alloc: Global,
    file: &SavedFile,
    force: bool,
    attached: &mut Attached,
    files: &mut F,
) -> Result<(), RestoreFault>
    requires can { CanAttach (file_in file.now) }
    requires free { IsFree (attachments_of attached.old.slots) (file_in file.now) }
    requires clean { IsClean attached.old.disk (file_in file.now) }
    requires open { AllOpen attached.old.slots (F.state files.old).opened }
    ensures told { IsTrue F.tells → SaysOne result (refusal_of (failure_of result) force (file_in file.now)
        (attachments_of attached.old.slots) (F.state files.old).files) }
    ensures unit { IfErr result (IsOf (unit_of (file_in file.now))) }
    ensures attached { OnOk result (attachments_of attached.new.slots
        ≡ with_file (attachments_of attached.old.slots) (file_in file.now)) }
    ensures there { OnOk result
        (IsTrue (is_some (attachment_at (attachments_of attached.new.slots) (unit_of (file_in file.now))))) }
    ensures unwritten { OnOk result (is_disk (kind_at file.now.position) ≡ true → IsAsRead attached.new.disk) }
    ensures bytes { IsTrue F.tells → OnOk result (is_disk (kind_at file.now.position) ≡ true
        → attached.new.disk.bytes ≡ bytes_of (F.state files.old).files (file_in file.now).name) }
    ensures other { is_disk (kind_at file.now.position) ≡ false → attached.new.disk ≡ attached.old.disk }
    ensures unmarked { attached.old.aside ≡ nothing_aside → attached.new.aside ≡ nothing_aside }
    ensures step { IsTrue F.tells → InStep attached.old (F.state files.old).files
        → OnOk result (InStep attached.new (F.state files.new).files) }
    ensures slots { OnErr result (attachments_of attached.new.slots ≡ attachments_of attached.old.slots) }
    ensures disk { OnErr result (attached.new.disk ≡ attached.old.disk) }
    ensures files { IsTrue F.tells → (F.state files.new).files ≡ (F.state files.old).files }
    ensures open { AllOpen attached.new.slots (F.state files.new).opened }
    ensures around { (base : List Opened) → Around attached.old.slots base (F.state files.old).opened
        → Around attached.new.slots base (F.state files.new).opened }
    ensures from { AreFrom attached.old.slots attached.new.slots (F.state files.old) (F.state files.new) }
    ensures counts { OnlyNewCounts (F.state files.old) (F.state files.new) }
    ensures cause { RestoreCause F.tells result (F.state files.old) (F.state files.new) }
    ensures exact { OpensEach F.tells 1 result (F.state files.old) (F.state files.new) }
    ensures once { HaveGivenNumbers attached.old.slots (F.state files.old)
        → ClosesOthers result attached.new.slots (F.state files.old) (F.state files.new) }
    ensures compared { IsCompared force result }
{
    attach_file(alloc, file, attached, files)?;
    if force {
        return Ok(());
    }
    match compare(file, attached, files) {
        Ok(()) => Ok(()),
        Err(fault) => {
            give_back(attached, unit_of(file), files);
            Err(fault)
        }
    }
}

// Attaches these files, one behind another, and compares each before the next. A refusal leaves all as it was.
fn attach_each<F: Files>(
    alloc: Global,
    saved: &[SavedFile],
    force: bool,
    attached: &mut Attached,
    files: &mut F,
) -> Result<(), RestoreFault>
    requires can { AllByRecursion CanAttach (files_in saved.now) }
    requires apart { AreApart (files_in saved.now) }
    requires free { AllByRecursion (IsFree (attachments_of attached.old.slots)) (files_in saved.now) }
    requires clean { AllByRecursion (IsClean attached.old.disk) (files_in saved.now) }
    requires open { AllOpen attached.old.slots (F.state files.old).opened }
    ensures told { IsTrue F.tells → Says result (first_refused (claim_in result) force (files_in saved.now)
        (attachments_of attached.old.slots) (F.state files.old).files) }
    ensures these { IfErr result (IsOfThese (files_in saved.now)) }
    ensures attached { OnOk result (attachments_of attached.new.slots
        ≡ with_all (attachments_of attached.old.slots) (files_in saved.now)) }
    ensures copy { IsTrue F.tells
        → attached.old.disk
        ≡ copy_of (attachment_at (attachments_of attached.old.slots) disk_unit) (F.state files.old).files
        → OnOk result (attached.new.disk
        ≡ copy_of (attachment_at (attachments_of attached.new.slots) disk_unit) (F.state files.old).files) }
    ensures slots { OnErr result (attachments_of attached.new.slots ≡ attachments_of attached.old.slots) }
    ensures disk { OnErr result (attached.new.disk ≡ attached.old.disk) }
    ensures held { OnOk result (AllByRecursion (IsHeldIn (attachments_of attached.new.slots)) (files_in saved.now)) }
    ensures unwritten { attached.old.disk.written ≡ false → attached.new.disk.written ≡ false }
    ensures other { AllByRecursion IsNoDisk (files_in saved.now) → attached.new.disk ≡ attached.old.disk }
    ensures unmarked { attached.old.aside ≡ nothing_aside → attached.new.aside ≡ nothing_aside }
    ensures step { IsTrue F.tells → InStep attached.old (F.state files.old).files
        → OnOk result (InStep attached.new (F.state files.new).files) }
    ensures files { IsTrue F.tells → (F.state files.new).files ≡ (F.state files.old).files }
    ensures open { AllOpen attached.new.slots (F.state files.new).opened }
    ensures around { (base : List Opened) → Around attached.old.slots base (F.state files.old).opened
        → Around attached.new.slots base (F.state files.new).opened }
    ensures from { AreFrom attached.old.slots attached.new.slots (F.state files.old) (F.state files.new) }
    ensures counts { OnlyNewCounts (F.state files.old) (F.state files.new) }
    ensures cause { RestoreCause F.tells result (F.state files.old) (F.state files.new) }
    ensures exact { OpensEach F.tells (length (files_in saved.now)) result (F.state files.old) (F.state files.new) }
    ensures once { HaveGivenNumbers attached.old.slots (F.state files.old)
        → ClosesOthers result attached.new.slots (F.state files.old) (F.state files.new) }
    ensures compared { IsCompared force result }
{
    match saved.split_first() {
        None => Ok(()),
        Some((first, others)) => {
            attach_one(alloc, first, force, attached, files)?;
            match attach_each(alloc, others, force, attached, files) {
                Ok(()) => Ok(()),
                Err(fault) => {
                    give_back(attached, unit_of(first), files);
                    Err(fault)
                }
            }
        }
    }
}

/// Attaches the files that a saved session names, where nothing is attached: each in its order, only to be read where
/// it was, and else to be changed; and, unless that is forced, its length and digest are compared with those of the
/// session before the next. The refusals of a file, in this order: `NoFile`, or `Failed` of the opening; `Failed` of
/// the length; `TooLong`; `Failed` of a read; `Changed`. The first file that is refused ends it, and `OutOfMemory` may
/// come in front of each. Behind a refusal nothing is attached, and each file that was opened is closed; a closing that
/// fails is not answered.
pub fn attach_all<F: Files>(
    alloc: Global,
    saved: &[SavedFile],
    force: bool,
    attached: &mut Attached,
    files: &mut F,
) -> Result<(), RestoreFault>
    requires valid { AreFiles (files_in saved.now) }
    requires nothing { attached.old ≡ nothing_attached }
    ensures told { IsTrue F.tells → Says result (first_refused (claim_in result) force (files_in saved.now)
        no_attachments (F.state files.old).files) }
    ensures these { IfErr result (IsOfThese (files_in saved.now)) }
    ensures attached { OnOk result (attachments_of attached.new.slots ≡ with_all no_attachments (files_in saved.now)) }
    ensures copy { IsTrue F.tells → OnOk result (attached.new.disk
        ≡ copy_of (attachment_at (with_all no_attachments (files_in saved.now)) disk_unit) (F.state files.old).files) }
    ensures held { OnOk result (AllByRecursion (IsHeldIn (attachments_of attached.new.slots)) (files_in saved.now)) }
    ensures unwritten { attached.new.disk.written ≡ false }
    ensures other { AllByRecursion IsNoDisk (files_in saved.now) → attached.new.disk ≡ no_buffer }
    ensures unmarked { attached.new.aside ≡ nothing_aside }
    ensures step { IsTrue F.tells → OnOk result (InStep attached.new (F.state files.new).files) }
    ensures refused { OnErr result (attached.new ≡ attached.old) }
    ensures closed { OnErr result ((F.state files.new).opened ≡ (F.state files.old).opened) }
    ensures files { IsTrue F.tells → (F.state files.new).files ≡ (F.state files.old).files }
    ensures open { AllOpen attached.new.slots (F.state files.new).opened }
    ensures around { Around attached.new.slots (F.state files.old).opened (F.state files.new).opened }
    ensures from { AreFrom attached.old.slots attached.new.slots (F.state files.old) (F.state files.new) }
    ensures counts { OnlyNewCounts (F.state files.old) (F.state files.new) }
    ensures cause { RestoreCause F.tells result (F.state files.old) (F.state files.new) }
    ensures exact { OpensEach F.tells (length (files_in saved.now)) result (F.state files.old) (F.state files.new) }
    ensures once { ClosesOnce result (F.state files.old) (F.state files.new) }
    ensures compared { IsCompared force result }
{
    attach_each(alloc, saved, force, attached, files)
}

/// Gives back the files of these units, the last one first. Nothing is to be written back. A closing that fails is told
/// by the count of its file alone.
pub fn give_back_all<F: Files>(saved: &[SavedFile], attached: &mut Attached, files: &mut F)
    requires can { AllByRecursion CanAttach (files_in saved.now) }
    requires apart { AreApart (files_in saved.now) }
    requires held { AllByRecursion (IsHeldIn (attachments_of attached.old.slots)) (files_in saved.now) }
    requires clean { attached.old.disk.written ≡ false }
    requires open { AllOpen attached.old.slots (F.state files.old).opened }
    ensures attached { attachments_of attached.new.slots ≡ without_all (attachments_of attached.old.slots) (files_in saved.now) }
    ensures disk { attached.new.disk ≡ copy_behind attached.old.disk (files_in saved.now) }
    ensures unmarked { attached.old.aside ≡ nothing_aside → attached.new.aside ≡ nothing_aside }
    ensures files { (F.state files.new).files ≡ (F.state files.old).files }
    ensures open { AllOpen attached.new.slots (F.state files.new).opened }
    ensures around { (base : List Opened) → Around attached.old.slots base (F.state files.old).opened
        → Around attached.new.slots base (F.state files.new).opened }
    ensures kept { OnlyKept attached.old.slots attached.new.slots }
    ensures counts { OnlyTheirCounts attached.old.slots (files_in saved.now) (F.state files.old) (F.state files.new) }
    ensures once { ClosesOthers (Ok tt) attached.new.slots (F.state files.old) (F.state files.new) }
{
    match saved.split_first() {
        None => (),
        Some((first, others)) => {
            give_back_all(others, attached, files);
            give_back(attached, unit_of(first), files);
        }
    }
}
