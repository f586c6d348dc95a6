ghost use Rattle.std.specs.Prelude.{◌≡◌, ◌≤◌, false, IsTrue, IsOk, IfSome, IfOk, OnOk, OnErr, None, length};
ghost use Rattle.file_traits.specs.declared.files.FileCall.TheVariants.{Opening};
ghost use Rattle.file_traits.specs.Lists.{bytes_of};
ghost use Rattle.file_traits.specs.State.{IsOpen, content, without};
ghost use Rattle.unit_files.specs.declared.modes.AttachMode.TheVariants.{Any};
ghost use Rattle.unit_files.specs.Attachments.{longest_file, is_disk};
ghost use Rattle.unit_files.specs.Acts.{failure_at, measured, opening_said};
ghost use Rattle.unit_files.specs.Acts.{files_unless_opening};
ghost use Rattle.unit_files.specs.View.{IsEmptyCopy, IsNewCopy, IsNoCopy};
ghost use Rattle.unit_files.specs.Answers.{said_of_attach, failure_of_attach, first_refusal, IfNoMemory};
ghost use Rattle.unit_files.specs.Causes.{AttachCause, CountsAttach, OnlyNewCounts};
ghost use Rattle.unit_files.specs.Opening.{OpensFor, CountsOpenings, CountsOneOrTwo, IsNewlyOpen, length_of, fault_of_opening, MeasureCause};
ghost use Rattle.unit_files.specs.Opening.{ClosedCause};
ghost use Rattle.unit_files.specs.Opening.{OnlyCountOf, HasLength, LengthCause, failed_at};
ghost use Rattle.unit_files.specs.declared.faults.AttachFault.TheVariants as attach_faults;

use crate::disk_copy::DiskCopy;
use crate::faults::{AttachFault, UnitFault};
use crate::modes::AttachMode;
use crate::reading::read_copy;
use crate::slots::{is_disk, longest_file};
use file_traits::{Failed, FileCall, FileId, Files, OpenFault, OpenMode};
use std::alloc::{AllocError, Global};
use unit_trait::{Kind, UnitName};

/// A file that was opened for a unit, its length, and the copy of it where the unit is the disk.
#[derive(Drop)]
pub(crate) struct Taken {
    pub(crate) file: FileId,
    pub(crate) length: u64,
    pub(crate) copy: DiskCopy,
}

/// Room for what a unit of that kind holds of its file: a copy of the disk, and none for the others.
pub(crate) fn room_for(alloc: Global, kind: Kind) -> Result<DiskCopy, AllocError>
    ensures copy { IfOk result (λ d. IsTrue (is_disk kind) → IsEmptyCopy d) }
    ensures others { is_disk kind ≡ false → IsOk result }
    ensures none { IfOk result (λ d. is_disk kind ≡ false → IsNoCopy d) }
{
    if is_disk(kind) {
        DiskCopy::with_pages(alloc)
    } else {
        Ok(DiskCopy::none(alloc))
    }
}

// Opens a file for a unit.
fn open_for<F: Files>(
    alloc: Global,
    name: &str,
    mode: AttachMode,
    files: &mut F,
) -> Result<FileId, OpenFault>
    ensures opens { OpensFor F.tells (F.state files.old) (F.state files.new) name.now mode result }
    ensures counts { CountsOpenings F.tells mode (F.state files.old).open_faults (F.state files.new).open_faults result }
{
    match mode {
        AttachMode::Any => open_or_make(alloc, name, files),
        AttachMode::MustExist => files.open_file(alloc, name, OpenMode::Update),
        AttachMode::New => files.open_file(alloc, name, OpenMode::Create),
        AttachMode::ReadOnly => files.open_file(alloc, name, OpenMode::Read),
    }
}

// Opens a file, or makes it where it is not there.
fn open_or_make<F: Files>(alloc: Global, name: &str, files: &mut F) -> Result<FileId, OpenFault>
    ensures opens { OpensFor F.tells (F.state files.old) (F.state files.new) name.now Any result }
    ensures counts { CountsOneOrTwo F.tells (F.state files.old).open_faults (F.state files.new).open_faults result }
{
    match files.open_file(alloc, name, OpenMode::Update) {
        Ok(file) => Ok(file),
        Err(OpenFault::NoFile) => files.open_file(alloc, name, OpenMode::Create),
        Err(OpenFault::Failed) => Err(OpenFault::Failed),
        Err(OpenFault::OutOfMemory) => Err(OpenFault::OutOfMemory),
    }
}

// What came of an opening, said of a unit.
fn fault_of(unit: UnitName, fault: OpenFault) -> AttachFault
    ensures { result ≡ fault_of_opening unit fault }
{
    match fault {
        OpenFault::NoFile => AttachFault::NoFile,
        OpenFault::Failed => AttachFault::Failed(UnitFault {
            unit,
            file: None,
            call: FileCall::Opening,
            done: 0,
        }),
        OpenFault::OutOfMemory => AttachFault::OutOfMemory,
    }
}

// A call on a file that was opened for a unit, which failed.
fn failed(unit: UnitName, file: FileId, call: FileCall) -> AttachFault
    ensures { result ≡ attach_faults.Failed (failed_at call unit file) }
{
    AttachFault::Failed(UnitFault {
        unit,
        file: Some(file),
        call,
        done: 0,
    })
}

// The length of an open file, which a unit is to have.
fn measure<F: Files>(unit: UnitName, file: FileId, files: &mut F) -> Result<u64, AttachFault>
    requires { IsOpen (F.state files.old) file.0 }
    ensures length { IsTrue F.tells → HasLength unit (length (content (F.state files.old) file.0)) result }
    ensures bound { IfOk result (λ n. n ≤ longest_file unit.kind) }
    ensures cause { LengthCause result unit file (F.state files.old) (F.state files.new) }
    ensures counts { OnlyCountOf file.0 (F.state files.old) (F.state files.new) }
    ensures files { (F.state files.new).files ≡ (F.state files.old).files }
    ensures opened { (F.state files.new).opened ≡ (F.state files.old).opened }
{
    match files.length(file) {
        Ok(count) if count > longest_file(unit.kind) => Err(AttachFault::TooLong),
        Ok(count) => Ok(count),
        Err(Failed) => Err(failed(unit, file, FileCall::Length)),
    }
}

// The length of an open file, which a unit is to have. The disk reads the file.
fn measure_and_read<F: Files>(
    unit: UnitName,
    file: FileId,
    copy: &mut DiskCopy,
    files: &mut F,
) -> Result<u64, AttachFault>
    requires open { IsOpen (F.state files.old) file.0 }
    requires room { IsTrue (is_disk unit.kind) → IsEmptyCopy copy.old }
    ensures said { IsTrue F.tells → IfSome (said_of_attach result) (λ said. said
        ≡ measured (failure_of_attach result) unit (length (content (F.state files.old) file.0))) }
    ensures bound { IfOk result (λ n. n ≤ longest_file unit.kind) }
    ensures bytes { IsTrue F.tells → IsTrue (is_disk unit.kind)
        → OnOk result (copy.new.bytes.items ≡ content (F.state files.old) file.0) }
    ensures copy { IsTrue (is_disk unit.kind) → OnOk result (IsNewCopy copy.new) }
    ensures cause { MeasureCause result unit file (F.state files.old) (F.state files.new) }
    ensures counts { OnlyCountOf file.0 (F.state files.old) (F.state files.new) }
    ensures files { (F.state files.new).files ≡ (F.state files.old).files }
    ensures opened { (F.state files.new).opened ≡ (F.state files.old).opened }
{
    match measure(unit, file, files) {
        Ok(count) if is_disk(unit.kind) => {
            match read_copy(file, count as usize, copy, files) {
                Ok(()) => Ok(count),
                Err(Failed) => Err(failed(unit, file, FileCall::Read)),
            }
        }
        other => other,
    }
}

// The same, of a file that is closed again where the unit does not get it.
fn measure_or_close<F: Files>(
    unit: UnitName,
    file: FileId,
    copy: &mut DiskCopy,
    files: &mut F,
) -> Result<u64, AttachFault>
    requires open { IsOpen (F.state files.old) file.0 }
    requires room { IsTrue (is_disk unit.kind) → IsEmptyCopy copy.old }
    ensures said { IsTrue F.tells → IfSome (said_of_attach result) (λ said. said
        ≡ measured (failure_of_attach result) unit (length (content (F.state files.old) file.0))) }
    ensures bound { IfOk result (λ n. n ≤ longest_file unit.kind) }
    ensures bytes { IsTrue F.tells → IsTrue (is_disk unit.kind)
        → OnOk result (copy.new.bytes.items ≡ content (F.state files.old) file.0) }
    ensures copy { IsTrue (is_disk unit.kind) → OnOk result (IsNewCopy copy.new) }
    ensures cause { ClosedCause result unit file (F.state files.old) (F.state files.new) }
    ensures counts { OnlyCountOf file.0 (F.state files.old) (F.state files.new) }
    ensures files { (F.state files.new).files ≡ (F.state files.old).files }
    ensures opened { OnOk result ((F.state files.new).opened ≡ (F.state files.old).opened) }
    ensures closed { OnErr result ((F.state files.new).opened ≡ without (F.state files.old).opened file.0) }
{
    match measure_and_read(unit, file, copy, files) {
        Ok(count) => Ok(count),
        Err(fault) => {
            let _ = files.close_file(file);
            Err(fault)
        }
    }
}

/// Opens a file for a unit, and asks for its length; the disk reads it. One that the unit does not get is closed again.
/// `copy` is that of `room_for`.
pub(crate) fn take_file<F: Files>(
    alloc: Global,
    unit: UnitName,
    name: &str,
    mode: AttachMode,
    mut copy: DiskCopy,
    files: &mut F,
) -> Result<Taken, AttachFault>
    requires { IsTrue (is_disk unit.kind) → IsEmptyCopy copy }
    ensures said { IsTrue F.tells → IfSome (said_of_attach (length_of result)) (λ said. said
        ≡ opening_said (failure_at Opening (failure_of_attach (length_of result)))
        (failure_of_attach (length_of result))
        mode unit name.now (F.state files.old).files) }
    ensures files { IsTrue F.tells → IfSome (said_of_attach (length_of result)) (λ said. (F.state files.new).files
        ≡ files_unless_opening (failure_at Opening (failure_of_attach (length_of result))) mode name.now
        (F.state files.old).files) }
    ensures no_memory { IfNoMemory (length_of result) ((F.state files.new).files ≡ (F.state files.old).files) }
    ensures late { first_refusal (length_of result) ≡ None }
    ensures bound { IfOk result (λ taken. taken.length ≤ longest_file unit.kind) }
    ensures bytes { IsTrue F.tells → IsTrue (is_disk unit.kind) → IfOk result (λ taken.
        taken.copy.bytes.items ≡ bytes_of (F.state files.new).files name.now) }
    ensures copy { IfOk result (λ taken. IsTrue (is_disk unit.kind) → IsNewCopy taken.copy) }
    ensures opened { IfOk result (λ taken.
        IsNewlyOpen (F.state files.old) (F.state files.new) name.now mode taken.file.0) }
    ensures closed { OnErr result ((F.state files.new).opened ≡ (F.state files.old).opened) }
    ensures counts { OnlyNewCounts (F.state files.old) (F.state files.new) }
    ensures cause { AttachCause F.tells (length_of result) unit (F.state files.old) (F.state files.new) }
    ensures exact { CountsAttach mode F.tells (length_of result) (F.state files.old) (F.state files.new) }
{
    match open_for(alloc, name, mode, files) {
        Ok(file) => match measure_or_close(unit, file, &mut copy, files) {
            Ok(length) => Ok(Taken { file, length, copy }),
            Err(fault) => Err(fault),
        },
        Err(fault) => Err(fault_of(unit, fault)),
    }
}
