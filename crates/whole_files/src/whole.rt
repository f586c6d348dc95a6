ghost use Rattle.std.specs.Prelude.{◌≡◌, ◌<◌, ◌≤◌, ◌+◌, ℕ, IsTrue, IfOk, IfSome, None, Err, length, if◌then◌else◌};
ghost use Rattle.fault_counts.specs.Faults.{raised};
ghost use Rattle.file_traits.specs.State.{IsOpen, without};
ghost use Rattle.whole_files.specs.Reading.{Fails, IsClosing, failure_count, answer_of, failure_of};
ghost use Rattle.whole_files.specs.Reading.{fault_of_opening, failed_opening};
ghost use Rattle.whole_files.specs.Claims.{said_of, claimed, HasShape, raised_by, claims_on, IsNew, opening_counted};
ghost use Rattle.whole_files.specs.Claims.{WholeCause};
ghost use Rattle.whole_files.specs.Whole.{longest_file, whole_act};

use crate::reading::{Refusal, read_open};
use file_traits::{Failed, FileCall, FileId, Files, OpenFault, OpenMode};
use std::alloc::Global;

/// How many bytes a file that is read whole may have.
pub const LONGEST_FILE: u64 = 1_048_576;

/// A call on a file that failed, of no file where it was to be opened. The count of faults of that file has risen, or
/// that of openings.
#[derive(Clone, Copy, Debug, PartialEq, Eq)]
pub struct FailedCall {
    pub file: Option<FileId>,
    pub call: FileCall,
}

/// Why a file was not read or written.
#[derive(Clone, Copy, Debug, PartialEq, Eq)]
pub enum WholeFault {
    /// There is no file of that name.
    NoFile,
    /// It is longer than `LONGEST_FILE`.
    TooLong,
    /// Its opening, its length, a read or the write failed.
    Failed,
    OutOfMemory,
}

/// What came of reading a file.
#[derive(Drop)]
pub struct Whole {
    /// Its bytes.
    pub bytes: Result<Vec<u8>, WholeFault>,
    /// The opening, length or read that failed: there is one exactly with `WholeFault::Failed`.
    pub failed: Option<FailedCall>,
    /// The closing, where it failed, also behind bytes that were read.
    pub closing: Option<FailedCall>,
}

/// Reads the file of a name, and closes it again, whatever comes of it. `NoFile` comes where there is no such file,
/// `Failed` where a call on it failed, `TooLong` where it is longer than `LONGEST_FILE`, and `OutOfMemory` where there
/// is no memory for its opening or its bytes. Its length is asked before memory is taken for these. No file changes,
/// and at most this one is opened.
#[tactic(auto, unfolding(crate::specs::Whole::whole_act))]
pub fn read_file<F: Files>(alloc: Global, name: &str, files: &mut F) -> Whole
    ensures said { IsTrue F.tells → IfSome (said_of result) (λ said.
        whole_act (claimed result) name.now (F.state files.old).files ≡ (said, length (claimed result))) }
    ensures shape { HasShape result }
    ensures bound { IfOk result.bytes (λ v. length v.items ≤ longest_file) }
    ensures files { IsTrue F.tells → (F.state files.new).files ≡ (F.state files.old).files }
    ensures opened { (F.state files.new).opened ≡ (F.state files.old).opened }
    ensures counts { (file : ℕ) → (F.state files.new).faults file
        ≡ raised_by (claims_on result file) ((F.state files.old).faults file) }
    ensures before { (file : ℕ) → file < (F.state files.old).given
        → (F.state files.new).faults file ≡ (F.state files.old).faults file }
    ensures openings { (F.state files.new).open_faults ≡ (if opening_counted F.tells result
        then raised (F.state files.old).open_faults else (F.state files.old).open_faults) }
    ensures failed { IsNew result.failed (F.state files.old) (F.state files.new) }
    ensures closing { IsNew result.closing (F.state files.old) (F.state files.new) }
    ensures ids { (F.state files.old).given ≤ (F.state files.new).given }
    ensures one { (F.state files.new).given ≤ (F.state files.old).given + 1 }
    ensures taken { IfOk result.bytes (λ v. (F.state files.old).given < (F.state files.new).given) }
    ensures cause { WholeCause F.tells name.now result.bytes (F.state files.old) (F.state files.new) }
{
    match files.open_file(alloc, name, OpenMode::Read) {
        Ok(file) => {
            let read = read_open(alloc, file, files);
            let closing = close(file, files);
            opened(file, read, closing)
        }
        Err(fault) => not_opened(fault),
    }
}

/// Closes the file, and answers whether that failed.
pub(crate) fn close<F: Files>(file: FileId, files: &mut F) -> Option<FailedCall>
    requires { IsOpen (F.state files.old) file.0 }
    ensures claim { IsClosing file result }
    ensures fails { Fails file.0 (failure_count result) (F.state files.old) (F.state files.new) }
    ensures files { (F.state files.new).files ≡ (F.state files.old).files }
    ensures closed { (F.state files.new).opened ≡ without (F.state files.old).opened file.0 }
{
    match files.close_file(file) {
        Ok(()) => None,
        Err(Failed) => Some(FailedCall {
            file: Some(file),
            call: FileCall::Closing,
        }),
    }
}

// What came of a file that was opened.
fn opened(file: FileId, read: Result<Vec<u8>, Refusal>, closing: Option<FailedCall>) -> Whole
    ensures bytes { result.bytes ≡ answer_of read }
    ensures failed { result.failed ≡ failure_of file read }
    ensures closing { result.closing ≡ closing }
{
    let on_file = |call| {
        Some(FailedCall {
            file: Some(file),
            call,
        })
    };
    let (bytes, failed) = match read {
        Ok(bytes) => (Ok(bytes), None),
        Err(Refusal::TooLong) => (Err(WholeFault::TooLong), None),
        Err(Refusal::OutOfMemory) => (Err(WholeFault::OutOfMemory), None),
        Err(Refusal::LengthFailed) => (Err(WholeFault::Failed), on_file(FileCall::Length)),
        Err(Refusal::ReadFailed) => (Err(WholeFault::Failed), on_file(FileCall::Read)),
    };
    Whole {
        bytes,
        failed,
        closing,
    }
}

// What came of a file that was not opened.
fn not_opened(fault: OpenFault) -> Whole
    ensures bytes { result.bytes ≡ Err (fault_of_opening fault) }
    ensures failed { result.failed ≡ failed_opening fault }
    ensures closing { result.closing ≡ None }
{
    Whole {
        bytes: Err(fault_of_opening(fault)),
        failed: failed_opening(fault),
        closing: None,
    }
}

/// Why a file is neither read nor written that was not opened.
pub(crate) fn fault_of_opening(fault: OpenFault) -> WholeFault
    ensures { result ≡ fault_of_opening fault }
{
    match fault {
        OpenFault::NoFile => WholeFault::NoFile,
        OpenFault::Failed => WholeFault::Failed,
        OpenFault::OutOfMemory => WholeFault::OutOfMemory,
    }
}

/// The opening, where it failed.
pub(crate) fn failed_opening(fault: OpenFault) -> Option<FailedCall>
    ensures { result ≡ failed_opening fault }
{
    match fault {
        OpenFault::Failed => Some(FailedCall {
            file: None,
            call: FileCall::Opening,
        }),
        OpenFault::NoFile | OpenFault::OutOfMemory => None,
    }
}
