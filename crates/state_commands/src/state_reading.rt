// A state file is read piece by piece.
ghost use Rattle.std.specs.Prelude.{◌≡◌, ◌≤◌, ◌<◌, ◌+◌, ℕ, [], IsTrue, IfOk, OnOk, None, Err, length, if◌then◌else◌};
ghost use Rattle.fault_counts.specs.Faults.{raised};
ghost use Rattle.file_traits.specs.State.{IsOpen, content, without};
ghost use Rattle.whole_files.specs.Claims.{HasShape, IsNew, WholeCause, claims_on, opening_counted, raised_by};
ghost use Rattle.whole_files.specs.Reading.{Fails, IsClosing, failed_opening, failure_count, fault_of_opening};
ghost use Rattle.whole_files.specs.Whole.{longest_file, whole_act};
ghost use Rattle.state_text.specs.Pieces.{IsFed};
ghost use Rattle.state_commands.specs.StateReading.{WasFed, IsReadFor, IsFedFrom, SaysOfFile, answer_of, failure_of, feeding_failures, read_failures, whole_of};

use file_traits::{Failed, FileCall, FileId, Files, OpenFault, OpenMode};
use state_text::StateReader;
use std::alloc::{AllocError as OutOfMemory, Global};
use whole_files::{FailedCall, LONGEST_FILE, WholeFault};

/// How many bytes are read at once.
const PIECE: usize = 4096;

/// What came of the reading of a state file.
#[derive(Drop)]
pub struct StateRead {
    /// What was fed all of its bytes.
    pub reader: Result<StateReader, WholeFault>,
    /// The opening, length or read that failed: there is one exactly with `WholeFault::Failed`.
    pub failed: Option<FailedCall>,
    /// The closing, where it failed, also behind bytes that were read.
    pub closing: Option<FailedCall>,
}

// Why an open file was not fed to a reader.
#[derive(Clone, Copy)]
pub enum Unread {
    TooLong,
    OutOfMemory,
    LengthFailed,
    ReadFailed,
}

// Feeds the bytes of an open file, of which there are so many.
fn feed_file<F: Files>(
    file: FileId,
    size: u64,
    reader: &mut StateReader,
    files: &mut F,
) -> Result<(), Unread>
    requires open { IsOpen (F.state files.old) file.0 }
    requires known { IsTrue F.tells → size ≡ length (content (F.state files.old) file.0) }
    requires short { size ≤ longest_file }
    requires none { IsFed reader.old [] }
    ensures was { OnOk result (WasFed reader.new) }
    ensures told { IsTrue F.tells → IsFedFrom (content (F.state files.old) file.0) result reader.new }
    ensures fails { Fails file.0 (feeding_failures result) (F.state files.old) (F.state files.new) }
    ensures files { (F.state files.new).files ≡ (F.state files.old).files }
    ensures opened { (F.state files.new).opened ≡ (F.state files.old).opened }
{
    let mut piece = [0; PIECE];
    let mut place = 0;
    while place < size {
        let want = (size - place).min(PIECE as u64) as usize;
        match files.read_at(file, place, &mut piece[..want]) {
            Ok(0) => return Ok(()),
            Ok(count) => {
                match reader.feed(&piece[..count]) {
                    Ok(()) => (),
                    Err(OutOfMemory) => return Err(Unread::OutOfMemory),
                }
                place += count as u64;
            }
            Err(Failed) => return Err(Unread::ReadFailed),
        }
    }
    Ok(())
}

// Feeds an open file to a reader.
fn read_bytes<F: Files>(
    alloc: Global,
    file: FileId,
    size: u64,
    files: &mut F,
) -> Result<StateReader, Unread>
    requires open { IsOpen (F.state files.old) file.0 }
    requires known { IsTrue F.tells → size ≡ length (content (F.state files.old) file.0) }
    requires short { size ≤ longest_file }
    ensures was { IfOk result (λ reader. WasFed reader) }
    ensures read { IsTrue F.tells → IsReadFor (content (F.state files.old) file.0) result }
    ensures fails { Fails file.0 (read_failures result) (F.state files.old) (F.state files.new) }
    ensures files { (F.state files.new).files ≡ (F.state files.old).files }
    ensures opened { (F.state files.new).opened ≡ (F.state files.old).opened }
{
    let mut reader = match StateReader::new(alloc) {
        Ok(reader) => reader,
        Err(OutOfMemory) => return Err(Unread::OutOfMemory),
    };
    match feed_file(file, size, &mut reader, files) {
        Ok(()) => Ok(reader),
        Err(unread) => Err(unread),
    }
}

// Reads an open file. It stays open.
#[tactic(auto, unfolding(whole_files::specs::Whole::longest_file))]
fn read_open<F: Files>(alloc: Global, file: FileId, files: &mut F) -> Result<StateReader, Unread>
    requires { IsOpen (F.state files.old) file.0 }
    ensures was { IfOk result (λ reader. WasFed reader) }
    ensures read { IsTrue F.tells → IsReadFor (content (F.state files.old) file.0) result }
    ensures fails { Fails file.0 (read_failures result) (F.state files.old) (F.state files.new) }
    ensures files { (F.state files.new).files ≡ (F.state files.old).files }
    ensures opened { (F.state files.new).opened ≡ (F.state files.old).opened }
{
    match files.length(file) {
        Ok(length) if length > LONGEST_FILE => Err(Unread::TooLong),
        Ok(length) => read_bytes(alloc, file, length, files),
        Err(Failed) => Err(Unread::LengthFailed),
    }
}

// Closes the file, and answers whether that failed.
fn close<F: Files>(file: FileId, files: &mut F) -> Option<FailedCall>
    requires { IsOpen (F.state files.old) file.0 }
    ensures claim { IsClosing file result }
    ensures fails { Fails file.0 (failure_count result) (F.state files.old) (F.state files.new) }
    ensures files { (F.state files.new).files ≡ (F.state files.old).files }
    ensures closed { (F.state files.new).opened ≡ without (F.state files.old).opened file.0 }
{
    match files.close_file(file) {
        Ok(()) => None,
        Err(Failed) => Some(FailedCall {
            file: Some(file),
            call: FileCall::Closing,
        }),
    }
}

// What came of a file that was opened.
fn opened(file: FileId, read: Result<StateReader, Unread>, closing: Option<FailedCall>) -> StateRead
    ensures reader { result.reader ≡ answer_of read }
    ensures failed { result.failed ≡ failure_of file read }
    ensures closing { result.closing ≡ closing }
{
    let on_file = |call| {
        Some(FailedCall {
            file: Some(file),
            call,
        })
    };
    let (reader, failed) = match read {
        Ok(reader) => (Ok(reader), None),
        Err(Unread::TooLong) => (Err(WholeFault::TooLong), None),
        Err(Unread::OutOfMemory) => (Err(WholeFault::OutOfMemory), None),
        Err(Unread::LengthFailed) => (Err(WholeFault::Failed), on_file(FileCall::Length)),
        Err(Unread::ReadFailed) => (Err(WholeFault::Failed), on_file(FileCall::Read)),
    };
    StateRead {
        reader,
        failed,
        closing,
    }
}

// What came of a file that was not opened.
fn not_opened(fault: OpenFault) -> StateRead
    ensures reader { result.reader ≡ Err (fault_of_opening fault) }
    ensures failed { result.failed ≡ failed_opening fault }
    ensures closing { result.closing ≡ None }
{
    let (fault, failed) = match fault {
        OpenFault::NoFile => (WholeFault::NoFile, None),
        OpenFault::OutOfMemory => (WholeFault::OutOfMemory, None),
        OpenFault::Failed => (
            WholeFault::Failed,
            Some(FailedCall {
                file: None,
                call: FileCall::Opening,
            }),
        ),
    };
    StateRead {
        reader: Err(fault),
        failed,
        closing: None,
    }
}

/// Reads the state file of a name piece by piece, and closes it again, whatever comes of it. All is as `read_file` has
/// it, but that its bytes are fed to a reader in place of being kept.
#[tactic(auto, unfolding(whole_files::specs::Whole::whole_act))]
pub fn read_state_file<F: Files>(alloc: Global, name: &str, files: &mut F) -> StateRead
    ensures was { IfOk result.reader (λ reader. WasFed reader) }
    ensures said { IsTrue F.tells → SaysOfFile name.now (F.state files.old).files result }
    ensures shape { HasShape (whole_of result) }
    ensures files { IsTrue F.tells → (F.state files.new).files ≡ (F.state files.old).files }
    ensures opened { (F.state files.new).opened ≡ (F.state files.old).opened }
    ensures counts { (file : ℕ) → (F.state files.new).faults file
        ≡ raised_by (claims_on (whole_of result) file) ((F.state files.old).faults file) }
    ensures openings { (F.state files.new).open_faults ≡ (if opening_counted F.tells (whole_of result)
        then raised (F.state files.old).open_faults else (F.state files.old).open_faults) }
    ensures failed { IsNew result.failed (F.state files.old) (F.state files.new) }
    ensures closing { IsNew result.closing (F.state files.old) (F.state files.new) }
    ensures ids { (F.state files.old).given ≤ (F.state files.new).given }
    ensures one { (F.state files.new).given ≤ (F.state files.old).given + 1 }
    ensures taken { IfOk result.reader (λ reader. (F.state files.old).given < (F.state files.new).given) }
    ensures cause { WholeCause F.tells name.now (whole_of result).bytes (F.state files.old) (F.state files.new) }
{
    match files.open_file(alloc, name, OpenMode::Read) {
        Ok(file) => {
            let read = read_open(alloc, file, files);
            let closing = close(file, files);
            opened(file, read, closing)
        }
        Err(fault) => not_opened(fault),
    }
}
