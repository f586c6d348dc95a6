ghost use Rattle.std.specs.Prelude.{◌≡◌, ◌≢◌, ◌+◌, ◌<◌, ◌≤◌, ℕ, IsTrue, IfSome, Err, length, if◌then◌else◌};
ghost use Rattle.fault_counts.specs.Faults.{raised};
ghost use Rattle.whole_files.specs.Claims.{raised_by, IsNew};
ghost use Rattle.whole_files.specs.Writing.{write_act, said_of_writing, claimed_in_writing, HasWriteShape, WasNotOpened};
ghost use Rattle.whole_files.specs.Writing.{write_claims_on, unmade_counted};
ghost use Rattle.whole_files.specs.Writing.{written_of, unmade_of};
ghost use Rattle.whole_files.specs.declared.whole.WholeFault.TheVariants as faults;

use crate::whole::{FailedCall, WholeFault, close, failed_opening, fault_of_opening};
use file_traits::{FileCall, FileId, Files, OpenFault, OpenMode, WriteFault};
use std::alloc::Global;

/// What came of writing a file.
#[derive(Clone, Copy, Debug, PartialEq, Eq)]
pub struct Written {
    /// Whether all was written: `NoFile`, `Failed` or `OutOfMemory` where it was not.
    pub answer: Result<(), WholeFault>,
    /// The opening or write that failed: there is one exactly with `WholeFault::Failed`.
    pub failed: Option<FailedCall>,
    /// How many bytes the write that failed had written, else 0.
    pub done: u64,
    /// The closing, where it failed, also behind bytes that were written.
    pub closing: Option<FailedCall>,
}

/// Makes the file of a name, or empties it where there is one, writes these bytes in one call, and closes it again,
/// whatever comes of it. `Failed` comes where its opening or the write failed: behind a write the file has the first
/// `done` bytes and no others. `OutOfMemory` comes where there is no memory for its opening, and `NoFile` where it
/// can't be made; no file changes then. At most this one is opened.
#[tactic(auto, unfolding(crate::specs::Writing::write_act))]
pub fn write_file<F: Files>(alloc: Global, name: &str, bytes: &[u8], files: &mut F) -> Written
    ensures said { IsTrue F.tells → IfSome (said_of_writing result.answer) (λ said.
        write_act (claimed_in_writing result) name.now bytes.now (F.state files.old).files
        ≡ record { said = said; met = length (claimed_in_writing result); files = (F.state files.new).files }) }
    ensures made { IsTrue F.tells → result.answer ≢ Err faults.NoFile }
    ensures unmade { WasNotOpened result.answer → (F.state files.new).files ≡ (F.state files.old).files }
    ensures shape { HasWriteShape bytes.now result }
    ensures opened { (F.state files.new).opened ≡ (F.state files.old).opened }
    ensures counts { (file : ℕ) → (F.state files.new).faults file
        ≡ raised_by (write_claims_on result file) ((F.state files.old).faults file) }
    ensures before { (file : ℕ) → file < (F.state files.old).given
        → (F.state files.new).faults file ≡ (F.state files.old).faults file }
    ensures openings { (F.state files.new).open_faults ≡ (if unmade_counted F.tells result
        then raised (F.state files.old).open_faults else (F.state files.old).open_faults) }
    ensures failed { IsNew result.failed (F.state files.old) (F.state files.new) }
    ensures closing { IsNew result.closing (F.state files.old) (F.state files.new) }
    ensures ids { (F.state files.old).given ≤ (F.state files.new).given }
    ensures one { (F.state files.new).given ≤ (F.state files.old).given + 1 }
{
    match files.open_file(alloc, name, OpenMode::Create) {
        Ok(file) => {
            let write = files.write_at(file, 0, bytes);
            let closing = close(file, files);
            was_made(file, write, closing)
        }
        Err(fault) => not_made(fault),
    }
}

// What came of a file that was made.
fn was_made(file: FileId, write: Result<(), WriteFault>, closing: Option<FailedCall>) -> Written
    ensures { result ≡ written_of file write closing }
{
    match write {
        Ok(()) => Written {
            answer: Ok(()),
            failed: None,
            done: 0,
            closing,
        },
        Err(WriteFault { done }) => Written {
            answer: Err(WholeFault::Failed),
            failed: Some(FailedCall {
                file: Some(file),
                call: FileCall::Write,
            }),
            done: done as u64,
            closing,
        },
    }
}

// What came of a file that was not made.
fn not_made(fault: OpenFault) -> Written
    ensures { result ≡ unmade_of fault }
{
    Written {
        answer: Err(fault_of_opening(fault)),
        failed: failed_opening(fault),
        done: 0,
        closing: None,
    }
}
