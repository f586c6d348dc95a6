// A state file that is read as it comes.
ghost use Rattle.std.specs.Prelude.{◌≡◌, ◌≤◌, ◌++◌, ℕ, List, [], Ok, Err, IfOk, IsErr, OnErr, OnOk, length, true, false};
ghost use Rattle.state_text.specs.declared.fault.StateFault.TheVariants.{OutOfMemory};
ghost use Rattle.saved_session.specs.Parts.{State, state_in};
ghost use Rattle.saved_session.specs.Valid.{Valid, Fits};
ghost use Rattle.sha2.specs.Hashers.{Holds256};
ghost use Rattle.sha2.specs.Sha256.{sha256};
ghost use Rattle.byte_layouts.specs.Readers.{counted};
ghost use Rattle.byte_layouts.specs.Held.{at_in};
ghost use Rattle.state_text.specs.Rows.{state_of};
ghost use Rattle.state_text.specs.Text.{IsTextOf};
ghost use Rattle.state_text.specs.Reading.{then_state, compared, reading};
ghost use Rattle.state_text.specs.Gives.{Gives};
ghost use Rattle.state_text.specs.Pieces.{IsFed, HasFailed};

use crate::behind_units::{BehindUnits, FoundBehind};
use crate::fault::StateFault;
use crate::machine_formats::{CpuFormat, StartFormat, UnitFormat, WordFormat};
use byte_layouts::{Both, ListOf, Measured, Part, Pending, Reading, Telling};
use saved_session::{Saved, SavedCpu, SavedUnit};
use std::alloc::{AllocError, Global};

/// How many bytes are kept behind the last row: the digest, and one that stands behind the end.
const KEPT: usize = 33;

/// What stands behind the version, which is told to all of it.
type Versioned = Both<Measured<CpuFormat, WordFormat>, Telling<ListOf<UnitFormat>, BehindUnits>>;

/// The parts of a state file, in their order.
pub type Parts = Telling<StartFormat, Versioned>;

/// What was read of all parts.
type Found = (u16, ((SavedCpu, Vec<u16>), (Vec<SavedUnit>, FoundBehind)));

/// Reads a state file that comes in pieces. It keeps what the file says so far, and of the file's bytes only those that
/// came and are not read yet: at most the last piece, of 4096 bytes, and 794 bytes before it, since the longest record,
/// the units with their registers, has 795.
#[derive(Drop)]
pub struct StateReader {
    reading: Reading<Parts>,
    failed: bool,
}

impl StateReader {
    /// No byte has come.
    pub fn new(alloc: Global) -> Result<StateReader, AllocError>
        ensures { IfOk result (λ reader. IsFed reader []) }
    {
        let reading = Reading::new(alloc, KEPT)?;
        Ok(StateReader {
            reading,
            failed: false,
        })
    }

    /// Takes a piece of any length, where memory has not run out.
    pub(crate) fn take(&mut self, piece: &[u8]) -> Result<(), AllocError>
        ensures fed { OnOk result ((fed : List ℕ) → IsFed self.old fed → IsFed self.new (fed ++ piece.now)) }
        ensures same { self.new.failed ≡ self.old.failed }
    {
        self.reading.feed(piece)
    }

    /// Takes the next piece, of at most 4096 bytes, which come behind those that were fed before. Of the faults of what
    /// came so far nothing is said before `finish`. The error is want of memory alone: the reading is over then, each
    /// further piece is refused too, and `finish` answers `OutOfMemory`.
    pub fn feed(&mut self, piece: &[u8]) -> Result<(), AllocError>
        requires piece { length piece.now ≤ 4096 }
        // These bytes come behind those that were fed before.
        ensures fed { OnOk result ((fed : List ℕ) → IsFed self.old fed → IsFed self.new (fed ++ piece.now)) }
        // From then on nothing is read, and each further piece is refused.
        ensures wanting { OnErr result (HasFailed self.new) }
        ensures ever { HasFailed self.old → HasFailed self.new }
        ensures refused { HasFailed self.old → IsErr result }
    {
        if self.failed {
            return Err(AllocError);
        }
        match self.take(piece) {
            Ok(()) => Ok(()),
            Err(AllocError) => {
                self.failed = true;
                Err(AllocError)
            }
        }
    }

    // What was read says, or its fault.
    fn told(self) -> Result<Saved, StateFault>
        ensures { (fed : List ℕ) → IsFed self fed → Gives state_in result (reading fed) }
    {
        let (parts, pending) = self.reading.finish()?;
        sealed(pending, joined(parts))
    }

    /// What all pieces say, one behind the other, as `read_state` has it.
    pub fn finish(self) -> Result<Saved, StateFault>
        // What is read is valid, and the bytes are its text, in this version or in the first one.
        ensures found { (fed : List ℕ) → IsFed self fed
            → IfOk result (λ s. Valid (state_in s) × IsTextOf (state_in s) fed) }
        // The texts of what is valid are read, unless memory runs out.
        ensures only { (fed : List ℕ) → IsFed self fed
            → (s : State) → Valid s → IsTextOf s fed → Gives state_in result (Ok s) }
        // What is read can be written again.
        ensures fits { (fed : List ℕ) → IsFed self fed → IfOk result (λ s. Fits (state_in s)) }
        // Other bytes have their one fault.
        ensures exact { (fed : List ℕ) → IsFed self fed → Gives state_in result (reading fed) }
        // Where memory ran out before, nothing is read.
        ensures wanting { HasFailed self → result ≡ Err OutOfMemory }
    {
        if self.failed {
            return Err(StateFault::OutOfMemory);
        }
        self.told()
    }
}

// What was read, as a saved session.
fn joined(parts: Found) -> Saved
    ensures { state_in result ≡ (state_of (⟦<Parts as Part>⟧.view parts)).1 }
{
    let (_version, ((cpu, words), (units, behind))) = parts;
    let (agenda, (files, tables)) = behind;
    let (attachments, ports) = files;
    let ((breaks, expects), (tail, sends)) = tables;
    Saved {
        cpu,
        words,
        units,
        agenda,
        attachments,
        ports,
        breaks,
        expects,
        tail,
        sends,
    }
}

// The digest behind what was read, and nothing behind it.
fn sealed(pending: Pending, saved: Saved) -> Result<Saved, StateFault>
    ensures { (m : List ℕ) → Holds256 pending.hasher m
        → Gives state_in result (then_state (counted 32 (at_in pending)) (compared (state_in saved) (sha256 m))) }
{
    let mut cursor = pending.cursor();
    let mut kept = [0; 32];
    kept.copy_from_slice(cursor.bytes(32)?);
    let place = cursor.place();
    let is_over = cursor.is_at_end();
    let found = pending.digest();
    if kept != found {
        return Err(StateFault::BadDigest { kept, found });
    }
    if !is_over {
        return Err(StateFault::BadField(place));
    }
    Ok(saved)
}
