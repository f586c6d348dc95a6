// A text that is read as it comes.
ghost use Rattle.std.specs.Prelude.{◌≡◌, ◌≤◌, ◌++◌, ℕ, List, [], Ok, Err, IfOk, IsErr, OnErr, OnOk, length, true, IsTrue};
ghost use Rattle.byte_layouts.specs.declared.fault.FieldFault.TheVariants as faults;
ghost use Rattle.byte_layouts.specs.Nothing.{nothing};
ghost use Rattle.byte_layouts.specs.Layout.{reading};
ghost use Rattle.byte_layouts.specs.Readers.{Gives};
ghost use Rattle.byte_layouts.specs.Whole.{whole};
ghost use Rattle.byte_layouts.specs.Fed.{is_over_at, IsFed, IsSettled, IsWanted, Told};

use crate::fault::FieldFault;
use crate::known::Known;
use crate::part::Part;
use crate::pending::Pending;
use crate::stage::Stage;
use std::alloc::{AllocError, Global};

/// Reads a text that comes in pieces. It keeps what the text says so far, and of its bytes only those that came and are
/// not read yet.
#[derive(Drop)]
pub struct Reading<P: Part> {
    alloc: Global,
    pending: Pending,
    part: P,
    stage: Stage,
    kept: usize,
    ghost over: { IsTrue (is_over_at stage (P.is_over part)) },
}

/// Which bytes were fed.
pub trait Fed {
    ghost IsFed: { Self → List ℕ → Type 0 };
}

impl<P: Part> Fed for Reading<P> {
    ghost IsFed = { λ r fed. IsFed r.stage (reading (P.layout nothing)) (P.rest nothing r.part) r.kept r.pending fed };
}

impl<P: Part> Reading<P> {
    /// No byte has come. Behind the end so many bytes are kept.
    pub fn new(alloc: Global, kept: usize) -> Result<Reading<P>, AllocError>
        ensures fed { IfOk result (λ r. IsFed r.stage (reading (P.layout nothing)) (P.rest nothing r.part) r.kept r.pending []) }
        ensures kept { IfOk result (λ r. r.kept ≡ kept) }
    {
        let pending = Pending::new(alloc)?;
        Ok(Reading {
            alloc,
            pending,
            part: P::new(alloc),
            stage: Stage::Open,
            kept,
        })
    }

    // Reads all that is there.
    fn settle(&mut self) -> Result<(), AllocError>
        ensures fed { OnOk result ((fed : List ℕ) → IsFed self.old.stage (reading (P.layout nothing)) (P.rest nothing self.old.part) self.old.kept self.old.pending fed
            → IsFed self.new.stage (reading (P.layout nothing)) (P.rest nothing self.new.part) self.new.kept self.new.pending fed) }
        ensures settled { OnOk result (IsSettled self.new.stage (P.rest nothing self.new.part) self.new.pending) }
        ensures kept { self.new.kept ≡ self.old.kept }
    {
        match self.stage {
            Stage::Open => match self
                .part
                .go_on(self.alloc, Known::nothing(), &mut self.pending)
            {
                Ok(()) => {
                    self.stage = Stage::AtEnd;
                    Ok(())
                }
                Err(FieldFault::Truncated) => Ok(()),
                Err(FieldFault::NotHead) => {
                    self.stage = Stage::Faulty(FieldFault::NotHead);
                    Ok(())
                }
                Err(FieldFault::Version(n)) => {
                    self.stage = Stage::Faulty(FieldFault::Version(n));
                    Ok(())
                }
                Err(FieldFault::BadField(place)) => {
                    self.stage = Stage::Faulty(FieldFault::BadField(place));
                    Ok(())
                }
                Err(FieldFault::OutOfMemory) => Err(AllocError),
            },
            _ => Ok(()),
        }
    }

    // How many bytes of a piece of so many are kept.
    fn wanted(&self, size: usize) -> usize
        ensures few { result ≤ size }
        ensures wanted { IsWanted self.now.stage self.now.kept self.now.pending.rest size result }
    {
        match self.stage {
            Stage::Open => size,
            Stage::AtEnd => size.min(self.kept.saturating_sub(self.pending.len())),
            Stage::Faulty(_) => 0,
        }
    }

    /// Takes the next piece, which comes behind those that were fed before. The error is want of memory alone: nothing
    /// is known of the reading then.
    pub fn feed(&mut self, piece: &[u8]) -> Result<(), AllocError>
        ensures fed { OnOk result ((fed : List ℕ) → IsFed self.old.stage (reading (P.layout nothing)) (P.rest nothing self.old.part) self.old.kept self.old.pending fed
            → IsFed self.new.stage (reading (P.layout nothing)) (P.rest nothing self.new.part) self.new.kept self.new.pending (fed ++ piece.now)) }
        ensures kept { self.new.kept ≡ self.old.kept }
    {
        let count = self.wanted(piece.len());
        self.pending.take_in(&piece[..count])?;
        self.settle()
    }

    /// What all pieces say, one behind the other, and the bytes behind that.
    pub fn finish(mut self) -> Result<(P::Output, Pending), FieldFault>
        ensures { (fed : List ℕ) → IsFed self.stage (reading (P.layout nothing)) (P.rest nothing self.part) self.kept self.pending fed
            → Told P.view (reading (P.layout nothing)) result self.kept fed }
    {
        self.settle()?;
        match self.stage {
            Stage::AtEnd => Ok((self.part.finish(), self.pending)),
            Stage::Open => Err(FieldFault::Truncated),
            Stage::Faulty(fault) => Err(fault),
        }
    }

    /// What all pieces say, one behind the other, where nothing is behind it.
    pub fn finish_whole(self) -> Result<P::Output, FieldFault>
        requires { self.kept ≡ 1 }
        ensures { (fed : List ℕ) → IsFed self.stage (reading (P.layout nothing)) (P.rest nothing self.part) self.kept self.pending fed
            → Gives P.view result (whole (P.layout nothing) fed) }
    {
        let (read, pending) = self.finish()?;
        if pending.len() != 0 {
            return Err(FieldFault::BadField(pending.place()));
        }
        Ok(read)
    }
}

/// Reads a whole text. The error is its first fault from the left, or want of memory.
pub fn read_whole<P: Part>(alloc: Global, bytes: &[u8]) -> Result<P::Output, FieldFault>
    ensures { Gives P.view result (whole (P.layout nothing) bytes.now) }
{
    let mut reading = Reading::<P>::new(alloc, 1)?;
    reading.feed(bytes)?;
    reading.finish_whole()
}
