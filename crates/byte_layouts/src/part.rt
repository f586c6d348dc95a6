// The parts of a text that comes in pieces.
ghost use Rattle.std.specs.Prelude.{◌≡◌, ℕ, Bool, true, List, [], Ok};
ghost use Rattle.byte_layouts.specs.declared.known.Known.{Known};
ghost use Rattle.byte_layouts.specs.Readers.{At, Reader};
ghost use Rattle.byte_layouts.specs.Layout.{Layout, reading};
ghost use Rattle.byte_layouts.specs.Parts.{GoesOn};

use crate::fault::FieldFault;
use crate::known::Known;
use crate::pending::Pending;
use std::alloc::Global;

/// A part of a text, as far as it was read.
pub trait Part: Drop {
    /// All of it, where it was read.
    type Output: Drop;

    ghost Value: { Type 0 };

    ghost view: { Self.Output → Value };

    /// The layout, by what is known of what stands before the part.
    ghost layout: { Known → Layout Value };

    /// What is still read of it.
    ghost rest: { Known → Self → Reader Value };

    /// Whether all of it was read.
    ghost is_over: { Self → Bool };

    /// Nothing was read.
    fn new(alloc: Global) -> Self
        ensures fresh { (known : Known) (at : At) → rest known result at ≡ reading (layout known) at };

    /// Reads on in what has come. It answers `Truncated` where bytes are wanting.
    fn go_on(
        &mut self,
        alloc: Global,
        known: Known,
        pending: &mut Pending,
    ) -> Result<(), FieldFault>
        ensures goes { GoesOn (is_over self.new ≡ true) result (rest known self.old) (rest known self.new) pending.old pending.new };

    /// What was read.
    fn finish(self) -> Self::Output
        requires over { is_over self ≡ true }
        ensures value { (known : Known) (at : At) → rest known self at ≡ Ok (view result, at) };
}
