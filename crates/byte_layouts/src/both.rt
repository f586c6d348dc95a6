// A part, and another behind it.
ghost use Rattle.std.specs.Prelude.{◌≡◌, ◌&&◌, true};
ghost use Rattle.byte_layouts.specs.Layout.{◌&◌};
ghost use Rattle.byte_layouts.specs.Parts.{GoesOn, both};

use crate::fault::FieldFault;
use crate::known::Known;
use crate::part::Part;
use crate::pending::Pending;
use std::alloc::Global;

/// A part, and another behind it.
#[derive(Drop)]
pub struct Both<A: Part, B: Part> {
    first: A,
    second: B,
}

// Reads on in a part, and in the one behind it once it is over.
pub fn go_on_both<A: Part, B: Part>(
    alloc: Global,
    known: Known,
    pending: &mut Pending,
    first: &mut A,
    second: &mut B,
) -> Result<(), FieldFault>
    ensures { GoesOn ((A.is_over first.new && B.is_over second.new) ≡ true) result (both (A.rest known first.old) (B.rest known second.old))
        (both (A.rest known first.new) (B.rest known second.new)) pending.old pending.new }
{
    first.go_on(alloc, known, pending)?;
    second.go_on(alloc, known, pending)
}

impl<A: Part, B: Part> Part for Both<A, B> {
    type Output = (A::Output, B::Output);

    ghost Value = { A.Value × B.Value };

    ghost view = { λ x. (A.view x.0, B.view x.1) };

    ghost layout = { λ known. A.layout known & B.layout known };

    ghost rest = { λ known s. both (A.rest known s.first) (B.rest known s.second) };

    ghost is_over = { λ s. A.is_over s.first && B.is_over s.second };

    fn new(alloc: Global) -> Both<A, B> {
        Both {
            first: A::new(alloc),
            second: B::new(alloc),
        }
    }

    fn go_on(
        &mut self,
        alloc: Global,
        known: Known,
        pending: &mut Pending,
    ) -> Result<(), FieldFault> {
        go_on_both(alloc, known, pending, &mut self.first, &mut self.second)
    }

    fn finish(self) -> (A::Output, B::Output) {
        (self.first.finish(), self.second.finish())
    }
}
