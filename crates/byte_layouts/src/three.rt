// Three parts, one behind another.
ghost use Rattle.std.specs.Prelude.{◌≡◌, ◌&&◌};
ghost use Rattle.byte_layouts.specs.Layout.{◌&◌};
ghost use Rattle.byte_layouts.specs.Parts.{GoesOn, both};

use crate::both::go_on_both;
use crate::fault::FieldFault;
use crate::known::Known;
use crate::part::Part;
use crate::pending::Pending;
use std::alloc::Global;

/// Three parts, one behind another.
#[derive(Drop)]
pub struct Three<A: Part, B: Part, C: Part> {
    first: A,
    second: B,
    third: C,
}

impl<A: Part, B: Part, C: Part> Part for Three<A, B, C> {
    type Output = (A::Output, (B::Output, C::Output));

    ghost Value = { A.Value × (B.Value × C.Value) };

    ghost view = { λ x. (A.view x.0, (B.view x.1.0, C.view x.1.1)) };

    ghost layout = { λ known. A.layout known & (B.layout known & C.layout known) };

    ghost rest = { λ known s. both (A.rest known s.first) (both (B.rest known s.second) (C.rest known s.third)) };

    ghost is_over = { λ s. A.is_over s.first && (B.is_over s.second && C.is_over s.third) };

    fn new(alloc: Global) -> Three<A, B, C> {
        Three {
            first: A::new(alloc),
            second: B::new(alloc),
            third: C::new(alloc),
        }
    }

    fn go_on(
        &mut self,
        alloc: Global,
        known: Known,
        pending: &mut Pending,
    ) -> Result<(), FieldFault> {
        self.first.go_on(alloc, known, pending)?;
        go_on_both(alloc, known, pending, &mut self.second, &mut self.third)
    }

    fn finish(self) -> (A::Output, (B::Output, C::Output)) {
        (
            self.first.finish(),
            (self.second.finish(), self.third.finish()),
        )
    }
}
