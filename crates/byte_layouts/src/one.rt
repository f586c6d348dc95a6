// A part that is one value.
ghost use Rattle.std.specs.Prelude.{◌≡◌, List, []};
ghost use Rattle.std.specs.Option.{is_some};
ghost use Rattle.byte_layouts.specs.Readers.{At, Reader, gives};
ghost use Rattle.byte_layouts.specs.Layout.{Layout, reading};
ghost use Rattle.byte_layouts.specs.Parts.{GoesOn, rest_of_one};

use crate::fault::FieldFault;
use crate::format::Format;
use crate::known::Known;
use crate::part::Part;
use crate::pending::Pending;
use crate::trying::take_next;
use std::alloc::Global;

/// One value, where it was read.
#[derive(Drop)]
pub struct One<R: Format> {
    item: Option<R::Item>,
}

impl<R: Format> Part for One<R> {
    type Output = R::Item;

    ghost Value = { R.Value };

    ghost view = { R.view };

    ghost layout = { λ known. R.layout known [] };

    ghost rest = { λ known s. rest_of_one R.view (reading (R.layout known [])) s.item };

    ghost is_over = { λ s. is_some s.item };

    fn new(_alloc: Global) -> One<R> {
        One { item: None }
    }

    fn go_on(
        &mut self,
        alloc: Global,
        known: Known,
        pending: &mut Pending,
    ) -> Result<(), FieldFault> {
        if self.item.is_none() {
            self.item = Some(take_next::<R>(alloc, known, pending, &[])?);
        }
        Ok(())
    }

    fn finish(self) -> R::Item {
        self.item.unwrap()
    }
}
