// A part that is a value and the values behind it, as many as it tells.
ghost use Rattle.std.specs.Prelude.{◌≡◌, ◌&&◌, ◌==◌, ℕ, List, [], map};
ghost use Rattle.std.specs.Option.{is_some};
ghost use Rattle.byte_layouts.specs.declared.known.Known.{Known};
ghost use Rattle.byte_layouts.specs.Readers.{Reads};
ghost use Rattle.byte_layouts.specs.Layout.{Layout, Many, Then, reading};
ghost use Rattle.byte_layouts.specs.Parts.{GoesOn, rest_of_measured};

use crate::cursor::Cursor;
use crate::fault::FieldFault;
use crate::format::Format;
use crate::known::Known;
use crate::list::take_elements;
use crate::part::Part;
use crate::pending::Pending;
use crate::trying::take_next;
use std::alloc::Global;
use std::marker::PhantomData;

/// How values of one kind are read that tell how many others stand behind them.
pub trait Measure {
    type Item: Drop;

    /// A value without where it lies in memory.
    ghost Value: { Type 0 };

    ghost view: { Self.Item → Value };

    ghost layout: { Known → Layout Value };

    ghost count: { Value → ℕ };

    /// Reads a value.
    fn read(alloc: Global, cursor: &mut Cursor, known: Known) -> Result<Self::Item, FieldFault>
        ensures read { Reads view result cursor.new (reading (layout known) cursor.old) };

    /// How many others stand behind it.
    fn count(item: &Self::Item) -> u32
        ensures counted { result ≡ count (view item.now) };
}

// The value by itself.
struct HeadOf<M: Measure>(PhantomData<M>);

impl<M: Measure> Format for HeadOf<M> {
    type Item = M::Item;

    ghost Value = { M.Value };

    ghost view = { M.view };

    ghost layout = { λ known before. M.layout known };

    fn read(
        alloc: Global,
        cursor: &mut Cursor,
        known: Known,
        _before: &[M::Item],
    ) -> Result<M::Item, FieldFault> {
        M::read(alloc, cursor, known)
    }
}

/// The value, where it was read, and those behind it that were read, and how many are left.
#[derive(Drop)]
pub struct Measured<M: Measure, R: Format> {
    head: Option<M::Item>,
    items: Vec<R::Item>,
    left: u32,
}

impl<M: Measure, R: Format> Part for Measured<M, R> {
    type Output = (M::Item, Vec<R::Item>);

    ghost Value = { M.Value × List R.Value };

    ghost view = { λ x. (M.view x.0, map R.view x.1.items) };

    ghost layout = { λ known. Then (M.layout known) (λ x. Many (M.count x) (R.layout known)) };

    ghost rest = { λ known s. rest_of_measured M.view M.count (reading (M.layout known)) (λ front. reading (R.layout known front)) s.head s.left (map R.view s.items.items) };

    ghost is_over = { λ s. is_some s.head && s.left == 0 };

    fn new(alloc: Global) -> Measured<M, R> {
        Measured {
            head: None,
            items: Vec::new(alloc),
            left: 0,
        }
    }

    fn go_on(
        &mut self,
        alloc: Global,
        known: Known,
        pending: &mut Pending,
    ) -> Result<(), FieldFault> {
        if self.head.is_none() {
            let head = take_next::<HeadOf<M>>(alloc, known, pending, &[])?;
            self.left = M::count(&head);
            self.head = Some(head);
        }
        take_elements::<R>(alloc, known, pending, &mut self.items, &mut self.left)
    }

    fn finish(self) -> (M::Item, Vec<R::Item>) {
        (self.head.unwrap(), self.items)
    }
}
