// A part that is a value, and behind it a part that is told by the value.
ghost use Rattle.std.specs.Prelude.{◌≡◌, ◌&&◌, List, [], length, map};
ghost use Rattle.std.specs.Option.{is_some};
ghost use Rattle.byte_layouts.specs.declared.known.Known.{Known};
ghost use Rattle.byte_layouts.specs.Readers.{Reads};
ghost use Rattle.byte_layouts.specs.Layout.{Layout, Listed, Then, reading};
ghost use Rattle.byte_layouts.specs.Parts.{GoesOn, rest_of_telling};

use crate::cursor::Cursor;
use crate::fault::FieldFault;
use crate::format::Format;
use crate::known::Known;
use crate::list::{ListFormat, read_elements};
use crate::part::Part;
use crate::pending::Pending;
use crate::trying::take_next;
use std::alloc::Global;
use std::marker::PhantomData;

/// How values of one kind are read that tell the part behind them something.
pub trait Tells {
    type Item: Drop;

    /// A value without where it lies in memory.
    ghost Value: { Type 0 };

    ghost view: { Self.Item → Value };

    ghost layout: { Known → Layout Value };

    /// What is known behind a value, by what is known before it.
    ghost tells: { Known → Value → Known };

    /// Reads a value.
    fn read(alloc: Global, cursor: &mut Cursor, known: Known) -> Result<Self::Item, FieldFault>
        ensures read { Reads view result cursor.new (reading (layout known) cursor.old) };

    /// What is known behind it.
    fn tell(known: Known, item: &Self::Item) -> Known
        ensures told { result ≡ tells known (view item.now) };
}

// The value by itself.
struct TellerOf<M: Tells>(PhantomData<M>);

impl<M: Tells> Format for TellerOf<M> {
    type Item = M::Item;

    ghost Value = { M.Value };

    ghost view = { M.view };

    ghost layout = { λ known before. M.layout known };

    fn read(
        alloc: Global,
        cursor: &mut Cursor,
        known: Known,
        _before: &[M::Item],
    ) -> Result<M::Item, FieldFault> {
        M::read(alloc, cursor, known)
    }
}

/// A list that is one value, behind the number of its elements, and tells that number.
pub struct ListOf<R: ListFormat>(PhantomData<R>);

impl<R: ListFormat> Tells for ListOf<R> {
    type Item = Vec<R::Item>;

    ghost Value = { List R.Value };

    ghost view = { λ v. map R.view v.items };

    ghost layout = { λ known. Listed R.size (R.few known) (R.layout known) };

    ghost tells = { λ known xs. record { version = known.version; count = length xs } };

    fn read(alloc: Global, cursor: &mut Cursor, known: Known) -> Result<Vec<R::Item>, FieldFault> {
        let count = R::count(cursor, known)?;
        read_elements::<R>(alloc, cursor, known, count)
    }

    fn tell(known: Known, items: &Vec<R::Item>) -> Known {
        Known {
            version: known.version,
            count: items.len(),
        }
    }
}

/// The value, where it was read, what the part behind it knows then, and that part.
#[derive(Drop)]
pub struct Telling<M: Tells, P: Part> {
    head: Option<M::Item>,
    next: Known,
    behind: P,
}

impl<M: Tells, P: Part> Part for Telling<M, P> {
    type Output = (M::Item, P::Output);

    ghost Value = { M.Value × P.Value };

    ghost view = { λ x. (M.view x.0, P.view x.1) };

    ghost layout = { λ known. Then (M.layout known) (λ x. P.layout (M.tells known x)) };

    ghost rest = { λ known s. rest_of_telling M.view (reading (M.layout known)) (λ x. P.rest (M.tells known x) s.behind) (P.rest s.next s.behind) s.head };

    ghost is_over = { λ s. is_some s.head && P.is_over s.behind };

    fn new(alloc: Global) -> Telling<M, P> {
        Telling {
            head: None,
            next: Known::nothing(),
            behind: P::new(alloc),
        }
    }

    fn go_on(
        &mut self,
        alloc: Global,
        known: Known,
        pending: &mut Pending,
    ) -> Result<(), FieldFault> {
        if self.head.is_none() {
            let head = take_next::<TellerOf<M>>(alloc, known, pending, &[])?;
            self.next = M::tell(known, &head);
            self.head = Some(head);
        }
        self.behind.go_on(alloc, self.next, pending)
    }

    fn finish(self) -> (M::Item, P::Output) {
        (self.head.unwrap(), self.behind.finish())
    }
}
