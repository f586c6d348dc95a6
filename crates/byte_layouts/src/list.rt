// A part that is a list behind the number of its elements.
ghost use Rattle.std.specs.Prelude.{◌≡◌, ◌<◌, ◌++◌, OnOk, ℕ, Bool, ◌&&◌, ◌==◌, List, [], map};
ghost use Rattle.byte_layouts.specs.declared.known.Known.{Known};
ghost use Rattle.byte_layouts.specs.Readers.{At, Reader, Reads, number, tested, chain, with_last};
ghost use Rattle.byte_layouts.specs.Layout.{Layout, Size, width, limit, Listed, Number, number_text, texts, text, reading, Follow, Fits};
ghost use Rattle.byte_layouts.specs.Parts.{GoesOn, rest_of_elements, rest_of_list};

use crate::cursor::Cursor;
use crate::fault::FieldFault;
use crate::format::{Format, Plain, Writes};
use crate::known::Known;
use crate::part::Part;
use crate::pending::Pending;
use crate::trying::take_next;
use std::alloc::{AllocError, Global};
use std::marker::PhantomData;

/// How lists of values of one kind are read, each behind the number of its elements.
pub trait ListFormat: Format {
    /// How many bytes the number has.
    ghost size: { Size };

    /// Which numbers it can be.
    ghost few: { Known → ℕ → Bool };

    /// Reads the number of elements.
    fn count(cursor: &mut Cursor, known: Known) -> Result<u32, FieldFault>
        ensures count { Reads (λ n. n) result cursor.new (tested (few known) (number (width size)) cursor.old) };

    /// Writes it.
    fn write_count(count: usize, out: &mut Vec<u8>) -> Result<(), AllocError>
        requires few { count < limit size }
        ensures counted { OnOk result (out.new.items ≡ out.old.items ++ number_text (width size) count) };
}

/// The elements that were read, and how many are left, where their number was read.
#[derive(Drop)]
pub struct Elements<R: ListFormat> {
    items: Vec<R::Item>,
    counted: bool,
    left: u32,
}

// The number of the elements of a list.
struct CountOf<R: ListFormat>(PhantomData<R>);

impl<R: ListFormat> Format for CountOf<R> {
    type Item = u32;

    ghost Value = { ℕ };

    ghost view = { λ n. n };

    ghost layout = { λ known before. Number R.size (R.few known) };

    fn read(
        _alloc: Global,
        cursor: &mut Cursor,
        known: Known,
        _before: &[u32],
    ) -> Result<u32, FieldFault> {
        R::count(cursor, known)
    }
}

// Takes so many elements behind these.
pub fn take_elements<R: Format>(
    alloc: Global,
    known: Known,
    pending: &mut Pending,
    items: &mut Vec<R::Item>,
    left: &mut u32,
) -> Result<(), FieldFault>
    ensures { GoesOn (left.new ≡ 0) result (rest_of_elements (λ front. reading (R.layout known front)) left.old (map R.view items.old.items))
        (rest_of_elements (λ front. reading (R.layout known front)) left.new (map R.view items.new.items)) pending.old pending.new }
{
    while *left > 0 {
        let item = take_next::<R>(alloc, known, pending, items)?;
        items.push(item)?;
        *left -= 1;
    }
    Ok(())
}

impl<R: ListFormat> Part for Elements<R> {
    type Output = Vec<R::Item>;

    ghost Value = { List R.Value };

    ghost view = { λ v. map R.view v.items };

    ghost layout = { λ known. Listed R.size (R.few known) (R.layout known) };

    ghost rest = { λ known s. rest_of_list (reading (Number R.size (R.few known))) (λ front. reading (R.layout known front)) s.counted s.left (map R.view s.items.items) };

    ghost is_over = { λ s. s.counted && s.left == 0 };

    fn new(alloc: Global) -> Elements<R> {
        Elements {
            items: Vec::new(alloc),
            counted: false,
            left: 0,
        }
    }

    fn go_on(
        &mut self,
        alloc: Global,
        known: Known,
        pending: &mut Pending,
    ) -> Result<(), FieldFault> {
        if !self.counted {
            self.left = take_next::<CountOf<R>>(alloc, known, pending, &[])?;
            self.counted = true;
        }
        take_elements::<R>(alloc, known, pending, &mut self.items, &mut self.left)
    }

    fn finish(self) -> Vec<R::Item> {
        self.items
    }
}

// So many elements, one behind the other.
pub fn read_elements<R: Format>(
    alloc: Global,
    cursor: &mut Cursor,
    known: Known,
    count: u32,
) -> Result<Vec<R::Item>, FieldFault>
    ensures { Reads (λ v. map R.view v.items) result cursor.new (chain (λ front. reading (R.layout known front)) with_last count [] cursor.old) }
{
    let mut items = Vec::new(alloc);
    for _i in 0..count {
        let item = R::read(alloc, cursor, known, &items)?;
        items.push(item)?;
    }
    Ok(items)
}

/// Writes values one behind the other.
pub fn write_elements<R: Writes>(
    items: &[R::Item],
    known: Known,
    out: &mut Vec<u8>,
) -> Result<(), AllocError>
    requires { Follow (λ front. Fits (R.layout known front)) with_last [] (map R.view items.now) }
    ensures { OnOk result (out.new.items ≡ out.old.items ++ texts (λ front. text (R.layout known front)) with_last [] (map R.view items.now)) }
{
    for item in items {
        R::write(item, known, out)?;
    }
    Ok(())
}

/// Writes values that can always be written, one behind the other.
pub fn write_plain<R: Plain>(
    items: &[R::Item],
    known: Known,
    out: &mut Vec<u8>,
) -> Result<(), AllocError>
    ensures { OnOk result (out.new.items ≡ out.old.items ++ texts (λ front. text (R.layout known front)) with_last [] (map R.view items.now)) }
{
    write_elements::<R>(items, known, out)
}

/// Writes a list behind the number of its elements.
pub fn write_list<R: ListFormat + Writes>(
    items: &[R::Item],
    known: Known,
    out: &mut Vec<u8>,
) -> Result<(), AllocError>
    requires { Fits (Listed R.size (R.few known) (R.layout known)) (map R.view items.now) }
    ensures { OnOk result (out.new.items ≡ out.old.items ++ text (Listed R.size (R.few known) (R.layout known)) (map R.view items.now)) }
{
    R::write_count(items.len(), out)?;
    write_elements::<R>(items, known, out)
}
