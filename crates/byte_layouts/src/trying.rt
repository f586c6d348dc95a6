// The next value in what has come of a text.
ghost use Rattle.std.specs.Prelude.{map};
ghost use Rattle.byte_layouts.specs.Layout.{reading};
ghost use Rattle.byte_layouts.specs.Parts.{Finds, Takes};

use crate::fault::FieldFault;
use crate::format::Format;
use crate::known::Known;
use crate::pending::Pending;
use std::alloc::Global;

// The value behind these, and the place behind it.
fn try_next<R: Format>(
    alloc: Global,
    known: Known,
    pending: &Pending,
    before: &[R::Item],
) -> Result<(R::Item, usize), FieldFault>
    ensures { Finds R.view result pending.now (reading (R.layout known (map R.view before.now))) }
{
    let mut cursor = pending.cursor();
    let found = R::read(alloc, &mut cursor, known, before)?;
    Ok((found, cursor.place()))
}

/// Takes the value behind these, where all of it has come.
pub fn take_next<R: Format>(
    alloc: Global,
    known: Known,
    pending: &mut Pending,
    before: &[R::Item],
) -> Result<R::Item, FieldFault>
    ensures { Takes R.view (reading (R.layout known (map R.view before.now))) result pending.old pending.new }
{
    let (found, place) = try_next::<R>(alloc, known, pending, before)?;
    pending.pass_to(place);
    Ok(found)
}
