// How values of one kind are read and written.
ghost use Rattle.std.specs.Prelude.{◌≡◌, ◌++◌, List, [], map, OnOk};
ghost use Rattle.byte_layouts.specs.declared.known.Known.{Known};
ghost use Rattle.byte_layouts.specs.Readers.{Reads};
ghost use Rattle.byte_layouts.specs.Layout.{Layout, text, reading, Fits};

use crate::cursor::Cursor;
use crate::fault::FieldFault;
use crate::known::Known;
use std::alloc::{AllocError, Global};

/// How values of one kind are read and written.
pub trait Format {
    type Item: Drop;

    /// A value without where it lies in memory.
    ghost Value: { Type 0 };

    ghost view: { Self.Item → Value };

    /// The layout of a value behind these, by what is known of what stands before them.
    ghost layout: { Known → List Value → Layout Value };

    /// Reads a value behind these.
    fn read(
        alloc: Global,
        cursor: &mut Cursor,
        known: Known,
        before: &[Self::Item],
    ) -> Result<Self::Item, FieldFault>
        ensures read { Reads view result cursor.new (reading (layout known (map view before.now)) cursor.old) };
}

/// How they are written.
pub trait Writes: Format {
    /// Writes a value behind what was written.
    fn write(item: &Self::Item, known: Known, out: &mut Vec<u8>) -> Result<(), AllocError>
        requires fits { Fits (Self.layout known []) (Self.view item.now) }
        ensures written { OnOk result (out.new.items ≡ out.old.items ++ text (Self.layout known []) (Self.view item.now)) };

    /// How a value is written does not depend on those before it.
    ghost same_text: { (known : Known) (before : List Self.Value) (x : Self.Value) → text (Self.layout known before) x ≡ text (Self.layout known []) x };

    /// Nor whether it can be.
    ghost same_fits: { (known : Known) (before : List Self.Value) (x : Self.Value) → Fits (Self.layout known before) x → Fits (Self.layout known []) x };
}

/// Values with no list of their own, which can always be written.
pub trait Plain: Writes {
    ghost always_fits: { (known : Known) (before : List Self.Value) (x : Self.Value) → Fits (Self.layout known before) x };
}
