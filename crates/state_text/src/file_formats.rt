// How the attached files are read and written.
ghost use Rattle.std.specs.Prelude.{◌≡◌, ◌+◌, ◌<◌, ◌&&◌, ◌++◌, OnOk, IfOk, IsTrue, ℕ, map, nat_lt, nat_le, refl};
ghost use Rattle.std.specs.Str.{is_utf8};
ghost use Rattle.std.specs.String.{string_bytes};
ghost use Rattle.std.specs.Int.{w8, w16, w64};
ghost use Rattle.saved_session.specs.Parts.{FilePart, file_in};
ghost use Rattle.saved_session.specs.Ranges.{kind_at, takes_file_at, is_next_unit, is_read_only_of, is_name_length, is_file_length};
ghost use Rattle.saved_session.specs.Order.{place_of};
ghost use Rattle.byte_layouts.specs.Readers.{Reads, number, tested};
ghost use Rattle.byte_layouts.specs.Layout.{One, Two, Sized, Bytes, reading};
ghost use Rattle.state_text.specs.Rows.{any, place_behind, file_layout};

use crate::watch_formats::put_long;
use byte_layouts::{Cursor, FieldFault, Format, Known, ListFormat, Writes, put_u8, put_u64};
use saved_session::{SavedFile, kind_at, longest_file_of, only_writes};
use std::alloc::{AllocError, Global};
use std::str::from_utf8;
use unit_trait::{Kind, takes_file, units_of};

/// An attached file.
pub struct FileFormat;

/// The least position that the next file can have, and the least unit at that position.
#[derive(Clone, Copy)]
pub struct Place {
    pub position: u8,
    pub unit: u16,
}

// The number behind that of a unit.
fn next_unit(unit: u8) -> u16
    ensures { result ≡ unit + 1 }
{
    u16::from(unit) + 1
}

// From where on the next file can be.
fn place_behind(before: &[SavedFile]) -> Place
    ensures { place_of result.position result.unit ≡ place_behind (map file_in before.now) }
{
    match before.last() {
        Some(last) => Place {
            position: last.position,
            unit: next_unit(last.unit),
        },
        None => Place {
            position: 0,
            unit: 0,
        },
    }
}

// Whether bytes are UTF-8.
#[tactic(auto, using(crate::proofs::NameLemmas::are_utf8, crate::proofs::NameLemmas::not_utf8))]
fn is_utf8(bytes: &[u8]) -> bool
    ensures { result ≡ is_utf8 bytes.now }
{
    match from_utf8(bytes) {
        Ok(_) => true,
        Err(_) => false,
    }
}

// How many bytes a name has.
fn name_length(cursor: &mut Cursor) -> Result<u16, FieldFault>
    ensures { Reads (λ x. x) result cursor.new (tested is_name_length (number w16) cursor.old) }
{
    let place = cursor.place();
    let length = cursor.u16()?;
    if length < 1 || length > 255 {
        return Err(FieldFault::BadField(place));
    }
    Ok(length)
}

// The bytes of a name.
fn name<'a>(cursor: &mut Cursor<'a>) -> Result<&'a [u8], FieldFault>
    ensures read { Reads (λ x. x.now) result cursor.new (reading (Sized Two is_name_length is_utf8) cursor.old) }
    ensures utf8 { IfOk result (λ x. IsTrue (is_utf8 x.now)) }
{
    let length = name_length(cursor)?;
    let place = cursor.place();
    let name = cursor.bytes(usize::from(length))?;
    if !is_utf8(name) {
        return Err(FieldFault::BadField(place));
    }
    Ok(name)
}

// A name of its own.
#[tactic(auto, using(crate::proofs::NameLemmas::is_text))]
fn owned(alloc: Global, name: &[u8]) -> Result<String, AllocError>
    requires { IsTrue (is_utf8 name.now) }
    ensures { IfOk result (λ s. string_bytes s ≡ name.now) }
{
    String::from_str(alloc, from_utf8(name).unwrap())
}

// The position of a unit that can have a file, not before that one.
fn position(cursor: &mut Cursor, least: Place) -> Result<u8, FieldFault>
    ensures { Reads (λ x. x) result cursor.new (tested (takes_file_at (place_of least.position least.unit)) (number w8) cursor.old) }
{
    let place = cursor.place();
    let position = cursor.u8()?;
    if position < least.position || !takes_file(kind_at(position)) {
        return Err(FieldFault::BadField(place));
    }
    Ok(position)
}

// The number of the next unit that has a file.
fn unit(cursor: &mut Cursor, least: Place, position: u8) -> Result<u8, FieldFault>
    ensures { Reads (λ x. x) result cursor.new (tested (is_next_unit (place_of least.position least.unit) position) (number w8) cursor.old) }
{
    let place = cursor.place();
    let unit = cursor.u8()?;
    if unit >= units_of(kind_at(position))
        || (position <= least.position && u16::from(unit) < least.unit)
    {
        return Err(FieldFault::BadField(place));
    }
    Ok(unit)
}

// Whether a file of a kind is only read.
fn read_only(cursor: &mut Cursor, kind: Kind) -> Result<u8, FieldFault>
    ensures { Reads (λ x. x) result cursor.new (tested (is_read_only_of kind) (number w8) cursor.old) }
{
    let place = cursor.place();
    let flag = cursor.u8()?;
    if flag > 1 || (flag == 1 && only_writes(kind)) {
        return Err(FieldFault::BadField(place));
    }
    Ok(flag)
}

// How many bytes a file of a kind has.
fn file_length(cursor: &mut Cursor, kind: Kind) -> Result<u64, FieldFault>
    ensures { Reads (λ x. x) result cursor.new (tested (is_file_length kind) (number w64) cursor.old) }
{
    let place = cursor.place();
    let length = cursor.u64()?;
    if length > longest_file_of(kind) {
        return Err(FieldFault::BadField(place));
    }
    Ok(length)
}

// A digest.
fn digest(cursor: &mut Cursor) -> Result<[u8; 32], FieldFault>
    ensures { Reads (λ x. x) result cursor.new (reading (Bytes 32 any) cursor.old) }
{
    let bytes = cursor.bytes(32)?;
    let mut digest = [0; 32];
    digest.copy_from_slice(bytes);
    Ok(digest)
}

impl Format for FileFormat {
    type Item = SavedFile;

    ghost Value = { FilePart };

    ghost view = { file_in };

    ghost layout = { λ known before. file_layout before };

    fn read(
        alloc: Global,
        cursor: &mut Cursor,
        _known: Known,
        before: &[SavedFile],
    ) -> Result<SavedFile, FieldFault> {
        let least = place_behind(before);
        let position = position(cursor, least)?;
        let unit = unit(cursor, least, position)?;
        let kind = kind_at(position);
        let read_only = read_only(cursor, kind)?;
        let name = name(cursor)?;
        let length = file_length(cursor, kind)?;
        let digest = digest(cursor)?;
        Ok(SavedFile {
            position,
            unit,
            read_only,
            name: owned(alloc, name)?,
            length,
            digest,
        })
    }
}

impl Writes for FileFormat {
    fn write(file: &SavedFile, _known: Known, out: &mut Vec<u8>) -> Result<(), AllocError> {
        put_u8(out, file.position)?;
        put_u8(out, file.unit)?;
        put_u8(out, file.read_only)?;
        put_long(out, file.name.as_bytes())?;
        put_u64(out, file.length)?;
        out.extend_from_slice(&file.digest)
    }

    ghost same_text = { λ known before x. refl };

    ghost same_fits = { λ known before x fits. fits };
}

impl ListFormat for FileFormat {
    ghost size = { One };

    ghost few = { λ known. any };

    fn count(cursor: &mut Cursor, _known: Known) -> Result<u32, FieldFault> {
        Ok(u32::from(cursor.u8()?))
    }

    fn write_count(count: usize, out: &mut Vec<u8>) -> Result<(), AllocError> {
        put_u8(out, count as u8)
    }
}
