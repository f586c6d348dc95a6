ghost use Rattle.std.specs.Prelude.{◌≡◌, ◌<◌, ◌≤◌, ◌+◌, ◌^◌, length, take, drop, IfErr};
ghost use Rattle.file_traits.specs.Lists.{changed};
ghost use Rattle.file_traits.specs.State.{IsOpen, IsWritable, name_at};
ghost use Rattle.file_traits.specs.declared.files.FileCall.TheVariants.{Write};
ghost use Rattle.unit_files.specs.Acts.{failure_at, piece_of};
ghost use Rattle.unit_files.specs.Pages.{disk_pages, page_bytes};
ghost use Rattle.unit_files.specs.InStep.{written_pages};
ghost use Rattle.unit_files.specs.View.{IsCopy};
ghost use Rattle.unit_files.specs.Shapes.{EndsWithin, WriteCause, failure_of_writing, page_left};

use crate::disk_copy::{DiskCopy, PAGE_BYTES};
use crate::faults::UnitFault;
use file_traits::{FileCall, FileId, Files};
use unit_trait::UnitName;

/// Writes the marked pages of a copy over the open file of a unit, one behind another.
pub(crate) fn write_copy<F: Files>(
    unit: UnitName,
    file: FileId,
    copy: &DiskCopy,
    files: &mut F,
) -> Result<(), UnitFault>
    requires open { IsOpen (F.state files.old) file.0 }
    requires writable { IsWritable (F.state files.old) file.0 }
    requires copy { IsCopy copy.now }
    ensures files { (F.state files.new).files ≡ changed (F.state files.old).files
        (name_at (F.state files.old).opened file.0) (written_pages copy.now.marks.items 0
        (piece_of (failure_at Write (failure_of_writing result)) copy.now.bytes.items)) }
    ensures opened { (F.state files.new).opened ≡ (F.state files.old).opened }
    ensures part { IfErr result (λ f. f.done ≤ length copy.now.bytes.items) }
    ensures cause { WriteCause result unit file (F.state files.old) (F.state files.new) }
{
    let bytes = copy.bytes.as_slice();
    write_pages(unit, file, bytes, copy.marks.as_slice(), files)
}

// The same of its bytes and its marks.
fn write_pages<F: Files>(
    unit: UnitName,
    file: FileId,
    bytes: &[u8],
    marks: &[bool],
    files: &mut F,
) -> Result<(), UnitFault>
    requires open { IsOpen (F.state files.old) file.0 }
    requires writable { IsWritable (F.state files.old) file.0 }
    requires pages { length marks.now ≡ disk_pages }
    ensures files { (F.state files.new).files ≡ changed (F.state files.old).files
        (name_at (F.state files.old).opened file.0) (written_pages marks.now 0
        (piece_of (failure_at Write (failure_of_writing result)) bytes.now)) }
    ensures opened { (F.state files.new).opened ≡ (F.state files.old).opened }
    ensures part { IfErr result (λ f. f.done ≤ length bytes.now) }
    ensures cause { WriteCause result unit file (F.state files.old) (F.state files.new) }
{
    for page in 0..marks.len() {
        let place = page * PAGE_BYTES;
        let piece = page_at(bytes, place);
        match write_page(unit, file, place, marks[page], piece, files) {
            Ok(()) => {}
            Err(fault) => return Err(fault),
        }
    }
    Ok(())
}

// The page of a copy at a place, as far as the copy has bytes there.
#[tactic(auto, unfolding(crate::specs::Pages::page_bytes))]
fn page_at(bytes: &[u8], place: usize) -> &[u8]
    ensures { result.now ≡ take page_bytes (drop place bytes.now) }
{
    let rest = &bytes[place.min(bytes.len())..];
    &rest[..rest.len().min(PAGE_BYTES)]
}

// Writes the bytes of a page over the open file of a unit, at its place, where it is marked and has any. A fault says
// how far the file is written.
fn write_page<F: Files>(
    unit: UnitName,
    file: FileId,
    place: usize,
    marked: bool,
    bytes: &[u8],
    files: &mut F,
) -> Result<(), UnitFault>
    requires open { IsOpen (F.state files.old) file.0 }
    requires writable { IsWritable (F.state files.old) file.0 }
    requires within { place + length bytes.now < 2 ^ 64 }
    ensures files { (F.state files.new).files ≡ changed (F.state files.old).files
        (name_at (F.state files.old).opened file.0) (page_left result marked place bytes.now) }
    ensures opened { (F.state files.new).opened ≡ (F.state files.old).opened }
    ensures done { EndsWithin result marked place bytes.now }
    ensures cause { WriteCause result unit file (F.state files.old) (F.state files.new) }
{
    if !marked || bytes.is_empty() {
        return Ok(());
    }
    match files.write_at(file, place as u64, bytes) {
        Ok(()) => Ok(()),
        Err(fault) => Err(UnitFault {
            unit,
            file: Some(file),
            call: FileCall::Write,
            done: (place + fault.done) as u64,
        }),
    }
}
