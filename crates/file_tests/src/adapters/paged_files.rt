// Files that are read by pages, over files in memory.
ghost use Rattle.std.specs.Prelude.{◌≡◌};
ghost use Rattle.file_traits.specs.State.{IsOpen, IsWritable};

use crate::adapters::calls::{fails, gives_byte, is_cut, takes};
use crate::texts::holds;
use host_adapters::PagedFiles;
use host_files::{FileId, Files, MemFiles, OpenMode};
use std::alloc::Global;
use std::test::Fail;

/// Files of 5000 bytes at most, with these in one of them. The call with that number fails.
fn paged(alloc: Global, bytes: &[u8], number: u64) -> Result<PagedFiles<MemFiles>, Fail> {
    let mut files = MemFiles::with_room(alloc, 5000)?;
    let _ = files.add_file("tape", bytes);
    files.fail_call(number, 0)?;
    Ok(PagedFiles::new(alloc, files)?)
}

/// The byte at a place of the long file.
fn byte_of(place: u64) -> u8 {
    (place % 251) as u8
}

fn long_bytes(alloc: Global) -> Result<Vec<u8>, Fail> {
    let mut bytes = Vec::new(alloc);
    for place in 0..5000u64 {
        bytes.push(byte_of(place))?;
    }
    Ok(bytes)
}

fn long_file(alloc: Global) -> Result<PagedFiles<MemFiles>, Fail> {
    let bytes = long_bytes(alloc)?;
    paged(alloc, bytes.as_slice(), 3)
}

/// Whether the long file is read byte by byte up to its end, where a call fails once.
fn is_read_to_its_end<F: Files>(files: &mut F, file: FileId) -> bool
    requires { IsOpen (F.state files.old) file.0 }
{
    for place in 0..5000u64 {
        if !gives_byte(files, file, place, Some(byte_of(place))) {
            return false;
        }
    }
    fails(files, file, 5000) && files.faults(file) == 1 && gives_byte(files, file, 5000, None)
}

#[test]
fn bytes_are_read_in_two_calls_and_the_third_fails(rt: HostRuntime) -> Result<(), Fail> {
    let mut files = long_file(rt.alloc())?;
    let is_read = match files.open_file(rt.alloc(), "tape", OpenMode::Read) {
        Ok(file) => is_read_to_its_end(&mut files, file),
        Err(_) => false,
    };
    holds(&rt, is_read, "a long file");
    Ok(())
}

/// Whether a call fails once and then reads the file's first byte.
fn fails_once<F: Files>(files: &mut F, file: FileId) -> bool
    requires { IsOpen (F.state files.old) file.0 }
    ensures { (F.state files.new).opened ≡ (F.state files.old).opened }
{
    fails(files, file, 0) && files.faults(file) == 1 && gives_byte(files, file, 0, Some(b'h'))
}

/// Whether what the second id writes and cuts is read by the first at once.
fn is_read_at_once<F: Files>(files: &mut F, reader: FileId, writer: FileId) -> bool
    requires read { IsOpen (F.state files.old) reader.0 }
    requires open { IsOpen (F.state files.old) writer.0 }
    requires writable { IsWritable (F.state files.old) writer.0 }
{
    gives_byte(files, reader, 1, None)
        && takes(files, writer, 0, b"abc")
        && gives_byte(files, reader, 0, Some(b'a'))
        && takes(files, writer, 1, b"x")
        && gives_byte(files, reader, 1, Some(b'x'))
        && is_cut(files, writer, 2)
        && gives_byte(files, reader, 2, None)
        && takes(files, writer, 2, b"!")
        && gives_byte(files, reader, 2, Some(b'!'))
}

/// Opens a second id of the tape, which empties it.
fn is_seen_by_the_first<F: Files>(alloc: Global, files: &mut F, reader: FileId) -> bool
    requires { IsOpen (F.state files.old) reader.0 }
{
    match files.open_file(alloc, "tape", OpenMode::Create) {
        Ok(writer) => is_read_at_once(files, reader, writer),
        Err(_) => false,
    }
}

#[test]
fn what_another_id_changes_is_read_at_once(rt: HostRuntime) -> Result<(), Fail> {
    let mut files = paged(rt.alloc(), b"hello", 1)?;
    let is_seen = match files.open_file(rt.alloc(), "tape", OpenMode::Read) {
        Ok(file) => {
            fails_once(&mut files, file) && is_seen_by_the_first(rt.alloc(), &mut files, file)
        }
        Err(_) => false,
    };
    holds(&rt, is_seen, "two ids of one file");
    Ok(())
}
