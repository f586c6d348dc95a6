ghost use Rattle.std.specs.Prelude.{◌≡◌, ℕ, List, true, [], ◌∷◌, IfOk, OnOk, OnErr, ◌≤◌, ◌<◌, ◌+◌, ◌-◌, ◌++◌, length, map, take, drop, replicate, min, max, vec_len, vec_capacity, All, MatchOption, None, bytes_eq};
ghost use Rattle.file_traits.specs.Lists.{find_file, changed, overwritten, resized};
ghost use Rattle.host_files.specs.MemFiles.{named_of, are_there, HasPlace, HasRoom};
ghost use Rattle.file_traits.specs.State.{Opened};

use std::alloc::{AllocError, Global};

/// A file in memory.
#[derive(Drop)]
pub struct MemFile {
    pub(crate) name: String,
    pub(crate) bytes: Vec<u8>,
}

/// A file of no bytes, with its room.
pub(crate) fn new_file(alloc: Global, name: &str, room: u64) -> Result<MemFile, AllocError>
    ensures file { IfOk result (λ f. named_of f ≡ (name.now, [])) }
    ensures room { IfOk result (λ f. HasRoom room f) }
{
    Ok(MemFile {
        name: String::from_str(alloc, name)?,
        bytes: Vec::with_capacity(alloc, room as usize)?,
    })
}

/// A file of those bytes, with its room.
pub(crate) fn filled_file(
    alloc: Global,
    name: &str,
    room: u64,
    bytes: &[u8],
) -> Result<MemFile, AllocError>
    requires { length bytes.now ≤ room }
    ensures file { IfOk result (λ f. named_of f ≡ (name.now, bytes.now)) }
    ensures room { IfOk result (λ f. HasRoom room f) }
{
    let mut made = new_file(alloc, name, room)?;
    made.bytes.extend_from_slice(bytes).unwrap();
    Ok(made)
}

/// Adds a file behind all others. Where there is no memory, nothing changes.
pub(crate) fn push_file(
    files: &mut Vec<MemFile>,
    room: u64,
    file: MemFile,
) -> Result<(), AllocError>
    requires rooms { All (HasRoom room) files.old.items }
    requires room { HasRoom room file }
    ensures added { OnOk result (map named_of files.new.items ≡ map named_of files.old.items ++ named_of file ∷ []) }
    ensures refused { OnErr result (files.new.items ≡ files.old.items) }
    ensures rooms { All (HasRoom room) files.new.items }
    ensures kept { (opened : List Opened) → are_there (map named_of files.old.items) opened ≡ true → are_there (map named_of files.new.items) opened ≡ true }
{
    files.reserve(1)?;
    files.push(file).unwrap();
    Ok(())
}

/// The place of the file of that name.
pub(crate) fn place_of_name(files: &[MemFile], name: &str) -> Option<usize>
    ensures { MatchOption result
        (find_file (map named_of files.now) name.now ≡ None)
        (λ i. HasPlace (map named_of files.now) name.now i) }
{
    match files.split_first() {
        None => None,
        Some((first, rest)) => {
            if first.name.as_bytes() == name.as_bytes() {
                return Some(0);
            }
            match place_of_name(rest, name) {
                Some(i) => Some(i + 1),
                None => None,
            }
        }
    }
}

/// Reads bytes from a place on, as many as fit, and answers how many.
pub(crate) fn read_from(bytes: &[u8], place: u64, buf: &mut [u8]) -> usize
    ensures count { result ≡ min (length buf.old) (length bytes.now - place) }
    ensures same { length buf.new ≡ length buf.old }
    ensures bytes { take result buf.new ≡ take result (drop place bytes.now) }
{
    if place >= bytes.len() as u64 {
        return 0;
    }
    let rest = &bytes[place as usize..];
    let count = rest.len().min(buf.len());
    buf[..count].copy_from_slice(&rest[..count]);
    count
}

/// Cuts the bytes to a length, or fills them up with zero bytes. It takes no memory.
pub(crate) fn resize_to(bytes: &mut Vec<u8>, count: usize)
    requires { count ≤ vec_capacity bytes.old }
    ensures bytes { bytes.new.items ≡ resized bytes.old.items count }
    ensures count { vec_len bytes.new ≡ count }
    ensures capacity { vec_capacity bytes.old ≤ vec_capacity bytes.new }
{
    bytes.resize(count, 0).unwrap();
}

/// Writes a piece at a place, behind zero bytes where there is a gap. It takes no memory.
pub(crate) fn write_into(bytes: &mut Vec<u8>, place: usize, piece: &[u8])
    requires { place + length piece.now ≤ vec_capacity bytes.old }
    ensures bytes { bytes.new.items ≡ overwritten bytes.old.items place piece.now }
    ensures length { vec_len bytes.new ≤ max (vec_len bytes.old) (place + length piece.now) }
    ensures capacity { vec_capacity bytes.old ≤ vec_capacity bytes.new }
{
    if !piece.is_empty() {
        grow_to(bytes, place + piece.len());
        put_over(bytes, place, piece);
    }
}

/// Fills the bytes up to a length with zero bytes, where they are shorter. It takes no memory.
fn grow_to(bytes: &mut Vec<u8>, length: usize)
    requires { length ≤ vec_capacity bytes.old }
    ensures bytes { bytes.new.items ≡ bytes.old.items ++ replicate (length - vec_len bytes.old) 0 }
    ensures capacity { vec_capacity bytes.old ≤ vec_capacity bytes.new }
{
    if bytes.len() < length {
        bytes.resize(length, 0).unwrap();
    }
}

/// Puts a piece over the bytes at a place.
fn put_over(bytes: &mut Vec<u8>, place: usize, piece: &[u8])
    requires { place + length piece.now ≤ vec_len bytes.old }
    ensures bytes { bytes.new.items ≡ take place bytes.old.items ++ piece.now ++ drop (place + length piece.now) bytes.old.items }
    ensures capacity { vec_capacity bytes.old ≤ vec_capacity bytes.new }
{
    bytes[place..place + piece.len()].copy_from_slice(piece);
}

/// Writes a piece into the file of that name, where there is one. It takes no memory.
pub(crate) fn write_file(
    files: &mut Vec<MemFile>,
    room: u64,
    name: &str,
    place: usize,
    piece: &[u8],
)
    requires rooms { All (HasRoom room) files.old.items }
    requires fits { place + length piece.now ≤ room }
    ensures files { map named_of files.new.items ≡ changed (map named_of files.old.items) name.now (λ old. overwritten old place piece.now) }
    ensures rooms { All (HasRoom room) files.new.items }
{
    if let Some(i) = place_of_name(files.as_slice(), name) {
        write_into(&mut files[i].bytes, place, piece);
    }
}

/// Cuts the file of that name, where there is one, to a length, or fills it up. It takes no memory.
pub(crate) fn resize_file(files: &mut Vec<MemFile>, room: u64, name: &str, length: usize)
    requires rooms { All (HasRoom room) files.old.items }
    requires fits { length ≤ room }
    ensures files { map named_of files.new.items ≡ changed (map named_of files.old.items) name.now (λ old. resized old length) }
    ensures rooms { All (HasRoom room) files.new.items }
{
    if let Some(i) = place_of_name(files.as_slice(), name) {
        resize_to(&mut files[i].bytes, length);
    }
}
