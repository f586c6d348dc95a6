ghost use Rattle.std.specs.Prelude.{◌≡◌, ◌≤◌, ◌<◌, ◌*◌, ◌+◌, ◌-◌, ◌++◌, IfOk, false, true, [], length, take, drop, min, replicate};
ghost use Rattle.std.specs.Prelude.{vec_len, vec_capacity};
ghost use Rattle.unit_files.specs.Pages.{disk_pages, marked, page_of};
ghost use Rattle.unit_files.specs.Buffer.{disk_bytes, disk_sectors, sector_bytes, sector_of, with_sector};
ghost use Rattle.unit_files.specs.InStep.{with_marks};
ghost use Rattle.unit_files.specs.View.{IsCopy, IsEmptyCopy, IsNewCopy, IsNoCopy, marks_of};

use crate::disk::SECTOR_BYTES;
use crate::slots::DISK_BYTES;
use std::alloc::{AllocError, Global};

/// How many bytes a page has.
pub(crate) const PAGE_BYTES: usize = 4096;

/// How many pages the disk has.
const DISK_PAGES: usize = 1024;

/// The disk's copy of its file: its bytes, with room for all that the disk has, in one piece of memory; a mark for each
/// page, where something was written in it; and whether a sector was written that is not written back yet. No bytes and
/// no marks where the disk has no file.
#[derive(Drop)]
pub(crate) struct DiskCopy {
    pub(crate) bytes: Vec<u8>,
    pub(crate) marks: Vec<bool>,
    pub(crate) written: bool,
}

impl DiskCopy {
    /// Of no file.
    pub(crate) fn none(alloc: Global) -> DiskCopy
        ensures { IsNoCopy result }
    {
        DiskCopy {
            bytes: Vec::new(alloc),
            marks: Vec::new(alloc),
            written: false,
        }
    }

    /// With room for all pages of the disk, and nothing in them. This is the only call that takes memory for a copy.
    /// What it takes is not written, but for the marks, so that the system need not give it before there are bytes.
    #[tactic(auto, unfolding(crate::specs::Buffer::disk_bytes, crate::specs::Aside::aside_length))]
    pub(crate) fn with_pages(alloc: Global) -> Result<DiskCopy, AllocError>
        ensures { IfOk result IsEmptyCopy }
    {
        let bytes = Vec::with_capacity(alloc, DISK_BYTES)?;
        let marks = Vec::from_elem(alloc, false, DISK_PAGES)?;
        Ok(DiskCopy {
            bytes,
            marks,
            written: false,
        })
    }

    /// Lets its memory go.
    pub(crate) fn clear(&mut self)
        ensures { IsNoCopy self.new }
    {
        self.bytes.clear();
        self.bytes.shrink_to_fit();
        self.marks.clear();
        self.marks.shrink_to_fit();
        self.written = false;
    }

    /// Takes the marks away: all was written back.
    pub(crate) fn unmark(&mut self)
        requires { IsCopy self.old }
        ensures bytes { self.new.bytes.items ≡ self.old.bytes.items }
        ensures copy { IsNewCopy self.new }
    {
        unmark_all(&mut self.marks);
        self.written = false;
    }

    /// Copies a sector out of it, and 0 where its bytes have ended.
    pub(crate) fn read(&self, sector: u16, into: &mut [u8; 512])
        requires { sector < disk_sectors }
        ensures { into.new ≡ sector_of self.now.bytes.items sector }
    {
        read_from(self.bytes.as_slice(), sector, into);
    }

    /// Puts a sector into it, behind zero bytes where there is a gap, and marks the pages of both. It takes no memory.
    pub(crate) fn write(&mut self, sector: u16, from: &[u8; 512])
        requires copy { IsCopy self.old }
        requires sector { sector < disk_sectors }
        ensures copy { IsCopy self.new }
        ensures bytes { self.new.bytes.items ≡ with_sector self.old.bytes.items sector from.now }
        ensures marks { marks_of self.new.marks.items
            ≡ with_marks self.old.bytes.items sector (marks_of self.old.marks.items) }
        ensures written { self.new.written ≡ true }
    {
        mark_pages(&mut self.marks, self.bytes.len(), sector);
        write_into(&mut self.bytes, sector, from);
        self.written = true;
    }
}

// Takes all marks away.
fn unmark_all(marks: &mut Vec<bool>)
    ensures { marks.new.items ≡ replicate (length marks.old.items) false }
{
    marks.fill(false);
}

// Marks the page of a sector, and those in which the gap in front of it lies where the copy has so many bytes.
fn mark_pages(marks: &mut Vec<bool>, count: usize, sector: u16)
    requires all { length marks.old.items ≡ disk_pages }
    requires sector { sector < disk_sectors }
    ensures { marks.new.items
        ≡ marked (page_of (min count (sector * sector_bytes))) (page_of (sector * sector_bytes)) marks.old.items }
{
    let place = usize::from(sector) * SECTOR_BYTES;
    mark_from(marks, count.min(place) / PAGE_BYTES, place / PAGE_BYTES);
}

// Sets the marks from one page up to another.
#[tactic(auto, unfolding(crate::specs::Pages::marked))]
fn mark_from(marks: &mut Vec<bool>, first: usize, last: usize)
    requires order { first ≤ last }
    requires below { last < length marks.old.items }
    ensures { marks.new.items ≡ marked first last marks.old.items }
{
    marks[first..last + 1].fill(true);
}

// Copies a sector out of the bytes of a disk, and 0 where they have ended.
#[tactic(auto, unfolding(crate::specs::Buffer::disk_sectors, crate::specs::Buffer::sector_bytes, crate::specs::Buffer::sector_of))]
fn read_from(bytes: &[u8], sector: u16, into: &mut [u8; 512])
    requires { sector < disk_sectors }
    ensures { into.new ≡ sector_of bytes.now sector }
{
    let place = usize::from(sector) * SECTOR_BYTES;
    copy_front(&bytes[place.min(bytes.len())..], into);
}

// Copies the first bytes, and 0 behind their end.
fn copy_front(bytes: &[u8], into: &mut [u8])
    ensures { into.new ≡ take (length into.old) (bytes.now ++ replicate (length into.old) 0) }
{
    let count = copy_part(bytes, into);
    clear_from(into, count);
}

// Copies as many first bytes as fit, and answers how many.
fn copy_part(bytes: &[u8], into: &mut [u8]) -> usize
    ensures count { result ≡ min (length bytes.now) (length into.old) }
    ensures bytes { into.new ≡ take result bytes.now ++ drop result into.old }
{
    let count = bytes.len().min(into.len());
    into[..count].copy_from_slice(&bytes[..count]);
    count
}

// Makes all bytes from a place on 0.
fn clear_from(bytes: &mut [u8], place: usize)
    requires { place ≤ length bytes.old }
    ensures { bytes.new ≡ take place bytes.old ++ replicate (length bytes.old - place) 0 }
{
    bytes[place..].fill(0);
}

// Puts a sector into the bytes of a disk, which have room for it.
#[tactic(auto, unfolding(crate::specs::Buffer::disk_sectors, crate::specs::Buffer::sector_bytes, crate::specs::Buffer::disk_bytes))]
fn write_into(bytes: &mut Vec<u8>, sector: u16, from: &[u8; 512])
    requires sector { sector < disk_sectors }
    requires room { disk_bytes ≤ vec_capacity bytes.old }
    ensures bytes { bytes.new.items ≡ with_sector bytes.old.items sector from.now }
    ensures capacity { vec_capacity bytes.old ≤ vec_capacity bytes.new }
{
    let place = usize::from(sector) * SECTOR_BYTES;
    grow_to(bytes, place + SECTOR_BYTES);
    put_over(bytes, place, from);
}

// Puts a piece over the bytes at a place.
fn put_over(bytes: &mut Vec<u8>, place: usize, piece: &[u8])
    requires { place + length piece.now ≤ vec_len bytes.old }
    ensures bytes { bytes.new.items
        ≡ take place bytes.old.items ++ piece.now ++ drop (place + length piece.now) bytes.old.items }
    ensures capacity { vec_capacity bytes.old ≤ vec_capacity bytes.new }
{
    bytes[place..place + piece.len()].copy_from_slice(piece);
}

// Fills the bytes up to a length with zero bytes, where they are shorter. It takes no memory.
fn grow_to(bytes: &mut Vec<u8>, length: usize)
    requires { length ≤ vec_capacity bytes.old }
    ensures bytes { bytes.new.items ≡ bytes.old.items ++ replicate (length - vec_len bytes.old) 0 }
    ensures capacity { vec_capacity bytes.old ≤ vec_capacity bytes.new }
{
    if bytes.len() < length {
        bytes.resize(length, 0).unwrap();
    }
}
