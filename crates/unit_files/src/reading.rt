ghost use Rattle.std.specs.Prelude.{◌≡◌, ◌≤◌, ◌<◌, IsTrue, IfOk, OnOk, OnErr, length, take, vec_capacity};
ghost use Rattle.file_traits.specs.FileCalls.{Counted, Reads};
ghost use Rattle.file_traits.specs.State.{IsOpen, content};
ghost use Rattle.unit_files.specs.Buffer.{disk_bytes};
ghost use Rattle.unit_files.specs.View.{IsEmptyCopy, IsNewCopy};

use crate::disk_copy::{DiskCopy, PAGE_BYTES};
use file_traits::{Failed, FileId, Files};

/// Reads an open file, which has so many bytes, into a copy in which nothing is yet. It has fewer only where the file
/// has become shorter.
pub(crate) fn read_copy<F: Files>(
    file: FileId,
    count: usize,
    copy: &mut DiskCopy,
    files: &mut F,
) -> Result<(), Failed>
    requires open { IsOpen (F.state files.old) file.0 }
    requires empty { IsEmptyCopy copy.old }
    requires fits { count ≤ disk_bytes }
    requires length { IsTrue F.tells → count ≡ length (content (F.state files.old) file.0) }
    ensures bytes { IsTrue F.tells → OnOk result (copy.new.bytes.items ≡ content (F.state files.old) file.0) }
    ensures copy { OnOk result (IsNewCopy copy.new) }
    ensures needed { OnErr result (0 < count) }
    ensures counted { Counted file.0 (F.state files.old) (F.state files.new) result }
    ensures files { (F.state files.new).files ≡ (F.state files.old).files }
    ensures opened { (F.state files.new).opened ≡ (F.state files.old).opened }
{
    read_bytes(file, count, &mut copy.bytes, files)
}

// Reads so many bytes of an open file into a list that has room for them, or as many as there are.
#[tactic(auto, unfolding(crate::specs::Buffer::disk_bytes))]
fn read_bytes<F: Files>(
    file: FileId,
    count: usize,
    bytes: &mut Vec<u8>,
    files: &mut F,
) -> Result<(), Failed>
    requires open { IsOpen (F.state files.old) file.0 }
    requires fits { count ≤ disk_bytes }
    requires room { disk_bytes ≤ vec_capacity bytes.old }
    requires length { IsTrue F.tells → count ≡ length (content (F.state files.old) file.0) }
    ensures bytes { IsTrue F.tells → OnOk result (bytes.new.items ≡ content (F.state files.old) file.0) }
    ensures short { OnOk result (length bytes.new.items ≤ disk_bytes) }
    ensures kept { vec_capacity bytes.old ≤ vec_capacity bytes.new }
    ensures needed { OnErr result (0 < count) }
    ensures counted { Counted file.0 (F.state files.old) (F.state files.new) result }
    ensures files { (F.state files.new).files ≡ (F.state files.old).files }
    ensures opened { (F.state files.new).opened ≡ (F.state files.old).opened }
{
    bytes.resize(count, 0).unwrap();
    let done = fill_pages(file, bytes.as_mut_slice(), files)?;
    keep_first(bytes, done);
    Ok(())
}

// Keeps so many first bytes of a list: those that were read, where a file was shorter than its length said.
fn keep_first(bytes: &mut Vec<u8>, done: usize)
    ensures bytes { bytes.new.items ≡ take done bytes.old.items }
    ensures kept { vec_capacity bytes.new ≡ vec_capacity bytes.old }
{
    bytes.truncate(done);
}

// Fills a buffer from the front of an open file, no read going past the end of a page, and answers how many bytes it
// got: fewer than it takes only where the file ends before. Where a read fails, what the buffer holds is free.
#[tactic(auto, unfolding(crate::specs::Buffer::disk_bytes))]
fn fill_pages<F: Files>(file: FileId, buf: &mut [u8], files: &mut F) -> Result<usize, Failed>
    requires open { IsOpen (F.state files.old) file.0 }
    requires fits { length buf.old ≤ disk_bytes }
    ensures bound { IfOk result (λ n. n ≤ length buf.new) }
    ensures reads { IsTrue F.tells → Reads (content (F.state files.old) file.0) 0 result buf.new }
    ensures length { length buf.new ≡ length buf.old }
    ensures needed { OnErr result (0 < length buf.old) }
    ensures counted { Counted file.0 (F.state files.old) (F.state files.new) result }
    ensures files { (F.state files.new).files ≡ (F.state files.old).files }
    ensures opened { (F.state files.new).opened ≡ (F.state files.old).opened }
{
    let mut done = 0;
    while done < buf.len() {
        let end = ((done / PAGE_BYTES + 1) * PAGE_BYTES).min(buf.len());
        let count = files.read_at(file, done as u64, &mut buf[done..end])?;
        if count == 0 {
            return Ok(done);
        }
        done += count;
    }
    Ok(done)
}
