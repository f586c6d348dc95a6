ghost use Rattle.std.specs.Prelude.{◌≡◌, ◌<◌, ◌≤◌, IsTrue, IfOk, OnErr, length};
ghost use Rattle.file_traits.specs.FileCalls.{Counted, Reads};
ghost use Rattle.file_traits.specs.State.{IsOpen, content};
ghost use Rattle.whole_files.specs.Reading.{IsRead, Fails, failures};
ghost use Rattle.whole_files.specs.Whole.{longest_file};

use crate::whole::LONGEST_FILE;
use file_traits::{Failed, FileId, Files};
use std::alloc::{AllocError, Global};

/// Why an open file was not read.
#[derive(Clone, Copy)]
pub(crate) enum Refusal {
    TooLong,
    OutOfMemory,
    LengthFailed,
    ReadFailed,
}

/// Fills a buffer from the front of an open file, and answers how many bytes it got: fewer than it takes only where the
/// file ends before. Where a read fails, what the buffer holds is free.
pub fn fill<F: Files>(file: FileId, buf: &mut [u8], files: &mut F) -> Result<usize, Failed>
    requires { IsOpen (F.state files.old) file.0 }
    ensures bound { IfOk result (λ n. n ≤ length buf.new) }
    ensures reads { IsTrue F.tells → Reads (content (F.state files.old) file.0) 0 result buf.new }
    ensures length { length buf.new ≡ length buf.old }
    ensures needed { OnErr result (0 < length buf.old) }
    ensures files { (F.state files.new).files ≡ (F.state files.old).files }
    ensures opened { (F.state files.new).opened ≡ (F.state files.old).opened }
    ensures counted { Counted file.0 (F.state files.old) (F.state files.new) result }
{
    let mut done = 0;
    while done < buf.len() {
        let count = files.read_at(file, done as u64, &mut buf[done..])?;
        if count == 0 {
            return Ok(done);
        }
        done += count;
    }
    Ok(done)
}

// Reads so many bytes of an open file, or as many as there are.
fn read_bytes<F: Files>(
    alloc: Global,
    file: FileId,
    count: usize,
    files: &mut F,
) -> Result<Vec<u8>, Refusal>
    requires open { IsOpen (F.state files.old) file.0 }
    requires length { IsTrue F.tells → count ≡ length (content (F.state files.old) file.0) }
    requires short { count ≤ longest_file }
    ensures read { IsTrue F.tells → IsRead (content (F.state files.old) file.0) result }
    ensures bound { IfOk result (λ v. length v.items ≤ longest_file) }
    ensures fails { Fails file.0 (failures result) (F.state files.old) (F.state files.new) }
    ensures files { (F.state files.new).files ≡ (F.state files.old).files }
    ensures opened { (F.state files.new).opened ≡ (F.state files.old).opened }
{
    let mut bytes = match Vec::from_elem(alloc, 0u8, count) {
        Ok(bytes) => bytes,
        Err(AllocError) => return Err(Refusal::OutOfMemory),
    };
    match fill(file, bytes.as_mut_slice(), files) {
        Ok(done) => {
            bytes.truncate(done);
            Ok(bytes)
        }
        Err(Failed) => Err(Refusal::ReadFailed),
    }
}

/// Reads an open file whole. It stays open.
#[tactic(auto, unfolding(crate::specs::Whole::longest_file))]
pub(crate) fn read_open<F: Files>(
    alloc: Global,
    file: FileId,
    files: &mut F,
) -> Result<Vec<u8>, Refusal>
    requires { IsOpen (F.state files.old) file.0 }
    ensures read { IsTrue F.tells → IsRead (content (F.state files.old) file.0) result }
    ensures bound { IfOk result (λ v. length v.items ≤ longest_file) }
    ensures fails { Fails file.0 (failures result) (F.state files.old) (F.state files.new) }
    ensures files { (F.state files.new).files ≡ (F.state files.old).files }
    ensures opened { (F.state files.new).opened ≡ (F.state files.old).opened }
{
    match files.length(file) {
        Ok(length) if length > LONGEST_FILE => Err(Refusal::TooLong),
        Ok(length) => read_bytes(alloc, file, length as usize, files),
        Err(Failed) => Err(Refusal::LengthFailed),
    }
}
