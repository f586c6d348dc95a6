// What is done with a file of the system, and what each call should answer.
ghost use Rattle.std.specs.Prelude.{◌≡◌};
ghost use Rattle.file_traits.specs.State.{IsOpen, IsWritable};

use crate::adapters::calls::{gives, is_cut, is_long, takes};
use host_files::{FileId, Files, OpenFault, OpenMode};
use std::alloc::Global;

#[derive(Clone, Copy)]
pub enum Job {
    /// It is opened so with that answer, behind which so many openings have failed.
    Open(OpenMode, Result<FileId, OpenFault>, u64),
    /// It is made, written and read at its places, and closed.
    Make,
    /// It is cut to two bytes and filled up behind them.
    Cut,
    /// It is opened so, and has that length; none: that no length is told, which counts as a call that failed.
    Measure(OpenMode, Option<u64>),
    /// No length is told, one is set and another is not.
    Resize,
    /// A read of four bytes at place 5 gives so many, and leaves these bytes; none: that it fails.
    Read(Option<usize>, [u8; 4]),
    /// A write of four bytes at place 5 fails behind so many; none: that it takes all of them.
    Write(Option<usize>),
}

/// Whether the calls of a job answer as they should.
pub fn is_done<F: Files>(alloc: Global, files: &mut F, path: &str, job: Job) -> bool {
    match job {
        Job::Open(mode, wanted, faults) => opens(alloc, files, path, mode, wanted, faults),
        Job::Make => is_made(alloc, files, path),
        Job::Cut => is_cut_and_filled(alloc, files, path),
        Job::Measure(mode, wanted) => has_length(alloc, files, path, mode, wanted),
        Job::Resize => is_resized(alloc, files, path),
        Job::Read(wanted, bytes) => reads(alloc, files, path, wanted, bytes),
        Job::Write(failed) => writes(alloc, files, path, failed),
    }
}

fn opens<F: Files>(
    alloc: Global,
    files: &mut F,
    path: &str,
    mode: OpenMode,
    wanted: Result<FileId, OpenFault>,
    faults: u64,
) -> bool {
    files.open_file(alloc, path, mode) == wanted && files.open_faults() == faults
}

fn is_made<F: Files>(alloc: Global, files: &mut F, path: &str) -> bool {
    match files.open_file(alloc, path, OpenMode::Create) {
        Ok(file) => {
            let well = file == FileId(0) && is_written_and_read(files, file);
            well && files.close_file(file).is_ok()
        }
        Err(_) => false,
    }
}

/// Whether an open file that is empty is written and read at its places.
fn is_written_and_read<F: Files>(files: &mut F, file: FileId) -> bool
    requires open { IsOpen (F.state files.old) file.0 }
    requires writable { IsWritable (F.state files.old) file.0 }
    ensures { (F.state files.new).opened ≡ (F.state files.old).opened }
{
    takes(files, file, 3, b"tape")
        && takes(files, file, 0, b"old")
        && is_long(files, file, Some(7))
        && gives(files, file, 1, 6, b"ldtape..")
        && gives(files, file, 7, 0, b"........")
        && files.faults(file) == 0
}

fn is_cut_and_filled<F: Files>(alloc: Global, files: &mut F, path: &str) -> bool {
    match files.open_file(alloc, path, OpenMode::Update) {
        Ok(file) => has_gaps(files, file),
        Err(_) => false,
    }
}

/// Whether a file of six bytes is cut to two and filled up behind that.
fn has_gaps<F: Files>(files: &mut F, file: FileId) -> bool
    requires open { IsOpen (F.state files.old) file.0 }
    requires writable { IsWritable (F.state files.old) file.0 }
{
    is_cut(files, file, 2)
        && takes(files, file, 4, b"!")
        && is_cut(files, file, 7)
        && gives(files, file, 0, 7, b"ab\0\0!\0\0.")
}

fn has_length<F: Files>(
    alloc: Global,
    files: &mut F,
    path: &str,
    mode: OpenMode,
    wanted: Option<u64>,
) -> bool {
    match files.open_file(alloc, path, mode) {
        Ok(file) => {
            is_long(files, file, wanted) && files.faults(file) == u64::from(wanted.is_none())
        }
        Err(_) => false,
    }
}

fn is_resized<F: Files>(alloc: Global, files: &mut F, path: &str) -> bool {
    match files.open_file(alloc, path, OpenMode::Update) {
        Ok(file) => {
            let well = counts_lengths(files, file);
            well && files.close_file(file).is_ok() && files.faults(file) == 2
        }
        Err(_) => false,
    }
}

/// Whether the length is not told, a new one is set, and another is not.
fn counts_lengths<F: Files>(files: &mut F, file: FileId) -> bool
    requires open { IsOpen (F.state files.old) file.0 }
    requires writable { IsWritable (F.state files.old) file.0 }
    ensures { (F.state files.new).opened ≡ (F.state files.old).opened }
{
    is_long(files, file, None)
        && is_cut(files, file, 9)
        && !is_cut(files, file, 8)
        && files.faults(file) == 2
}

fn reads<F: Files>(
    alloc: Global,
    files: &mut F,
    path: &str,
    wanted: Option<usize>,
    bytes: [u8; 4],
) -> bool {
    match files.open_file(alloc, path, OpenMode::Read) {
        Ok(file) => is_read(files, file, wanted, &bytes),
        Err(_) => false,
    }
}

fn is_read<F: Files>(files: &mut F, file: FileId, wanted: Option<usize>, bytes: &[u8; 4]) -> bool
    requires { IsOpen (F.state files.old) file.0 }
{
    let mut buf = [0; 4];
    let answer = files.read_at(file, 5, &mut buf).ok();
    let counted = files.faults(file) == u64::from(wanted.is_none());
    answer == wanted && counted && (answer.is_none() || buf.as_slice() == bytes.as_slice())
}

fn writes<F: Files>(alloc: Global, files: &mut F, path: &str, failed: Option<usize>) -> bool {
    match files.open_file(alloc, path, OpenMode::Update) {
        Ok(file) => is_written(files, file, failed),
        Err(_) => false,
    }
}

fn is_written<F: Files>(files: &mut F, file: FileId, failed: Option<usize>) -> bool
    requires open { IsOpen (F.state files.old) file.0 }
    requires writable { IsWritable (F.state files.old) file.0 }
{
    let done = match files.write_at(file, 5, b"abcd") {
        Ok(()) => None,
        Err(fault) => Some(fault.done),
    };
    done == failed && files.faults(file) == u64::from(failed.is_some())
}
