// Calls on an open file, each with what it should answer.
ghost use Rattle.std.specs.Prelude.{◌≡◌};
ghost use Rattle.file_traits.specs.State.{IsOpen, IsWritable};

use host_files::{FileId, Files};

/// Whether a read of eight bytes gives so many, and leaves the rest of a buffer of `.`.
pub fn gives<F: Files>(
    files: &mut F,
    file: FileId,
    place: u64,
    count: usize,
    wanted: &[u8; 8],
) -> bool
    requires { IsOpen (F.state files.old) file.0 }
    ensures { (F.state files.new).opened ≡ (F.state files.old).opened }
{
    let mut buf = [b'.'; 8];
    files.read_at(file, place, &mut buf) == Ok(count) && buf.as_slice() == wanted.as_slice()
}

/// Whether a read of one byte gives it; none: that it is the end.
pub fn gives_byte<F: Files>(files: &mut F, file: FileId, place: u64, wanted: Option<u8>) -> bool
    requires { IsOpen (F.state files.old) file.0 }
    ensures { (F.state files.new).opened ≡ (F.state files.old).opened }
{
    let mut buf = [0];
    match files.read_at(file, place, &mut buf) {
        Ok(count) => count == usize::from(wanted.is_some()) && wanted.unwrap_or(0) == buf[0],
        Err(_) => false,
    }
}

/// Whether a read of one byte fails.
pub fn fails<F: Files>(files: &mut F, file: FileId, place: u64) -> bool
    requires { IsOpen (F.state files.old) file.0 }
    ensures { (F.state files.new).opened ≡ (F.state files.old).opened }
{
    let mut buf = [0];
    files.read_at(file, place, &mut buf).is_err()
}

/// Whether a piece is written whole.
pub fn takes<F: Files>(files: &mut F, file: FileId, place: u64, piece: &[u8]) -> bool
    requires open { IsOpen (F.state files.old) file.0 }
    requires writable { IsWritable (F.state files.old) file.0 }
    ensures { (F.state files.new).opened ≡ (F.state files.old).opened }
{
    files.write_at(file, place, piece).is_ok()
}

/// Whether a length is set.
pub fn is_cut<F: Files>(files: &mut F, file: FileId, length: u64) -> bool
    requires open { IsOpen (F.state files.old) file.0 }
    requires writable { IsWritable (F.state files.old) file.0 }
    ensures { (F.state files.new).opened ≡ (F.state files.old).opened }
{
    files.set_length(file, length).is_ok()
}

/// Whether the file is so long; none: that its length is not told.
pub fn is_long<F: Files>(files: &mut F, file: FileId, wanted: Option<u64>) -> bool
    requires { IsOpen (F.state files.old) file.0 }
    ensures { (F.state files.new).opened ≡ (F.state files.old).opened }
{
    match files.length(file) {
        Ok(length) => wanted == Some(length),
        Err(_) => wanted.is_none(),
    }
}
