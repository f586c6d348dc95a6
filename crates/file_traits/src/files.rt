ghost use Rattle.std.specs.Prelude.{◌≡◌, ℕ, ◌≤◌, Bool, IsTrue, take, length, IfOk, IfErr, OnOk, OnErr};
ghost use Rattle.file_traits.specs.Lists.{changed, overwritten, resized};
ghost use Rattle.file_traits.specs.State.{FileState, IsOpen, IsWritable, IsNamed, content, name_at, without};
ghost use Rattle.file_traits.specs.FileCalls.{Counted, Opens, Reads, opening_count, written_count};
ghost use Rattle.file_traits.specs.FileCalls.{FailsBehindLast, UnusedIdsAreUncounted};
ghost use Rattle.file_traits.specs.Streams.{LeavesFree};

use crate::streams::Failed;
use std::alloc::Global;

/// An open file. Ids are given from 0 on, one to each opening that succeeds, and never again.
#[derive(Clone, Copy, Debug, PartialEq, Eq)]
pub struct FileId(pub u32);

/// What a file is opened for.
#[derive(Clone, Copy, Debug, PartialEq, Eq)]
pub enum OpenMode {
    /// To be read. The file is there.
    Read,
    /// To be read and written. The file is there.
    Update,
    /// To be read and written. The file is made, or emptied.
    Create,
}

/// Why a file was not opened. Nothing has changed.
#[derive(Clone, Copy, Debug, PartialEq, Eq)]
pub enum OpenFault {
    /// There is no file of that name.
    NoFile,
    Failed,
    OutOfMemory,
}

/// A write that failed behind so many bytes of its piece.
#[derive(Clone, Copy, Debug, PartialEq, Eq)]
pub struct WriteFault {
    pub done: usize,
}

/// The calls on a file that can fail.
#[derive(Clone, Copy, Debug, PartialEq, Eq)]
pub enum FileCall {
    Opening,
    Length,
    Read,
    Write,
    SetLength,
    Closing,
}

/// Files by their names. Places and lengths count bytes.
pub trait Files {
    /// Whether contracts can name their bytes: those of files in memory, and not those of real ones.
    ghost tells: { Bool };

    /// What contracts see of them.
    ghost state: { Self → FileState };

    /// Opens the file of that name. Where every id was given, the opening fails.
    fn open_file(&mut self, alloc: Global, name: &str, mode: OpenMode) -> Result<FileId, OpenFault>
        ensures opens { Opens tells (state self.old) (state self.new) name.now mode result }
        ensures counts { (state self.new).faults ≡ (state self.old).faults }
        ensures openings { (state self.new).open_faults ≡ opening_count tells (state self.old) result }
        ensures last { FailsBehindLast (state self.old) result };

    /// How long the file is.
    fn length(&mut self, file: FileId) -> Result<u64, Failed>
        requires { IsOpen (state self.old) file.0 }
        ensures length { IsTrue tells → IfOk result (λ n. n ≡ length (content (state self.old) file.0)) }
        ensures files { (state self.new).files ≡ (state self.old).files }
        ensures opened { (state self.new).opened ≡ (state self.old).opened }
        ensures counted { Counted file.0 (state self.old) (state self.new) result };

    /// Reads bytes from a place on into the front of `buf`, and answers how many. Where it fails, what `buf` holds is
    /// free.
    fn read_at(&mut self, file: FileId, place: u64, buf: &mut [u8]) -> Result<usize, Failed>
        requires { IsOpen (state self.old) file.0 }
        ensures bound { IfOk result (λ n. n ≤ length buf.new) }
        ensures lent { LeavesFree result buf.old buf.new }
        ensures reads { IsTrue tells → Reads (content (state self.old) file.0) place result buf.new }
        ensures files { (state self.new).files ≡ (state self.old).files }
        ensures opened { (state self.new).opened ≡ (state self.old).opened }
        ensures counted { Counted file.0 (state self.old) (state self.new) result };

    /// Writes a piece at a place. A gap in front of it is filled with zero bytes. Where it fails, so many first bytes
    /// of the piece were written as its fault says.
    fn write_at(&mut self, file: FileId, place: u64, bytes: &[u8]) -> Result<(), WriteFault>
        requires open { IsOpen (state self.old) file.0 }
        requires writable { IsWritable (state self.old) file.0 }
        ensures bound { IfErr result (λ f. f.done ≤ length bytes.now) }
        ensures files { (state self.new).files ≡ changed (state self.old).files (name_at (state self.old).opened file.0)
            (λ old. overwritten old place (take (written_count result bytes.now) bytes.now)) }
        ensures opened { (state self.new).opened ≡ (state self.old).opened }
        ensures counted { Counted file.0 (state self.old) (state self.new) result };

    /// Cuts the file to a length, or fills it up with zero bytes.
    fn set_length(&mut self, file: FileId, length: u64) -> Result<(), Failed>
        requires open { IsOpen (state self.old) file.0 }
        requires writable { IsWritable (state self.old) file.0 }
        ensures set { OnOk result ((state self.new).files
            ≡ changed (state self.old).files (name_at (state self.old).opened file.0) (λ old. resized old length)) }
        ensures same { OnErr result ((state self.new).files ≡ (state self.old).files) }
        ensures opened { (state self.new).opened ≡ (state self.old).opened }
        ensures counted { Counted file.0 (state self.old) (state self.new) result };

    /// Closes the file. The id is closed where this fails too.
    fn close_file(&mut self, file: FileId) -> Result<(), Failed>
        requires { IsOpen (state self.old) file.0 }
        ensures files { (state self.new).files ≡ (state self.old).files }
        ensures closed { (state self.new).opened ≡ without (state self.old).opened file.0 }
        ensures counted { Counted file.0 (state self.old) (state self.new) result };

    /// How often a call on that file has failed: 0 for an id that was never given. The count stands still at its type's
    /// end.
    fn faults(&self, file: FileId) -> u64
        ensures { result ≡ (state self.now).faults file.0 };

    /// How often an opening has failed. The count stands still at its type's end.
    fn open_faults(&self) -> u64
        ensures { result ≡ (state self.now).open_faults };

    /// Where names are told, each open id stands for one of them.
    ghost named: { IsTrue tells → (s : Self) (file : ℕ) → IsOpen (state s) file → IsNamed (state s) file };

    /// Of an id that was never given no call has failed.
    ghost unused: { (s : Self) → UnusedIdsAreUncounted (state s) };
}
