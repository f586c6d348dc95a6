// Files of which a read gives at most two bytes, and of which contracts can't name the bytes, as those of real files.
use host_files::{Failed, FileId, Files, MemFiles, OpenFault, OpenMode, WriteFault};
use std::alloc::Global;

#[derive(Drop)]
pub struct Piecewise {
    pub files: MemFiles,
    /// The mode that was asked for last.
    pub mode: Option<OpenMode>,
    /// How many bytes less a file has than its length says.
    pub lacking: u64,
}

impl Files for Piecewise {
    ghost use Rattle.std.specs.Prelude.{false, []};
    ghost use Rattle.std.proofs.Common.{sym, true≢false};
    ghost use Rattle.std.proofs.lemmas.List.{get_or_past};
    ghost use Rattle.host_files.specs.MemView.{mem_of};
    ghost use Rattle.host_files.specs.MemFiles.{told_state};

    ghost tells = { false };

    ghost state = { λ s. record (told_state (mem_of s.files)) { files = [] } };

    ghost named = { λ told s file is_open. absurd (true≢false (sym told)) };

    ghost unused = { λ s file past. get_or_past (mem_of s.files).table.counts file 0 past };

    // A missing file is answered as want of memory, since only a failed opening is counted here.
    fn open_file(
        &mut self,
        alloc: Global,
        name: &str,
        mode: OpenMode,
    ) -> Result<FileId, OpenFault> {
        self.mode = Some(mode);
        match self.files.open_file(alloc, name, mode) {
            Ok(file) => Ok(file),
            Err(OpenFault::NoFile) => Err(OpenFault::OutOfMemory),
            Err(OpenFault::Failed) => Err(OpenFault::Failed),
            Err(OpenFault::OutOfMemory) => Err(OpenFault::OutOfMemory),
        }
    }

    fn length(&mut self, file: FileId) -> Result<u64, Failed> {
        let count = self.files.length(file)?;
        Ok(count.saturating_add(self.lacking))
    }

    fn read_at(&mut self, file: FileId, place: u64, buf: &mut [u8]) -> Result<usize, Failed> {
        let count = buf.len().min(2);
        self.files.read_at(file, place, &mut buf[..count])
    }

    fn write_at(&mut self, file: FileId, place: u64, bytes: &[u8]) -> Result<(), WriteFault> {
        self.files.write_at(file, place, bytes)
    }

    fn set_length(&mut self, file: FileId, length: u64) -> Result<(), Failed> {
        self.files.set_length(file, length)
    }

    fn close_file(&mut self, file: FileId) -> Result<(), Failed> {
        self.files.close_file(file)
    }

    fn faults(&self, file: FileId) -> u64 {
        self.files.faults(file)
    }

    fn open_faults(&self) -> u64 {
        self.files.open_faults()
    }
}
