// Files in memory of which the writes are counted, and the bytes of these.
use host_files::{Failed, FileId, Files, MemFiles, OpenFault, OpenMode, WriteFault};
use std::alloc::Global;

#[derive(Drop)]
pub struct Counting {
    pub files: MemFiles,
    /// How many calls wrote, whether they failed or not, and how many bytes these were to write.
    pub writes: usize,
    pub bytes: usize,
}

impl Counting {
    pub fn new(files: MemFiles) -> Counting {
        Counting {
            files,
            writes: 0,
            bytes: 0,
        }
    }
}

impl Files for Counting {
    ghost use Rattle.std.specs.Prelude.{true};
    ghost use Rattle.std.proofs.lemmas.List.{get_or_past};
    ghost use Rattle.host_files.specs.MemView.{mem_of};
    ghost use Rattle.host_files.specs.MemFiles.{told_state};
    ghost use Rattle.host_files.specs.Named.{there_named};

    ghost tells = { true };

    ghost state = { λ s. told_state (mem_of s.files) };

    ghost named = { λ tells s file is_open. there_named (mem_of s.files) file s.files.there is_open };

    ghost unused = { λ s file past. get_or_past (mem_of s.files).table.counts file 0 past };

    fn open_file(
        &mut self,
        alloc: Global,
        name: &str,
        mode: OpenMode,
    ) -> Result<FileId, OpenFault> {
        self.files.open_file(alloc, name, mode)
    }

    fn length(&mut self, file: FileId) -> Result<u64, Failed> {
        self.files.length(file)
    }

    fn read_at(&mut self, file: FileId, place: u64, buf: &mut [u8]) -> Result<usize, Failed> {
        self.files.read_at(file, place, buf)
    }

    fn write_at(&mut self, file: FileId, place: u64, bytes: &[u8]) -> Result<(), WriteFault> {
        self.writes = self.writes.saturating_add(1);
        self.bytes = self.bytes.saturating_add(bytes.len());
        self.files.write_at(file, place, bytes)
    }

    fn set_length(&mut self, file: FileId, length: u64) -> Result<(), Failed> {
        self.files.set_length(file, length)
    }

    fn close_file(&mut self, file: FileId) -> Result<(), Failed> {
        self.files.close_file(file)
    }

    fn faults(&self, file: FileId) -> u64 {
        self.files.faults(file)
    }

    fn open_faults(&self) -> u64 {
        self.files.open_faults()
    }
}
