ghost use Rattle.std.specs.Prelude.{ℕ, ◌≡◌, ◌≢◌, ◌<◌, ◌≤◌, ◌↔◌, ◌||◌, nat_lt, is_some, take, option_map, IfSome, IfErr, IsErr, Err, [], ◌∷◌, ◌++◌, map, length, All, IsTrue, IsSome, IfOk, OnOk, OnErr, None, Some, true, false};
ghost use Rattle.file_traits.specs.declared.files.OpenMode.TheVariants.{Create};
ghost use Rattle.file_traits.specs.Lists.{find_file, with_file, changed, overwritten, resized};
ghost use Rattle.file_traits.specs.State.{IsOpen, IsWritable, content, name_at, opened_at, without};
ghost use Rattle.file_traits.specs.FileCalls.{Counted, Opens, Reads, opening_count, written_count, FailsBehindLast};
ghost use Rattle.host_files.specs.MemFiles.{MemState, are_there, HasRoom, named_of, told_state, next_fails, begun, with_failing, opening_failed, opening_fails, has_room, write_result};
ghost use Rattle.host_files.specs.Named.{there_named};
ghost use Rattle.file_traits.specs.Streams.{LeavesFree};

use crate::failing::Failing;
use crate::mem_file::{
    MemFile, filled_file, new_file, place_of_name, push_file, read_from, resize_file, write_file,
};
use crate::open_table::OpenTable;
use fault_counts::raised_count;
use file_traits::{Failed, FileId, Files, OpenFault, OpenMode, WriteFault};
use std::alloc::{AllocError, Global};

/// Files in memory, each with room for so many bytes. Calls are numbered from 0, and those that were named fail.
#[derive(Drop)]
pub struct MemFiles {
    files: Vec<MemFile>,
    room: u64,
    table: OpenTable<()>,
    calls: Failing,
    open_faults: u64,
    alloc: Global,
    ghost there: { IsTrue (are_there (map named_of files.items) table.opened) },
    ghost rooms: { All (HasRoom room) files.items },
}

/// Why bytes were not put into a file or a list in memory. Nothing has changed.
#[derive(Clone, Copy, Debug, PartialEq, Eq)]
pub enum AddFault {
    /// They are longer than the room for them.
    TooLong,
    OutOfMemory,
}

impl MemFiles {
    ghost use Rattle.host_files.specs.MemView.{mem_of, no_files, is_too_long};

    /// No file, and no call that is to fail. Each file that is made or added takes so many bytes of memory at once.
    pub fn with_room(alloc: Global, room: u64) -> Result<MemFiles, AllocError>
        ensures { IfOk result (λ m. mem_of m ≡ no_files room) }
    {
        Ok(MemFiles {
            files: Vec::new(alloc),
            room,
            table: OpenTable::new(alloc),
            calls: Failing::new(alloc),
            open_faults: 0,
            alloc,
        })
    }

    /// Names a call of `Files` that is to fail, by its number. Where it is a write, it writes so many first bytes of
    /// its piece, or all where the piece is shorter, if they have room. A number that was named before, or whose call
    /// has passed, changes nothing, and neither does a call that finds no memory.
    pub fn fail_call(&mut self, number: u64, done: usize) -> Result<(), AllocError>
        ensures ok { OnOk result (mem_of self.new ≡ record (mem_of self.old) { calls = with_failing self.old.calls number done }) }
        ensures refused { OnErr result (mem_of self.new ≡ mem_of self.old) }
    {
        self.calls.fail_call(number, done)
    }

    /// The bytes of the file of that name; none where there is no such file.
    pub fn file_bytes(&self, name: &str) -> Option<&[u8]>
        ensures { option_map (λ b. b.now) result ≡ find_file (mem_of self.now).files name.now }
    {
        match place_of_name(self.files.as_slice(), name) {
            Some(i) => Some(self.files[i].bytes.as_slice()),
            None => None,
        }
    }

    /// Adds a file, or puts other bytes into the one of that name.
    pub fn add_file(&mut self, name: &str, bytes: &[u8]) -> Result<(), AddFault>
        ensures added { OnOk result (mem_of self.new ≡ record (mem_of self.old) { files = with_file (mem_of self.old).files name.now bytes.now }) }
        ensures long { is_too_long result ≡ nat_lt self.old.room (length bytes.now) }
        ensures refused { OnErr result (mem_of self.new ≡ mem_of self.old) }
    {
        if bytes.len() as u64 > self.room {
            return Err(AddFault::TooLong);
        }
        if place_of_name(self.files.as_slice(), name).is_some() {
            resize_file(&mut self.files, self.room, name, 0);
            write_file(&mut self.files, self.room, name, 0, bytes);
            return Ok(());
        }
        let made = match filled_file(self.alloc, name, self.room, bytes) {
            Err(AllocError) => return Err(AddFault::OutOfMemory),
            Ok(made) => made,
        };
        match push_file(&mut self.files, self.room, made) {
            Err(AllocError) => Err(AddFault::OutOfMemory),
            Ok(()) => Ok(()),
        }
    }
}

impl MemFiles {
    ghost use Rattle.host_files.specs.MemView.{mem_of};

    /// Writes a piece into an open file, where it has room for it, and answers whether it has.
    fn store(&mut self, file: FileId, place: u64, piece: &[u8]) -> bool
        ensures written { result ≡ true → map named_of self.new.files.items
            ≡ changed (map named_of self.old.files.items) (name_at self.old.table.opened file.0) (λ old. overwritten old place piece.now) }
        ensures same { result ≡ false → self.new.files ≡ self.old.files }
        ensures room { result ≡ has_room self.old.room place (length piece.now) }
        ensures stays { self.new.room ≡ self.old.room }
        ensures table { self.new.table ≡ self.old.table }
        ensures calls { self.new.calls ≡ self.old.calls }
        ensures open_faults { self.new.open_faults ≡ self.old.open_faults }
    {
        if place > self.room || self.room - place < piece.len() as u64 {
            return false;
        }
        let name = self.table.name(file);
        write_file(&mut self.files, self.room, name, place as usize, piece);
        true
    }

    /// Keeps a new opening of a file that is there.
    fn add(&mut self, alloc: Global, name: &str, mode: OpenMode) -> Result<FileId, AllocError>
        requires full { length self.old.table.counts < 4294967296 }
        requires there { IsSome (find_file (map named_of self.old.files.items) name.now) }
        ensures file { IfOk result (λ id. id.0 ≡ length self.old.table.counts) }
        ensures opened { IfOk result (λ id. self.new.table.opened
            ≡ record { file = id.0; name = name.now; mode = mode } ∷ self.old.table.opened) }
        ensures fresh { OnOk result (opened_at self.old.table.opened (length self.old.table.counts) ≡ None) }
        ensures counts { OnOk result (self.new.table.counts ≡ self.old.table.counts ++ 0 ∷ []) }
        ensures refused { OnErr result (self.new.table ≡ self.old.table) }
        ensures files { self.new.files ≡ self.old.files }
        ensures room { self.new.room ≡ self.old.room }
        ensures calls { self.new.calls ≡ self.old.calls }
        ensures open_faults { self.new.open_faults ≡ self.old.open_faults }
    {
        let text = String::from_str(alloc, name)?;
        self.table.add(text, mode, ())
    }

    /// Opens a file that is to be there.
    fn reopen(&mut self, alloc: Global, name: &str, mode: OpenMode) -> Result<FileId, OpenFault>
        requires full { length self.old.table.counts < 4294967296 }
        requires mode { mode ≢ Create }
        ensures opens { Opens true (told_state (mem_of self.old)) (told_state (mem_of self.new)) name.now mode result }
        ensures counts { (told_state (mem_of self.new)).faults ≡ (told_state (mem_of self.old)).faults }
        ensures exact { opening_failed result ≡ false }
        ensures ids { IfOk result (λ id. id.0 ≡ length self.old.table.counts) }
        ensures stays { self.new.room ≡ self.old.room }
        ensures calls { self.new.calls ≡ self.old.calls }
        ensures open_faults { self.new.open_faults ≡ self.old.open_faults }
    {
        if place_of_name(self.files.as_slice(), name).is_none() {
            return Err(OpenFault::NoFile);
        }
        match self.add(alloc, name, mode) {
            Ok(file) => Ok(file),
            Err(AllocError) => Err(OpenFault::OutOfMemory),
        }
    }

    /// Opens a file that is made, or emptied.
    fn create(&mut self, alloc: Global, name: &str) -> Result<FileId, OpenFault>
        requires full { length self.old.table.counts < 4294967296 }
        ensures opens { Opens true (told_state (mem_of self.old)) (told_state (mem_of self.new)) name.now Create result }
        ensures counts { (told_state (mem_of self.new)).faults ≡ (told_state (mem_of self.old)).faults }
        ensures exact { opening_failed result ≡ false }
        ensures ids { IfOk result (λ id. id.0 ≡ length self.old.table.counts) }
        ensures stays { self.new.room ≡ self.old.room }
        ensures calls { self.new.calls ≡ self.old.calls }
        ensures open_faults { self.new.open_faults ≡ self.old.open_faults }
    {
        if place_of_name(self.files.as_slice(), name).is_none() {
            return self.make(alloc, name);
        }
        match self.add(alloc, name, OpenMode::Create) {
            Ok(file) => {
                resize_file(&mut self.files, self.room, name, 0);
                Ok(file)
            }
            Err(AllocError) => Err(OpenFault::OutOfMemory),
        }
    }

    /// Opens a file that is made.
    fn make(&mut self, alloc: Global, name: &str) -> Result<FileId, OpenFault>
        requires full { length self.old.table.counts < 4294967296 }
        requires missing { find_file (map named_of self.old.files.items) name.now ≡ None }
        ensures opens { Opens true (told_state (mem_of self.old)) (told_state (mem_of self.new)) name.now Create result }
        ensures counts { (told_state (mem_of self.new)).faults ≡ (told_state (mem_of self.old)).faults }
        ensures exact { opening_failed result ≡ false }
        ensures ids { IfOk result (λ id. id.0 ≡ length self.old.table.counts) }
        ensures stays { self.new.room ≡ self.old.room }
        ensures calls { self.new.calls ≡ self.old.calls }
        ensures open_faults { self.new.open_faults ≡ self.old.open_faults }
    {
        let made = match new_file(alloc, name, self.room) {
            Err(AllocError) => return Err(OpenFault::OutOfMemory),
            Ok(made) => made,
        };
        match push_file(&mut self.files, self.room, made) {
            Err(AllocError) => Err(OpenFault::OutOfMemory),
            Ok(()) => match self.add(alloc, name, OpenMode::Create) {
                Ok(file) => Ok(file),
                Err(AllocError) => {
                    let _ = self.files.pop();
                    Err(OpenFault::OutOfMemory)
                }
            },
        }
    }
}

impl Files for MemFiles {
    ghost use Rattle.std.proofs.lemmas.List.{get_or_past};
    ghost use Rattle.host_files.specs.MemView.{mem_of};

    ghost tells = { true };

    ghost state = { λ s. told_state (mem_of s) };

    ghost named = { λ tells s file is_open. there_named (mem_of s) file s.there is_open };

    ghost unused = { λ s file past. get_or_past s.table.counts file 0 past };

    fn open_file(&mut self, alloc: Global, name: &str, mode: OpenMode) -> Result<FileId, OpenFault>
        ensures opens { Opens true (told_state (mem_of self.old)) (told_state (mem_of self.new)) name.now mode result }
        ensures counts { (told_state (mem_of self.new)).faults ≡ (told_state (mem_of self.old)).faults }
        ensures openings { (told_state (mem_of self.new)).open_faults ≡ opening_count true (told_state (mem_of self.old)) result }
        ensures last { FailsBehindLast (told_state (mem_of self.old)) result }
        ensures ids { IfOk result (λ id. id.0 ≡ length self.old.table.counts) }
        ensures exact { opening_failed result ≡ opening_fails (mem_of self.old) }
        ensures calls { self.new.calls ≡ begun self.old.calls }
        ensures room { self.new.room ≡ self.old.room }
    {
        if self.calls.begin().is_some() || self.table.is_full() {
            self.open_faults = raised_count(self.open_faults);
            return Err(OpenFault::Failed);
        }
        match mode {
            OpenMode::Create => self.create(alloc, name),
            OpenMode::Read => self.reopen(alloc, name, OpenMode::Read),
            OpenMode::Update => self.reopen(alloc, name, OpenMode::Update),
        }
    }

    fn length(&mut self, file: FileId) -> Result<u64, Failed>
        requires { IsOpen (told_state (mem_of self.old)) file.0 }
        ensures length { IfOk result (λ n. n ≡ length (content (told_state (mem_of self.old)) file.0)) }
        ensures files { (told_state (mem_of self.new)).files ≡ (told_state (mem_of self.old)).files }
        ensures opened { (told_state (mem_of self.new)).opened ≡ (told_state (mem_of self.old)).opened }
        ensures counted { Counted file.0 (told_state (mem_of self.old)) (told_state (mem_of self.new)) result }
        ensures exact { IsErr result ↔ IsSome (next_fails self.old.calls) }
        ensures calls { self.new.calls ≡ begun self.old.calls }
        ensures room { self.new.room ≡ self.old.room }
    {
        if self.calls.begin().is_some() {
            self.table.raise(file);
            return Err(Failed);
        }
        match place_of_name(self.files.as_slice(), self.table.name(file)) {
            Some(i) => Ok(self.files[i].bytes.len() as u64),
            None => Ok(0),
        }
    }

    fn read_at(&mut self, file: FileId, place: u64, buf: &mut [u8]) -> Result<usize, Failed>
        requires { IsOpen (told_state (mem_of self.old)) file.0 }
        ensures bound { IfOk result (λ n. n ≤ length buf.new) }
        ensures lent { LeavesFree result buf.old buf.new }
        ensures kept { OnErr result (buf.new ≡ buf.old) }
        ensures reads { Reads (content (told_state (mem_of self.old)) file.0) place result buf.new }
        ensures files { (told_state (mem_of self.new)).files ≡ (told_state (mem_of self.old)).files }
        ensures opened { (told_state (mem_of self.new)).opened ≡ (told_state (mem_of self.old)).opened }
        ensures counted { Counted file.0 (told_state (mem_of self.old)) (told_state (mem_of self.new)) result }
        ensures exact { IsErr result ↔ IsSome (next_fails self.old.calls) }
        ensures calls { self.new.calls ≡ begun self.old.calls }
        ensures room { self.new.room ≡ self.old.room }
    {
        if self.calls.begin().is_some() {
            self.table.raise(file);
            return Err(Failed);
        }
        match place_of_name(self.files.as_slice(), self.table.name(file)) {
            Some(i) => Ok(read_from(self.files[i].bytes.as_slice(), place, buf)),
            None => Ok(0),
        }
    }

    fn close_file(&mut self, file: FileId) -> Result<(), Failed>
        requires { IsOpen (told_state (mem_of self.old)) file.0 }
        ensures files { (told_state (mem_of self.new)).files ≡ (told_state (mem_of self.old)).files }
        ensures closed { (told_state (mem_of self.new)).opened ≡ without (told_state (mem_of self.old)).opened file.0 }
        ensures counted { Counted file.0 (told_state (mem_of self.old)) (told_state (mem_of self.new)) result }
        ensures exact { IsErr result ↔ IsSome (next_fails self.old.calls) }
        ensures calls { self.new.calls ≡ begun self.old.calls }
        ensures room { self.new.room ≡ self.old.room }
    {
        let fails = self.calls.begin().is_some();
        if fails {
            self.table.raise(file);
        }
        self.table.remove(file);
        if fails { Err(Failed) } else { Ok(()) }
    }

    fn write_at(&mut self, file: FileId, place: u64, bytes: &[u8]) -> Result<(), WriteFault>
        requires open { IsOpen (told_state (mem_of self.old)) file.0 }
        requires writable { IsWritable (told_state (mem_of self.old)) file.0 }
        ensures bound { IfErr result (λ f. f.done ≤ length bytes.now) }
        ensures files { (told_state (mem_of self.new)).files ≡ changed (told_state (mem_of self.old)).files (name_at (told_state (mem_of self.old)).opened file.0)
            (λ old. overwritten old place (take (written_count result bytes.now) bytes.now)) }
        ensures opened { (told_state (mem_of self.new)).opened ≡ (told_state (mem_of self.old)).opened }
        ensures counted { Counted file.0 (told_state (mem_of self.old)) (told_state (mem_of self.new)) result }
        ensures exact { result ≡ write_result (mem_of self.old) place (length bytes.now) }
        ensures calls { self.new.calls ≡ begun self.old.calls }
        ensures room { self.new.room ≡ self.old.room }
    {
        match self.calls.begin() {
            None => {
                if self.store(file, place, bytes) {
                    return Ok(());
                }
                self.table.raise(file);
                Err(WriteFault { done: 0 })
            }
            Some(done) => {
                let count = done.min(bytes.len());
                let stored = self.store(file, place, &bytes[..count]);
                self.table.raise(file);
                Err(WriteFault {
                    done: if stored { count } else { 0 },
                })
            }
        }
    }

    fn set_length(&mut self, file: FileId, length: u64) -> Result<(), Failed>
        requires open { IsOpen (told_state (mem_of self.old)) file.0 }
        requires writable { IsWritable (told_state (mem_of self.old)) file.0 }
        ensures set { OnOk result ((told_state (mem_of self.new)).files
            ≡ changed (told_state (mem_of self.old)).files (name_at (told_state (mem_of self.old)).opened file.0) (λ old. resized old length)) }
        ensures same { OnErr result ((told_state (mem_of self.new)).files ≡ (told_state (mem_of self.old)).files) }
        ensures opened { (told_state (mem_of self.new)).opened ≡ (told_state (mem_of self.old)).opened }
        ensures counted { Counted file.0 (told_state (mem_of self.old)) (told_state (mem_of self.new)) result }
        ensures exact { IsErr result ↔ IsTrue (is_some (next_fails self.old.calls) || nat_lt self.old.room length) }
        ensures calls { self.new.calls ≡ begun self.old.calls }
        ensures room { self.new.room ≡ self.old.room }
    {
        if self.calls.begin().is_some() || length > self.room {
            self.table.raise(file);
            return Err(Failed);
        }
        let name = self.table.name(file);
        resize_file(&mut self.files, self.room, name, length as usize);
        Ok(())
    }

    fn faults(&self, file: FileId) -> u64 {
        self.table.count(file)
    }

    fn open_faults(&self) -> u64 {
        self.open_faults
    }
}
