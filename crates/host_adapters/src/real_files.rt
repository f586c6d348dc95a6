ghost use Rattle.std.specs.Prelude.{◌≡◌, ◌≢◌, ◌↔◌, ◌<◌, [], length, string_bytes, IfErr, false};
ghost use Rattle.file_traits.specs.declared.files.OpenFault.TheVariants.{NoFile, OutOfMemory as no_memory};
ghost use Rattle.fault_counts.specs.Faults.{raised};
ghost use Rattle.file_traits.specs.FileCalls.{Opens, FailsBehindLast};
ghost use Rattle.host_adapters.specs.RealFiles.{options_for, untold_state};

use crate::positioned::{read_whole, write_whole};
use fault_counts::raised_count;
use host_files::{Failed, FileId, Files, OpenFault, OpenMode, OpenTable, OutOfMemory, WriteFault};
use std::alloc::Global;
use std::fs::{OpenFile, OpenOptions};
use std::io::ErrorKind;
use std::marker::Model;
use std::os::unix::fs::FileExt;
use std::rt::Files as System;

/// The files of a system, by their paths. Their bytes are not told. Each call that fails raises the count of its file,
/// and each opening that fails the count of openings, an opening that finds no file among them.
///
/// A call that a signal cuts short is made again, up to 64 times in a row. A folder is not opened. A pipe, a terminal
/// or another device that was opened to be read only has no length, since the system says 0 of what has bytes: `length`
/// fails. What the system meets where it closes a file is not told: closing does not fail.
#[derive(Drop)]
pub struct RealFiles<R: System + Drop> {
    system: R,
    table: OpenTable<Opened<R::File>>,
    open_faults: u64,
}

/// An open file, and whether what the system says of its length can be believed.
#[derive(Drop)]
struct Opened<F: Drop> {
    handle: F,
    has_length: bool,
}

impl<R: System + Drop> Model for RealFiles<R> {
    ghost use Rattle.host_adapters.specs.RealFiles.{RealState};

    ghost Value = { RealState };

    ghost view = { λ f. record { table = f.table; open_faults = f.open_faults } };
}

impl<R: System + Drop> RealFiles<R> {
    /// Nothing is open, and no call has failed.
    pub fn new(alloc: Global, system: R) -> RealFiles<R>
        ensures { result ≡ record { table = record { opened = []; counts = [] }; open_faults = 0 } }
    {
        RealFiles {
            system,
            table: OpenTable::new(alloc),
            open_faults: 0,
        }
    }

    /// Opens a file, and counts no fault. The memory for its name and its place in the table is taken first, so that a
    /// want of it neither makes nor empties a file.
    fn open_uncounted(
        &mut self,
        alloc: Global,
        name: &str,
        mode: OpenMode,
    ) -> Result<FileId, OpenFault>
        ensures opens { Opens false (untold_state self.old) (untold_state self.new) name.now mode result }
        ensures counts { (untold_state self.new).faults ≡ (untold_state self.old).faults }
        ensures openings { self.new.open_faults ≡ self.old.open_faults }
        ensures last { FailsBehindLast (untold_state self.old) result }
    {
        if self.table.is_full() {
            return Err(OpenFault::Failed);
        }
        match String::from_str(alloc, name) {
            Ok(text) => self.open_named(text, mode),
            Err(OutOfMemory) => Err(OpenFault::OutOfMemory),
        }
    }

    /// The same of a name whose memory was taken, where an id is left.
    fn open_named(&mut self, name: String, mode: OpenMode) -> Result<FileId, OpenFault>
        requires { length self.old.table.counts < 4294967296 }
        ensures opens { Opens false (untold_state self.old) (untold_state self.new) (string_bytes name) mode result }
        ensures counts { (untold_state self.new).faults ≡ (untold_state self.old).faults }
        ensures openings { self.new.open_faults ≡ self.old.open_faults }
    {
        match self.table.reserve() {
            Ok(()) => {}
            Err(OutOfMemory) => return Err(OpenFault::OutOfMemory),
        }
        let opened = open_path(&self.system, name.as_str(), mode)?;
        match self.table.add(name, mode, opened) {
            Ok(file) => Ok(file),
            Err(OutOfMemory) => Err(OpenFault::OutOfMemory),
        }
    }

    /// Counts an opening that failed.
    fn count_opening(&mut self)
        ensures { self.new ≡ record self.old { open_faults = raised self.old.open_faults } }
    {
        self.open_faults = raised_count(self.open_faults);
    }
}

impl<R: System + Drop> Files for RealFiles<R>
where
    R::File: FileExt,
{
    ghost use Rattle.std.specs.Prelude.{false};
    ghost use Rattle.std.proofs.lemmas.List.{get_or_past};
    ghost use Rattle.host_adapters.specs.RealFiles.{untold};

    ghost tells = { false };

    ghost state = { λ f. untold_state f };

    ghost named = { λ tells f file is_open. untold tells };

    ghost unused = { λ f file past. get_or_past f.table.counts file 0 past };

    fn open_file(
        &mut self,
        alloc: Global,
        name: &str,
        mode: OpenMode,
    ) -> Result<FileId, OpenFault> {
        let result = self.open_uncounted(alloc, name, mode);
        if matches!(result, Err(OpenFault::NoFile | OpenFault::Failed)) {
            self.count_opening();
        }
        result
    }

    fn length(&mut self, file: FileId) -> Result<u64, Failed> {
        match length_of(self.table.handle(file).unwrap()) {
            Some(length) => Ok(length),
            None => {
                self.table.raise(file);
                Err(Failed)
            }
        }
    }

    fn read_at(&mut self, file: FileId, place: u64, buf: &mut [u8]) -> Result<usize, Failed> {
        match read_whole(&&self.table.handle(file).unwrap().handle, place, buf) {
            Ok(count) => Ok(count),
            Err(_) => {
                self.table.raise(file);
                Err(Failed)
            }
        }
    }

    fn write_at(&mut self, file: FileId, place: u64, bytes: &[u8]) -> Result<(), WriteFault> {
        let mut handle = &self.table.handle(file).unwrap().handle;
        match write_whole(&mut handle, place, bytes) {
            Ok(()) => Ok(()),
            Err(fault) => {
                self.table.raise(file);
                Err(fault)
            }
        }
    }

    fn set_length(&mut self, file: FileId, length: u64) -> Result<(), Failed> {
        match self.table.handle(file).unwrap().handle.set_len(length) {
            Ok(()) => Ok(()),
            Err(_) => {
                self.table.raise(file);
                Err(Failed)
            }
        }
    }

    fn close_file(&mut self, file: FileId) -> Result<(), Failed> {
        self.table.remove(file);
        Ok(())
    }

    fn faults(&self, file: FileId) -> u64 {
        self.table.count(file)
    }

    fn open_faults(&self) -> u64 {
        self.open_faults
    }
}

/// Opens a path. A folder, which the system opens to be read, is refused here, and so is what does not say what it is.
fn open_path<R: System>(
    system: &R,
    name: &str,
    mode: OpenMode,
) -> Result<Opened<R::File>, OpenFault>
where
    R::File: Drop,
    ensures { IfErr result (λ fault. fault ≢ no_memory) }
{
    let handle = match options_for(mode).open(system, name) {
        Ok(handle) => handle,
        Err(error) => return Err(opening_fault(error.kind())),
    };
    if mode != OpenMode::Read {
        return Ok(Opened {
            handle,
            has_length: true,
        });
    }
    match handle.metadata() {
        Ok(metadata) => {
            if metadata.is_dir() {
                return Err(OpenFault::Failed);
            }
            Ok(Opened {
                handle,
                has_length: metadata.is_file(),
            })
        }
        Err(_) => Err(OpenFault::Failed),
    }
}

/// The length of an open file in bytes, where the system says one that can be believed.
fn length_of<F: OpenFile + Drop>(file: &Opened<F>) -> Option<u64> {
    if !file.has_length {
        return None;
    }
    match file.handle.metadata() {
        Ok(metadata) => Some(metadata.len()),
        Err(_) => None,
    }
}

/// How a file is opened.
fn options_for(mode: OpenMode) -> OpenOptions
    ensures { result ≡ options_for mode }
{
    let mut options = OpenOptions::new();
    options.read(true);
    match mode {
        OpenMode::Read => {}
        OpenMode::Update => {
            options.write(true);
        }
        OpenMode::Create => {
            options.write(true);
            options.create(true);
            options.truncate(true);
        }
    }
    options
}

/// What an opening that met that error answers.
fn opening_fault(kind: ErrorKind) -> OpenFault
    ensures missing { (result ≡ NoFile) ↔ (kind ≡ ErrorKind.NotFound) }
    ensures memory { result ≢ no_memory }
{
    if kind == ErrorKind::NotFound {
        OpenFault::NoFile
    } else {
        OpenFault::Failed
    }
}
