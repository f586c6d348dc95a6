// Sessions over files of which a reading gives one byte, and the next one two: a script of the words, one of DO, a keys file, a
// loader tape and a state are asked for more until nothing comes.
use crate::in_turn::play_over;
use crate::play::{files_of, files_stand};
use crate::row::Row;
use host_files::{Failed, FileId, Files, MemFiles, OpenFault, OpenMode, WriteFault};
use std::alloc::{AllocError, Global};
use std::process::Abort;
use std::test::Fail;

/// Contracts can't name the bytes of these files, as those of real ones.
#[derive(Drop)]
struct ShortReads {
    files: MemFiles,
    /// Whether the next reading gives two bytes.
    gives_two: bool,
}

impl Files for ShortReads {
    ghost use Rattle.std.specs.Prelude.{false, []};
    ghost use Rattle.std.proofs.Common.{sym, true≢false};
    ghost use Rattle.std.proofs.lemmas.List.{get_or_past};
    ghost use Rattle.host_files.specs.MemView.{mem_of};
    ghost use Rattle.host_files.specs.MemFiles.{told_state};

    ghost tells = { false };

    ghost state = { λ s. record (told_state (mem_of s.files)) { files = [] } };

    ghost named = { λ told s file is_open. absurd (true≢false (sym told)) };

    ghost unused = { λ s file past. get_or_past (mem_of s.files).table.counts file 0 past };

    // A missing file is answered as want of memory, since only a failed opening is counted here.
    fn open_file(
        &mut self,
        alloc: Global,
        name: &str,
        mode: OpenMode,
    ) -> Result<FileId, OpenFault> {
        match self.files.open_file(alloc, name, mode) {
            Ok(file) => Ok(file),
            Err(OpenFault::NoFile) => Err(OpenFault::OutOfMemory),
            Err(OpenFault::Failed) => Err(OpenFault::Failed),
            Err(OpenFault::OutOfMemory) => Err(OpenFault::OutOfMemory),
        }
    }

    fn length(&mut self, file: FileId) -> Result<u64, Failed> {
        self.files.length(file)
    }

    fn read_at(&mut self, file: FileId, place: u64, buf: &mut [u8]) -> Result<usize, Failed> {
        let most = if self.gives_two { 2 } else { 1 };
        self.gives_two = !self.gives_two;
        let count = buf.len().min(most);
        self.files.read_at(file, place, &mut buf[..count])
    }

    fn write_at(&mut self, file: FileId, place: u64, bytes: &[u8]) -> Result<(), WriteFault> {
        self.files.write_at(file, place, bytes)
    }

    fn set_length(&mut self, file: FileId, length: u64) -> Result<(), Failed> {
        self.files.set_length(file, length)
    }

    fn close_file(&mut self, file: FileId) -> Result<(), Failed> {
        self.files.close_file(file)
    }

    fn faults(&self, file: FileId) -> u64 {
        self.files.faults(file)
    }

    fn open_faults(&self) -> u64 {
        self.files.open_faults()
    }
}

/// Plays the lines of a table one behind another over the files of its base, each with new units.
fn over_short_reads(
    rt: &impl Abort,
    alloc: Global,
    base: &str,
    table: &str,
) -> Result<(), AllocError> {
    let files = files_of(rt, alloc, Row { base, line: "" })?;
    let mut files = ShortReads {
        files,
        gives_two: false,
    };
    each(rt, alloc, &mut files, base, table)
}

fn each(
    rt: &impl Abort,
    alloc: Global,
    files: &mut ShortReads,
    base: &str,
    table: &str,
) -> Result<(), AllocError> {
    for line in table.lines() {
        let row = Row { base, line };
        play_over(rt, alloc, files, row)?;
        files_stand(rt, alloc, &files.files, row)?;
    }
    Ok(())
}

/// A keys file with a key that is due at 50, and a script that begins another one.
const SCRIPTED: &str =
    "words=-q -k k -l 200 s | space=70000 | before=k:50 \"A\"~ & s:ECHO first~DO d~ & d:ECHO second~";

/// A program is dumped, loaded again and run, and the session saved; another session goes on from there.
const READ: &str =
    "lines=D 100 60110~D 101 400~DUMP t 100-101~DUMP 100-101 t~D 100-101 0~LOAD t~GO 100~E TTI BUF~SAVE work~ | prints=first~second~Invalid number at 5~~Instruction limit, PC: 00101 (000400)~BUF:\t101~ | cells=100:60110 101:400 | after=k:50 \"A\"~ & s:ECHO first~DO d~ & d:ECHO second~
lines=RESTORE work~SHOW TIME~E 100~CONT~E TTI BUF~ | prints=first~second~Time: 200~00100:\t060110~~Instruction limit, PC: 00101 (000400)~BUF:\t101~ | cells=100:60110 101:400";

#[test]
fn files_are_read_to_their_end(rt: HostRuntime) -> Result<(), Fail> {
    over_short_reads(&rt, rt.alloc(), SCRIPTED, READ)?;
    Ok(())
}
