// A system whose files do what a test writes down.
use std::alloc::Allocator;
use std::cell::Cell;
use std::fs::{Metadata, OpenFile, OpenOptions};
use std::io;
use std::io::{ErrorKind, Read, Seek, SeekFrom, Write};
use std::os::unix::fs::FileExt;
use std::rt::Files as System;

/// What the next call on a file does, or so many calls in a row, if it is for that place or length. For another one it
/// fails.
#[derive(Clone, Copy)]
pub enum Step {
    /// A read gives so many bytes, each of which is the low eight bits of its place.
    Give(u64, usize),
    /// A write takes so many bytes, or a length is set.
    Take(u64, usize),
    Fail(u64, ErrorKind, u32),
    /// A read gives nothing, a write takes nothing, and no length is set.
    End,
}

impl Step {
    fn is_for(&self, place: u64) -> bool {
        match *self {
            Step::Give(wanted, _) | Step::Take(wanted, _) | Step::Fail(wanted, _, _) => {
                wanted == place
            }
            Step::End => true,
        }
    }
}

/// A system with one file, which does these steps in turn, and then takes and gives nothing.
#[derive(Clone, Copy)]
pub struct Scripted {
    pub opening: Option<ErrorKind>,
    pub is_folder: bool,
    pub length: Option<u64>,
    pub steps: [Step; 3],
}

#[derive(Drop)]
pub struct ScriptedFile {
    is_folder: bool,
    length: Option<u64>,
    steps: [Step; 3],
    at: Cell<usize>,
    failed: Cell<u32>,
}

impl ScriptedFile {
    /// Whether a call for that place or length succeeds, and with what.
    fn next(&self, place: u64) -> io::Result<Step> {
        let at = self.at.get();
        let step = match self.steps.get(at) {
            Some(step) => *step,
            None => return Ok(Step::End),
        };
        if !step.is_for(place) {
            return Err(io::Error::from(ErrorKind::Other));
        }
        if let Step::Fail(_, kind, times) = step {
            self.failed.set(self.failed.get().saturating_add(1));
            if self.failed.get() >= times {
                self.at.set(at + 1);
                self.failed.set(0);
            }
            return Err(io::Error::from(kind));
        }
        self.at.set(at + 1);
        Ok(step)
    }
}

impl FileExt for ScriptedFile {
    fn read_at(&self, buf: &mut [u8], offset: u64) -> io::Result<usize> {
        match self.next(offset)? {
            Step::Give(place, count) => {
                let count = count.min(buf.len());
                let mut next = place;
                for byte in buf[..count].iter_mut() {
                    *byte = (next & 0xff) as u8;
                    next = next.wrapping_add(1);
                }
                Ok(count)
            }
            _ => Ok(0),
        }
    }

    fn write_at(&self, buf: &[u8], offset: u64) -> io::Result<usize> {
        match self.next(offset)? {
            Step::Take(_, count) => Ok(count.min(buf.len())),
            _ => Ok(0),
        }
    }
}

impl OpenFile for ScriptedFile {
    fn metadata(&self) -> io::Result<Metadata> {
        match self.length {
            Some(_) if self.is_folder => Ok(Metadata::of_dir()),
            Some(length) => Ok(Metadata::of_file(length)),
            None => Err(io::Error::from(ErrorKind::Other)),
        }
    }

    fn set_len(&self, size: u64) -> io::Result<()> {
        match self.next(size)? {
            Step::Take(_, _) => Ok(()),
            _ => Err(io::Error::from(ErrorKind::Other)),
        }
    }

    fn sync_all(&self) -> io::Result<()> {
        Err(io::Error::from(ErrorKind::Unsupported))
    }

    fn sync_data(&self) -> io::Result<()> {
        Err(io::Error::from(ErrorKind::Unsupported))
    }
}

impl Read for ScriptedFile {
    fn read(&mut self, _buf: &mut [u8]) -> io::Result<usize> {
        Err(io::Error::from(ErrorKind::Unsupported))
    }
}

impl Write for ScriptedFile {
    fn write(&mut self, _buf: &[u8]) -> io::Result<usize> {
        Err(io::Error::from(ErrorKind::Unsupported))
    }

    fn flush(&mut self) -> io::Result<()> {
        Err(io::Error::from(ErrorKind::Unsupported))
    }
}

impl Seek for ScriptedFile {
    fn seek(&mut self, _to: SeekFrom) -> io::Result<u64> {
        Err(io::Error::from(ErrorKind::Unsupported))
    }
}

impl System for Scripted {
    type File = ScriptedFile;

    type Dir = ScriptedFile;

    fn open_file(&self, how: &OpenOptions, _path: &str) -> io::Result<ScriptedFile> {
        how.check()?;
        match self.opening {
            Some(kind) => Err(io::Error::from(kind)),
            None => Ok(ScriptedFile {
                is_folder: self.is_folder,
                length: self.length,
                steps: self.steps,
                at: Cell::new(0),
                failed: Cell::new(0),
            }),
        }
    }

    fn open_dir(&self, _path: &str) -> io::Result<ScriptedFile> {
        Err(io::Error::from(ErrorKind::Unsupported))
    }

    fn metadata(&self, _path: &str) -> io::Result<Metadata> {
        Err(io::Error::from(ErrorKind::Unsupported))
    }

    fn symlink_metadata(&self, _path: &str) -> io::Result<Metadata> {
        Err(io::Error::from(ErrorKind::Unsupported))
    }

    fn copy(&self, _from: &str, _to: &str) -> io::Result<u64> {
        Err(io::Error::from(ErrorKind::Unsupported))
    }

    fn rename(&self, _from: &str, _to: &str) -> io::Result<()> {
        Err(io::Error::from(ErrorKind::Unsupported))
    }

    fn remove_file(&self, _path: &str) -> io::Result<()> {
        Err(io::Error::from(ErrorKind::Unsupported))
    }

    fn create_dir(&self, _path: &str) -> io::Result<()> {
        Err(io::Error::from(ErrorKind::Unsupported))
    }

    fn remove_dir(&self, _path: &str) -> io::Result<()> {
        Err(io::Error::from(ErrorKind::Unsupported))
    }

    fn remove_dir_all<B: Allocator>(&self, _alloc: B, _path: &str) -> io::Result<()> {
        Err(io::Error::from(ErrorKind::Unsupported))
    }
}
