ghost use Rattle.std.specs.Prelude.{Some};
ghost use Rattle.file_traits.specs.State.{IsOpen, content, is_writable};
ghost use Rattle.file_traits.specs.OneList.{masked};

use crate::files::{FileId, Files, WriteFault};
use crate::one_list::Bytes;
use crate::streams::Failed;

/// How many bytes of a list may be read.
const LONGEST: u64 = 67_108_864;

/// An open file as one list of bytes. It shows the first 67108864 bytes of the file.
#[derive(Drop)]
pub struct OneFile<'a, F: Files> {
    pub files: &'a mut F,
    pub file: FileId,
    ghost is_open: { IsOpen (F.state files.now) file.0 },
}

impl<'a, F: Files> Bytes for OneFile<'a, F> {
    ghost tells = { F.tells };

    ghost content = { λ s. content (F.state s.files.now) s.file.0 };

    ghost writable = { λ s. is_writable (F.state s.files.now) s.file.0 };

    ghost fault_count = { λ s. (F.state s.files.now).faults s.file.0 };

    ghost behind = { λ s. record { lender = Some s.files.ghost_name; file = s.file.0; state = masked (F.state s.files.now) s.file.0 } };

    fn length(&mut self) -> Result<u64, Failed> {
        let length = self.files.length(self.file)?;
        Ok(length.min(LONGEST))
    }

    fn read_at(&mut self, place: u64, buf: &mut [u8]) -> Result<usize, Failed> {
        if place >= LONGEST {
            return Ok(0);
        }
        let most = LONGEST - place;
        if (buf.len() as u64) <= most {
            self.files.read_at(self.file, place, buf)
        } else {
            self.files
                .read_at(self.file, place, &mut buf[..most as usize])
        }
    }

    fn write_at(&mut self, place: u64, bytes: &[u8]) -> Result<(), WriteFault> {
        self.files.write_at(self.file, place, bytes)
    }

    fn set_length(&mut self, length: u64) -> Result<(), Failed> {
        self.files.set_length(self.file, length)
    }

    fn faults(&self) -> u64 {
        self.files.faults(self.file)
    }
}
