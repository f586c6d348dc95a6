ghost use Rattle.std.specs.Prelude.{◌≡◌, ◌+◌, ◌≤◌, ◌<◌, ℕ, length, drop, IsTrue, IfOk, IfSome};
ghost use Rattle.file_traits.specs.State.{content};
ghost use Rattle.host_adapters.specs.Placed.{IsRead};

use file_traits::{Failed, FileId, Files, OpenFault, OpenMode, OutOfMemory, WriteFault};
use std::alloc::Global;

/// How many bytes of a file are read ahead at most.
pub const PAGE: usize = 4096;

/// Files that are read by pages, so that bytes can be taken one by one without a call of the files beneath for each.
/// One page of one file is held. What is read is what those files hold, as long as they are changed by nobody else.
///
/// A read is answered from the page where that has all of its bytes. Else the files are asked, so no end of a file is
/// kept, and no failure. Writes, new lengths, openings and closings go to the files at once. A write, to whichever
/// file, leaves of the page what stands behind its own last place, and each of the others nothing: so a tape can be
/// copied byte by byte, and two files may be one by names that nobody compares.
#[derive(Drop)]
pub struct PagedFiles<F: Files> {
    files: F,
    file: FileId,
    place: u64,
    start: usize,
    count: usize,
    page: Vec<u8>,
    ghost within: { start + count ≤ length page.items },
    ghost read: { IsTrue F.tells → IsRead (content (F.state files) file.0) place count (drop start page.items) },
}

impl<F: Files> PagedFiles<F> {
    /// No page is held. It takes the memory for one at once; where there is none, the files are dropped.
    pub fn new(alloc: Global, files: F) -> Result<PagedFiles<F>, OutOfMemory>
    where
        F: Drop,
        ensures { IfOk result (λ paged. ⟦<PagedFiles<F> as Files>⟧.state paged ≡ F.state files) }
    {
        Ok(PagedFiles {
            files,
            file: FileId(0),
            place: 0,
            start: 0,
            count: 0,
            page: vec![in alloc; 0; PAGE]?,
        })
    }

    /// Where in the page so many bytes of a file begin, if it has them all.
    fn place_of(&self, file: FileId, place: u64, count: usize) -> Option<usize>
        ensures same { IfSome result (λ start. self.now.file ≡ file) }
        ensures place { IfSome result (λ start. place ≡ self.now.place + start) }
        ensures within { IfSome result (λ start. start + count ≤ self.now.count) }
    {
        if file != self.file || place < self.place {
            return None;
        }
        let start = place - self.place;
        if start > self.count as u64 || count > self.count - start as usize {
            return None;
        }
        Some(start as usize)
    }

    /// Keeps of the page only what stands behind so many bytes at a place.
    fn keep_behind(&mut self, place: u64, count: usize)
        ensures files { self.new.files ≡ self.old.files }
        ensures behind { 0 < self.new.count → place + count ≤ self.new.place }
    {
        let Some(end) = place.checked_add(count as u64) else {
            self.count = 0;
            return;
        };
        if end <= self.place {
            return;
        }
        let passed = end - self.place;
        if passed >= self.count as u64 {
            self.count = 0;
            return;
        }
        self.place = end;
        self.start += passed as usize;
        self.count -= passed as usize;
    }
}

impl<F: Files> Files for PagedFiles<F> {
    ghost tells = { F.tells };

    ghost state = { λ paged. F.state paged.files };

    ghost named = { λ tells paged file is_open. F.named tells paged.files file is_open };

    ghost unused = { λ paged. F.unused paged.files };

    fn open_file(
        &mut self,
        alloc: Global,
        name: &str,
        mode: OpenMode,
    ) -> Result<FileId, OpenFault> {
        self.count = 0;
        self.files.open_file(alloc, name, mode)
    }

    fn length(&mut self, file: FileId) -> Result<u64, Failed> {
        self.files.length(file)
    }

    fn read_at(&mut self, file: FileId, place: u64, buf: &mut [u8]) -> Result<usize, Failed> {
        if let Some(start) = self.place_of(file, place, buf.len()) {
            let first = self.start + start;
            buf.copy_from_slice(&self.page[first..first + buf.len()]);
            return Ok(buf.len());
        }
        if buf.len() >= self.page.len() {
            return self.files.read_at(file, place, buf);
        }
        self.count = 0;
        let count = self.files.read_at(file, place, &mut self.page)?;
        self.file = file;
        self.place = place;
        self.start = 0;
        self.count = count;
        let given = count.min(buf.len());
        buf[..given].copy_from_slice(&self.page[..given]);
        Ok(given)
    }

    fn write_at(&mut self, file: FileId, place: u64, bytes: &[u8]) -> Result<(), WriteFault> {
        self.keep_behind(place, bytes.len());
        self.files.write_at(file, place, bytes)
    }

    fn set_length(&mut self, file: FileId, length: u64) -> Result<(), Failed> {
        self.count = 0;
        self.files.set_length(file, length)
    }

    fn close_file(&mut self, file: FileId) -> Result<(), Failed> {
        self.count = 0;
        self.files.close_file(file)
    }

    fn faults(&self, file: FileId) -> u64 {
        self.files.faults(file)
    }

    fn open_faults(&self) -> u64 {
        self.files.open_faults()
    }
}
