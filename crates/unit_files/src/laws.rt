ghost use Rattle.unit_files.specs.Laws.{DigestsAreOfTheFile, FlushesLeaveTheCopy};
ghost use Rattle.unit_files.specs.Laws.{SectorsMarkTheirPages, SectorsReadBack};

/// The law that a writing back leaves in the disk's file what was written of the marked pages, and outside them what it
/// had there: exactly the copy in a file that was the copy there, where the write does not fail.
pub fn flushes_leave_the_copy()
    ensures { FlushesLeaveTheCopy }
{}

/// The law that a sector which is written is read back, and every other one is read as before.
pub fn sectors_read_back()
    ensures { SectorsReadBack }
{}

/// The law that a writing back which would leave the copy in the disk's file does so too once a sector was written: the
/// pages are marked in which that changes a byte.
pub fn sectors_mark_their_pages()
    ensures { SectorsMarkTheirPages }
{}

/// The law that the digest of a unit's file, where no call fails, is that of the bytes which the file has once the
/// disk's copy is written back: of that copy in a file that was the copy outside the marked pages. A second digest says
/// the same.
pub fn digests_are_of_the_file()
    ensures { DigestsAreOfTheFile }
{}
