ghost use Rattle.std.specs.Prelude.{◌≡◌, ◌≤◌, Err};
ghost use Rattle.fault_counts.specs.Faults.{raised};
ghost use Rattle.file_traits.specs.declared.files.OpenFault.TheVariants as faults;
ghost use Rattle.file_traits.specs.FileCalls.{UnusedIdsAreUncounted, id_count};

use crate::files::{FileId, Files, OpenFault, OpenMode};
use std::alloc::Global;

/// The law that the count of an id that was never given is 0, for all files.
pub fn counts_begin_with_ids<F: Files>()
    ensures { (files : F) → UnusedIdsAreUncounted (F.state files) }
{}

/// The law that an opening fails and is counted where every id was given, for all files. It makes the opening.
pub fn openings_end_with_ids<F: Files>(
    alloc: Global,
    name: &str,
    mode: OpenMode,
    files: &mut F,
) -> Result<FileId, OpenFault>
    ensures failed { id_count ≤ (F.state files.old).given → result ≡ Err faults.Failed }
    ensures counted { id_count ≤ (F.state files.old).given
        → (F.state files.new).open_faults ≡ raised (F.state files.old).open_faults }
    ensures opened { id_count ≤ (F.state files.old).given
        → (F.state files.new).opened ≡ (F.state files.old).opened }
{
    files.open_file(alloc, name, mode)
}
