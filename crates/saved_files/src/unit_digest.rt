// The digest of a unit's file.
ghost use Rattle.std.specs.Prelude.{◌≡◌, IsTrue, is_some, Some};
ghost use Rattle.file_traits.specs.Lists.{bytes_of};
ghost use Rattle.unit_files.specs.Attachments.{Attachment, attachments_of, attachment_at, takes_attachment};
ghost use Rattle.unit_files.specs.Digests.{digest_measured};
ghost use Rattle.unit_files.specs.Open.{AllOpen};
ghost use Rattle.saved_files.specs.PuttingOne.{said_of_reading, failure_of_reading, ReadingCause};

use file_traits::Files;
use unit_files::{Attached, DetachFault, FileDigest, UnitFault};
use unit_trait::UnitName;

/// The length and the digest of a unit's file as it stands there.
pub fn digest_unit<F: Files>(
    attached: &mut Attached,
    unit: UnitName,
    files: &mut F,
) -> Result<FileDigest, UnitFault>
    requires unit { IsTrue (takes_attachment unit) }
    requires there { IsTrue (is_some (attachment_at (attachments_of attached.old.slots) unit)) }
    requires open { AllOpen attached.old.slots (F.state files.old).opened }
    ensures told { IsTrue F.tells → (a : Attachment) → attachment_at (attachments_of attached.old.slots) unit ≡ Some a
        → said_of_reading result
        ≡ digest_measured (failure_of_reading result) (bytes_of (F.state files.old).files a.name) }
    ensures kept { attached.new ≡ attached.old }
    ensures files { (F.state files.new).files ≡ (F.state files.old).files }
    ensures opened { (F.state files.new).opened ≡ (F.state files.old).opened }
    ensures cause { ReadingCause result unit attached.old.slots (F.state files.old) (F.state files.new) }
{
    match attached.digest_unflushed(unit, files) {
        Ok(found) => Ok(found),
        Err(DetachFault::Failed(fault)) => Err(fault),
        Err(DetachFault::NotAttached) => unreachable!(),
    }
}
