ghost use Rattle.std.specs.Prelude.{◌≡◌, IsTrue, IfSome, OnErr, None};
ghost use Rattle.file_traits.specs.declared.files.FileCall.TheVariants.{Write};
ghost use Rattle.file_traits.specs.State.{IsOpen, content};
ghost use Rattle.unit_files.specs.Attachments.{attachments_of, attachment_at, takes_attachment};
ghost use Rattle.unit_files.specs.Buffer.{Buffer};
ghost use Rattle.unit_files.specs.Acts.{failure_at, flush_files, flush_said};
ghost use Rattle.unit_files.specs.InStep.{InStep, pages_flushed};
ghost use Rattle.unit_files.specs.Digests.{digest_said, digest_flushed, digest_measured, behind_flush, buffer_digested, marks_digested};
ghost use Rattle.unit_files.specs.Digests.{said_of_digest, failure_of_digest, MayDigest, DigestCause, FileDigestCause};
ghost use Rattle.unit_files.specs.Open.{AllOpen};
ghost use Rattle.unit_files.specs.Shapes.{IsPart};

use crate::attached::Attached;
use crate::faults::{DetachFault, UnitFault};
use file_digests::{FileDigest, digest_of};
use file_traits::{FileId, Files};
use unit_trait::UnitName;

impl Attached {
    /// The length in bytes and the SHA-256 of a unit's file, as it is once that what the disk holds of it is written
    /// back; that is done first, as `flush` does it. The file is read piece by piece, and no memory is taken.
    /// `NotAttached` comes exactly where nothing is attached, and `Failed` where the write of the disk's copy failed,
    /// or the length, or a read. After a failed write the file is as `flush` leaves it, and the disk's copy is still to
    /// be written back; after a failed length or read all is as after an `Ok`: the copy is written back. The unit keeps
    /// its file in every case.
    pub fn digest<F: Files>(
        &mut self,
        unit: UnitName,
        files: &mut F,
    ) -> Result<FileDigest, DetachFault>
        requires unit { IsTrue (takes_attachment unit) }
        requires open { AllOpen self.old.slots (F.state files.old).opened }
        ensures read { IsTrue F.tells → said_of_digest result ≡ behind_flush
            (flush_said (failure_of_digest result) unit (attachment_at (attachments_of self.old.slots) unit) self.old.disk)
            (digest_flushed (failure_of_digest result) (attachment_at (attachments_of self.old.slots) unit)
            (F.state files.new).files) }
        ensures said { IsTrue F.tells → InStep self.old (F.state files.old).files → said_of_digest result
            ≡ digest_said (failure_of_digest result) unit (attachment_at (attachments_of self.old.slots) unit)
            self.old.disk (F.state files.old).files }
        ensures may { MayDigest result unit (attachment_at (attachments_of self.old.slots) unit) self.old.disk }
        ensures slots { self.new.slots ≡ self.old.slots }
        ensures disk { self.new.disk ≡ buffer_digested (failure_of_digest result) unit
            (attachment_at (attachments_of self.old.slots) unit) self.old.disk }
        ensures marks { self.new.aside ≡ marks_digested (failure_of_digest result) unit
            (attachment_at (attachments_of self.old.slots) unit) self.old.disk self.old.aside }
        ensures part { OnErr result (IsPart (failure_of_digest result) self.old.disk) }
        ensures pages { (F.state files.new).files ≡ pages_flushed (failure_of_digest result) unit
            (attachment_at (attachments_of self.old.slots) unit) self.old.disk self.old.aside (F.state files.old).files }
        ensures files { InStep self.old (F.state files.old).files → (F.state files.new).files
            ≡ flush_files (failure_of_digest result) unit (attachment_at (attachments_of self.old.slots) unit)
            self.old.disk (F.state files.old).files }
        ensures step { InStep self.old (F.state files.old).files → InStep self.new (F.state files.new).files }
        ensures opened { (F.state files.new).opened ≡ (F.state files.old).opened }
        ensures cause { DigestCause result unit self.old.slots (F.state files.old) (F.state files.new) }
    {
        match self.flush(unit, files) {
            Err(fault) => Err(fault),
            Ok(()) => self.digest_unflushed(unit, files),
        }
    }

    /// The same of the file as it stands there: nothing is written back, and what the disk holds beside its file is not
    /// in it. `NotAttached` comes exactly where nothing is attached, and `Failed` where the length or a read failed.
    /// All stays as it is.
    pub fn digest_unflushed<F: Files>(
        &self,
        unit: UnitName,
        files: &mut F,
    ) -> Result<FileDigest, DetachFault>
        requires { AllOpen self.now.slots (F.state files.old).opened }
        ensures said { IsTrue F.tells → said_of_digest result ≡ digest_flushed (failure_of_digest result)
            (attachment_at (attachments_of self.now.slots) unit) (F.state files.old).files }
        ensures may { (disk : Buffer)
            → MayDigest result unit (attachment_at (attachments_of self.now.slots) unit) disk }
        ensures unwritten { failure_at Write (failure_of_digest result) ≡ None }
        ensures none_done { IfSome (failure_of_digest result) (λ f. f.done ≡ 0) }
        ensures files { (F.state files.new).files ≡ (F.state files.old).files }
        ensures opened { (F.state files.new).opened ≡ (F.state files.old).opened }
        ensures cause { DigestCause result unit self.now.slots (F.state files.old) (F.state files.new) }
    {
        match self.file_of(unit) {
            None => Err(DetachFault::NotAttached),
            Some(file) => digest_file(unit, file, files),
        }
    }
}

// The length and the digest of the open file of a unit.
fn digest_file<F: Files>(
    unit: UnitName,
    file: FileId,
    files: &mut F,
) -> Result<FileDigest, DetachFault>
    requires { IsOpen (F.state files.old) file.0 }
    ensures said { IsTrue F.tells → said_of_digest result
        ≡ digest_measured (failure_of_digest result) (content (F.state files.old) file.0) }
    ensures files { (F.state files.new).files ≡ (F.state files.old).files }
    ensures opened { (F.state files.new).opened ≡ (F.state files.old).opened }
    ensures cause { FileDigestCause result unit file (F.state files.old) (F.state files.new) }
{
    match digest_of(file, files) {
        Ok(found) => Ok(found),
        Err(call) => Err(DetachFault::Failed(UnitFault {
            unit,
            file: Some(file),
            call,
            done: 0,
        })),
    }
}
