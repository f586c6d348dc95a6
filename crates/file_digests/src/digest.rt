ghost use Rattle.std.specs.Prelude.{◌≡◌, ◌⊎◌, ◌<◌, IsTrue, IfOk, IfErr, Err, length};
ghost use Rattle.file_traits.specs.declared.files.FileCall.{FileCall};
ghost use Rattle.file_traits.specs.declared.files.FileCall.TheVariants.{Length, Read};
ghost use Rattle.file_traits.specs.FileCalls.{Counted};
ghost use Rattle.file_traits.specs.State.{IsOpen, content};
ghost use Rattle.sha2.specs.Sha256.{sha256};

use file_traits::{Failed, FileCall, FileId, Files};
use sha2::{Digest, Sha256};

/// How many bytes are read at once.
const PIECE: usize = 4096;

/// How long a file is, in bytes, and the SHA-256 of its bytes.
#[derive(Clone, Copy, Debug, PartialEq, Eq)]
pub struct FileDigest {
    pub length: u64,
    pub digest: [u8; 32],
}

/// The length in bytes and the SHA-256 of an open file, which is read piece by piece; no memory is taken. The error is
/// the call that failed, the length or a read, and nothing changes but the count of the file.
pub fn digest_of<F: Files>(file: FileId, files: &mut F) -> Result<FileDigest, FileCall>
    requires { IsOpen (F.state files.old) file.0 }
    ensures length { IsTrue F.tells → IfOk result (λ d. d.length ≡ length (content (F.state files.old) file.0)) }
    ensures digest { IsTrue F.tells → IfOk result (λ d. d.digest ≡ sha256 (content (F.state files.old) file.0)) }
    ensures some { IsTrue F.tells → result ≡ Err FileCall.Read → 0 < length (content (F.state files.old) file.0) }
    ensures calls { IfErr result (λ call. (call ≡ Length) ⊎ (call ≡ Read)) }
    ensures files { (F.state files.new).files ≡ (F.state files.old).files }
    ensures opened { (F.state files.new).opened ≡ (F.state files.old).opened }
    ensures counted { Counted file.0 (F.state files.old) (F.state files.new) result }
{
    let length = match files.length(file) {
        Ok(length) => length,
        Err(Failed) => return Err(FileCall::Length),
    };
    let mut hasher = Sha256::new();
    let mut place = 0;
    let mut piece = [0; PIECE];
    while place < length {
        let want = (length - place).min(PIECE as u64) as usize;
        match files.read_at(file, place, &mut piece[..want]) {
            Ok(0) => break,
            Ok(count) => {
                hasher.update(&piece[..count]);
                place += count as u64;
            }
            Err(Failed) => return Err(FileCall::Read),
        }
    }
    Ok(FileDigest {
        length,
        digest: hasher.finalize(),
    })
}
