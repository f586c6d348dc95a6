// Digests as texts: how many bytes, and then the SHA-256 of these in hex, as `0:e3b0c442..`.
use crate::texts::number;
use hex::FromHex;
use unit_files::{DetachFault, FileDigest, UnitFault};

fn digest_of(text: &str) -> Option<FileDigest> {
    let (length, digits) = text.split_once(':')?;
    Some(FileDigest {
        length: number(length)?,
        digest: <[u8; 32] as FromHex>::from_hex(digits).ok()?,
    })
}

/// What a digesting answers: a digest, or the failed call that the text says, or that nothing is attached.
pub fn digest_answer(text: &str, fault: Option<UnitFault>) -> Result<FileDigest, DetachFault> {
    match (digest_of(text), fault) {
        (Some(found), _) => Ok(found),
        (None, Some(fault)) => Err(DetachFault::Failed(fault)),
        (None, None) => Err(DetachFault::NotAttached),
    }
}
