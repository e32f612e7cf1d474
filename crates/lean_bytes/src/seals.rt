// A seal over bytes: it tells bytes that were written whole from bytes that were not.
ghost use Rattle.std.specs.Prelude.{◌≡◌, ◌↔◌, ◌++◌, IsTrue, take};
ghost use Rattle.lean_bytes.specs.Seals.{seal_of};

use sha2::{Digest, Sha256};

/// The seal of bytes under a tag: the first sixteen bytes of SHA-256 over the tag and then the bytes.
pub fn seal(tag: &[u8; 8], bytes: &[u8]) -> [u8; 16]
    ensures { result ≡ seal_of tag.now bytes.now }
{
    let mut hasher = Sha256::new();
    hasher.update(tag);
    hasher.update(bytes);
    let digest = hasher.finalize();
    let mut prefix = [0; 16];
    prefix.copy_from_slice(&digest[..16]);
    prefix
}

/// Whether these sixteen bytes are the seal of the others; false for fewer or more than sixteen.
pub fn check(tag: &[u8; 8], bytes: &[u8], seal_bytes: &[u8]) -> bool
    ensures { IsTrue result ↔ (seal_bytes.now ≡ seal_of tag.now bytes.now) }
{
    let wanted = seal(tag, bytes);
    seal_bytes == &wanted[..]
}
