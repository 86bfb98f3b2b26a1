// A hash as C is given it: 32 bytes of the caller's for the digest, and 0 or a refusal's number.
// `chashes_c` exports the two hashes.
#![tactic(auto)]

ghost use Rattle.std.specs.Prelude.{◌≡◌};
ghost use Rattle.digest.specs.Hashes.{answered};
ghost use Rattle.sha256.specs.Sha256.{sha256};
ghost use Rattle.sha3.specs.Sha3.{sha3_256};
ghost use Rattle.chashes.specs.Told.{told, placed};

use digest::Hash;
use sha3::Sha3;
use sha256::Sha256;

#[repr(C)]
#[derive(Clone, Copy, Debug, PartialEq, Eq)]
pub struct Place {
    pub bytes: [u8; 32],
}

// The digest of a message under a hash, at the caller's place; 0, or the refusal's number.
pub fn digest_into<H: Hash>(message: &[u8], out: &mut Place) -> u8
    ensures outcome { result ≡ told (answered H.Hash.digested message.now) }
    ensures after { out.new ≡ placed (answered H.Hash.digested message.now) out.old }
{
    match H::digest(message) {
        Ok(digest) => {
            out.bytes = *digest.as_bytes();
            0
        }
        Err(refusal) => refusal.number(),
    }
}

// The SHA-256 digest of a message.
pub fn rundapiyo_sha256(message: &[u8], out: &mut Place) -> u8
    ensures outcome { result ≡ told (answered sha256 message.now) }
    ensures after { out.new ≡ placed (answered sha256 message.now) out.old }
{
    digest_into::<Sha256>(message, out)
}

// The SHA3-256 digest of a message.
pub fn rundapiyo_sha3_256(message: &[u8], out: &mut Place) -> u8
    ensures outcome { result ≡ told (answered sha3_256 message.now) }
    ensures after { out.new ≡ placed (answered sha3_256 message.now) out.old }
{
    digest_into::<Sha3>(message, out)
}
