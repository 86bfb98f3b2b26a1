// The two hashes for C: a message as pointer and length, 32 bytes of the caller's for the digest, and 0 or a refusal's number.
// Two functions, since C calls each hash by a name of its own.
#![tactic(auto)]

ghost use Rattle.std.specs.Prelude.{◌≡◌};
ghost use Rattle.digest.specs.Hashes.{answered};
ghost use Rattle.sha256.specs.Sha256.{sha256};
ghost use Rattle.sha3.specs.Sha3.{sha3_256};
ghost use Rattle.chashes.specs.Told.{told, placed};

use chashes::{Place, digest_into};
use sha3::Sha3;
use sha256::Sha256;

// The SHA-256 digest of a message.
#[unsafe(no_mangle)]
pub extern "C" fn rundapiyo_sha256(message: &[u8], out: &mut Place) -> u8
    ensures outcome { result ≡ told (answered sha256 message.now) }
    ensures after { out.new ≡ placed (answered sha256 message.now) out.old }
{
    digest_into::<Sha256>(message, out)
}

// The SHA3-256 digest of a message.
#[unsafe(no_mangle)]
pub extern "C" fn rundapiyo_sha3_256(message: &[u8], out: &mut Place) -> u8
    ensures outcome { result ≡ told (answered sha3_256 message.now) }
    ensures after { out.new ≡ placed (answered sha3_256 message.now) out.old }
{
    digest_into::<Sha3>(message, out)
}
