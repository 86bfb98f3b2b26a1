// SHA-256: the state after all blocks of the padded message.
ghost use Rattle.std.specs.Prelude.{◌≡◌, ◌≤◌, length};
ghost use Rattle.digest.specs.Hashes.{longest};
ghost use Rattle.sha256.specs.Sha256.{sha256, sha256_bytes};
ghost use Rattle.std.proofs.Common.{rules};

use crate::compression::compress;
use crate::state::State;
use crate::{output, padding};
use digest::{Digest, Hash, LONGEST, Refusal};

// The state before the first block.
const INITIAL: State = State {
    a: 0x6a09e667,
    b: 0xbb67ae85,
    c: 0x3c6ef372,
    d: 0xa54ff53a,
    e: 0x510e527f,
    f: 0x9b05688c,
    g: 0x1f83d9ab,
    h: 0x5be0cd19,
};

// The hash of a message, as bytes.
fn hashed(message: &[u8]) -> [u8; 32]
    requires { length message.now ≤ longest }
    ensures { result ≡ sha256_bytes message.now }
{
    let (whole, _) = message.as_chunks::<64>();
    let state = whole.iter().fold(INITIAL, compress);
    let last = padding::tail(message);
    let (ends, _) = last.as_chunks::<64>();
    let count = padding::blocks(message.len());
    output::bytes(ends[..count].iter().fold(state, compress))
}

// SHA-256 as a hash, with the number 1.
#[derive(Clone, Copy, Debug, PartialEq, Eq)]
pub struct Sha256;

impl Hash for Sha256 {
    const NUMBER: u8 = 1;

    ghost digested = { sha256 };

    ghost NUMBER = { 1 };

    ghost within = { Prim.search rules };

    // Each hash tests the length itself: a shared body would need a trait that asks for the inner function, and is no plainer.
    fn digest(message: &[u8]) -> Result<Digest, Refusal> {
        if message.len() > LONGEST {
            return Err(Refusal::TooLong);
        }
        Ok(Digest::from(hashed(message)))
    }
}
