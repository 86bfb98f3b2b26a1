// SHA3-256 as one of the hashes.
ghost use Rattle.sha3.specs.Sha3.{sha3_256};
ghost use Rattle.std.proofs.Common.{rules};

use crate::sponge::{sponge, squeeze};
use digest::{Digest, Hash, LONGEST, Refusal};

// The hash SHA3-256.
#[derive(Clone, Copy, Debug, PartialEq, Eq)]
pub struct Sha3;

impl Hash for Sha3 {
    const NUMBER: u8 = 2;

    ghost digested = { sha3_256 };

    ghost NUMBER = { 2 };

    ghost within = { Prim.search rules };

    // Each hash tests the length itself: a shared body would need a trait that asks for the inner function, and is no plainer.
    fn digest(message: &[u8]) -> Result<Digest, Refusal> {
        if message.len() > LONGEST {
            return Err(Refusal::TooLong);
        }
        Ok(Digest::from(squeeze(&sponge(message))))
    }
}
