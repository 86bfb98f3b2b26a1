// The hash SHA3-256 of FIPS 202.
#![tactic(auto)]

mod hash;
mod permutation;
mod sponge;

pub use hash::Sha3;
pub use permutation::{rotation, round_constant};
