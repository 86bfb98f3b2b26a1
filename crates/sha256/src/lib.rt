// SHA-256 of FIPS 180-4, proved equal to the standard's definition in specs/.
#![tactic(auto)]

mod compression;
mod constants;
mod hash;
mod output;
mod padding;
mod state;
mod words;

pub use constants::constant;
pub use hash::Sha256;
