// What the file formats share: how a fault is told, numbers among bytes, and in specs/ and proofs/ digests as bytes.
#![tactic(auto)]

mod names;
mod number;
mod report;

pub use number::number_at;
pub use report::{Layer, Report};
