// Layers over any pile: groups of eight, and masks. They stand on each other in any order.
#![tactic(auto)]

mod behind;
mod grouping;
mod kind;
mod layer;
mod masking;

pub use grouping::Grouping;
pub use masking::Masking;
