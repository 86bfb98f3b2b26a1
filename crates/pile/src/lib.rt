// Piles: what they mean, and the head, the bottom of every pile.
#![tactic(auto)]

mod head;
mod pile;
mod records;
mod refusal;

pub use head::Head;
pub use pile::Pile;
pub use refusal::{CommitRefusal, WayRefusal};
