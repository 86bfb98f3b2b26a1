// What a record puts into a round.
#![tactic(auto)]

mod entered;

pub use entered::{Entry, enter};
