// A token's bytes: what they say, and which byte strings are tokens.
#![tactic(auto)]

mod checking;
mod fault;
mod sizes;

pub use checking::check;
pub use fault::Fault;
pub use sizes::{HEAD, LINK, MOST_CALENDAR, MOST_ROUND, PUBLICATIONS};
