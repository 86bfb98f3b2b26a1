// Digests, what a hash is, and the digests of the messages that rounds and the calendar are made of.
#![tactic(auto)]

mod blank;
mod hash;
mod messages;
mod refusal;
mod seed;
mod tag;
mod text;
mod value;

pub use hash::{Hash, LONGEST};
pub use messages::{empty_second, leaf, mask, node};
pub use refusal::Refusal;
pub use seed::Seed;
pub use tag::{Calendar, Round, Tag};
pub use value::Digest;
