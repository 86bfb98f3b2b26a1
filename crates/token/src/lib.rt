// A token as a reader over its bytes, with its links made ready for following.
#![tactic(auto)]

mod links;
mod reading;
mod refusal;
mod token;

pub use reading::read;
pub use refusal::WriteRefusal;
pub use token::Token;
