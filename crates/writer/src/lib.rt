// Tokens written from their fields.
#![tactic(auto)]

mod fields;
mod writing;

pub use fields::Fields;
