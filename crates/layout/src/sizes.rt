// The sizes of a token.

// The bytes before the links.
pub const HEAD: usize = 48;

// The bytes of a link.
pub const LINK: usize = 33;

// The most round links that a token has.
pub const MOST_ROUND: usize = 64;

// The most calendar links that a token has.
pub const MOST_CALENDAR: usize = 31;

// How many publications there can be: each is below this number.
pub const PUBLICATIONS: u32 = 0x8000_0000;
