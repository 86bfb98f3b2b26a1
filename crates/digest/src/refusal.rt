// Why a hash turns a message away.
ghost use Rattle.std.specs.Prelude.{◌≡◌};
ghost use Rattle.digest.specs.Hashes.{refusal_number};

#[derive(Clone, Copy, Debug, PartialEq, Eq)]
pub enum Refusal {
    TooLong = 5,
}

impl Refusal {
    // The number of this refusal in the rule book. No trait for all refusals: each impl would have this body, and each
    // contract cites a table of its own.
    pub fn number(self) -> u8
        ensures { result ≡ refusal_number self }
    {
        self as u8
    }
}
