// Why a token is not written.
ghost use Rattle.std.specs.Prelude.{◌≡◌};
ghost use Rattle.token.specs.Copied.{write_number};

#[derive(Clone, Copy, Debug, PartialEq, Eq)]
pub enum WriteRefusal {
    RoundCount = 64,
    CalendarCount = 65,
    Publication = 68,
    Second = 69,
    Short = 44,
}

impl WriteRefusal {
    // The refusal's number in the rule book. No trait: each impl would have this body, and each contract cites a table of its own.
    pub fn number(self) -> u8
        ensures { result ≡ write_number self }
    {
        self as u8
    }
}
