// Why a pile turns a call away: an enum for each call, with the cases that it can answer. No trait for their numbers: each
// impl would have the same body, and each contract cites a table of its own.
ghost use Rattle.std.specs.Prelude.{◌≡◌};
ghost use Rattle.pile.specs.Answers.{commit_number, way_number};

#[derive(Clone, Copy, Debug, PartialEq, Eq)]
pub enum CommitRefusal {
    TooMany = 11,
    Full = 12,
}

impl CommitRefusal {
    // The refusal's number in the rule book.
    pub fn number(self) -> u8
        ensures { result ≡ commit_number self }
    {
        self as u8
    }
}

#[derive(Clone, Copy, Debug, PartialEq, Eq)]
pub enum WayRefusal {
    Absent = 13,
    Short = 14,
}

impl WayRefusal {
    // The refusal's number in the rule book.
    pub fn number(self) -> u8
        ensures { result ≡ way_number self }
    {
        self as u8
    }
}
