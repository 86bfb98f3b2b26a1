// One step of a path: where the sibling stands, and the sibling.
ghost use Rattle.std.specs.Prelude.{◌≡◌, ◌==◌, Decides};
ghost use Rattle.tree.specs.Sides.{side_number, side_answer};
ghost use Rattle.std.specs.Ordering.{on};
ghost use Rattle.std.specs.Cmp.Rules.{comparing};
ghost use Rattle.std.proofs.Common.{rules};

// Where the sibling stands: right of the node, or left of it.
#[derive(Clone, Copy, Debug, Default)]
pub enum Side {
    #[default]
    Right = 0,
    Left = 1,
}

// A number that names no side.
#[derive(Clone, Copy, Debug, PartialEq, Eq)]
pub struct UnknownSide(pub u8);

impl Side {
    // The side's number in tokens and shapes: its discriminant, under a name and a contract.
    pub fn number(self) -> u8
        ensures { result ≡ side_number self }
    {
        self as u8
    }

    // Whether both are one side.
    pub fn is(self, other: Side) -> bool
        ensures { Decides result (self ≡ other) }
    {
        self == other
    }
}

// By hand: the lemma `side_test` speaks of this test, and with a derive there is no body of `==` that an edit could turn.
impl PartialEq for Side {
    ghost eq = { on side_number ◌==◌ };

    ghost laws = { Prim.search (comparing, rules) };

    fn eq(&self, other: &Side) -> bool
        ensures value { result ≡ on side_number ◌==◌ self.now other.now }
        ensures exact { Decides result (self.now ≡ other.now) }
    {
        matches!(
            (*self, *other),
            (Side::Right, Side::Right) | (Side::Left, Side::Left)
        )
    }
}

impl Eq for Side {
    ghost laws = { Prim.search (comparing, rules) };
}

impl TryFrom<u8> for Side {
    type Error = UnknownSide;

    ghost try_from_gives = { λ number result. result ≡ side_answer number };

    fn try_from(number: u8) -> Result<Side, UnknownSide> {
        match number {
            0 => Ok(Side::Right),
            1 => Ok(Side::Left),
            _ => Err(UnknownSide(number)),
        }
    }
}

// A blank one, for places that no link was written to, has a blank sibling on the right.
#[derive(Clone, Copy, Debug, Default, PartialEq, Eq)]
pub struct Link<N> {
    pub side: Side,
    pub sibling: N,
}
