// How two nodes become one: what the trees over a kind of node need, and no more.
ghost use Rattle.std.specs.Prelude.{◌≡◌};
ghost use Rattle.digest.specs.Messages.{round_message, calendar_message};

use digest::{Calendar, Digest, Hash, Round, Tag, node};
use std::marker::PhantomData;

pub trait Joining {
    type Node: Copy;

    // the node over two
    ghost joined: { Self.Node → Self.Node → Self.Node };

    // The node over two.
    fn join(left: &Self::Node, right: &Self::Node) -> Self::Node
        ensures { result ≡ joined left.now right.now };
}

// The nodes of the tree with a tag, under a hash.
pub struct Nodes<H, T> {
    hash: PhantomData<H>,
    tag: PhantomData<T>,
}

// The nodes of a round.
pub type RoundNodes<H> = Nodes<H, Round>;

// The nodes of the calendar.
pub type CalendarNodes<H> = Nodes<H, Calendar>;

impl<H: Hash, T: Tag> Joining for Nodes<H, T> {
    type Node = Digest;

    ghost joined = { λ left right. H.Hash.digested (T.Tag.message left right) };

    // The last two clauses say what the nodes of a round and of the calendar are joined by.
    fn join(left: &Digest, right: &Digest) -> Digest
        ensures value { result ≡ H.Hash.digested (T.Tag.message left.now right.now) }
        ensures rounds { ⟦<RoundNodes<H> as Joining>⟧.joined ≡ (λ left right. H.Hash.digested (round_message left right)) }
        ensures calendars { ⟦<CalendarNodes<H> as Joining>⟧.joined ≡ (λ left right. H.Hash.digested (calendar_message left right)) }
    {
        node::<H, T>(left, right)
    }
}

// Two nodes of a round, joined.
pub fn round_node<H: Hash>(left: &Digest, right: &Digest) -> Digest
    ensures { result ≡ H.Hash.digested (round_message left.now right.now) }
{
    RoundNodes::<H>::join(left, right)
}

// Two nodes of the calendar, joined.
pub fn calendar_node<H: Hash>(left: &Digest, right: &Digest) -> Digest
    ensures { result ≡ H.Hash.digested (calendar_message left.now right.now) }
{
    CalendarNodes::<H>::join(left, right)
}
