// A row of nodes that is asked place by place, as a store answers its seconds.
ghost use Rattle.std.specs.Prelude.{◌≡◌, List};
ghost use Rattle.calendar.specs.Small.{FewBytes};
ghost use Rattle.std.specs.List.{slice_get};
ghost use Rattle.std.proofs.Common.{rules};

use digest::Digest;

// A kind of node of which memory can hold 32 side by side: the peaks of a forest.
pub trait Small: Copy {
    ghost small: { FewBytes Self.row };
}

impl Small for Digest {
    ghost small = { Prim.search rules };
}

// A row of nodes.
pub trait Row {
    type Node: Small;

    // the nodes, from place 0 on
    ghost row: { Self → List Self.Node };

    // The node at a place; none past the end.
    fn at(&self, place: u32) -> Option<Self::Node>
        ensures { result ≡ slice_get (row self.now) place };
}

// A row that is a lent slice.
#[derive(Drop)]
pub struct Slice<'a, N> {
    nodes: &'a [N],
}

impl<'a, N> Slice<'a, N> {
    // The row of these nodes.
    pub fn new(nodes: &'a [N]) -> Slice<'a, N>
        ensures { result.nodes.now ≡ nodes.now }
    {
        Slice { nodes }
    }
}

impl<'a, N: Small> Row for Slice<'a, N> {
    type Node = N;

    ghost row = { λ s. s.nodes.now };

    fn at(&self, place: u32) -> Option<N> {
        self.nodes.get(place as usize).copied()
    }
}
