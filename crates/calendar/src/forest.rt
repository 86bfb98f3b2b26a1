// A forest: perfect trees side by side over the nodes fed so far, the tallest and earliest first.
ghost use Rattle.std.specs.Prelude.{◌≡◌, ◌^◌, ◌<◌, List, [], ◌∷◌, ◌++◌, reverse};
ghost use Rattle.calendar.specs.Forests.{Holds, Sound};
ghost use Rattle.std.specs.List.{fold, reduce};
ghost use Rattle.tree.specs.Trees.{root};

use tree::Joining;

// The roots of the trees at the front of `peaks`, `top` of them, and how many nodes were fed.
// No `ArrayVec`: its `new`, `pop` and `truncate` ask `Default` of what it keeps, and `Small` may not ask it of a caller's nodes.
#[derive(Drop)]
pub(crate) struct Forest<N> {
    peaks: [N; 32],
    top: usize,
    count: u32,
}

// The last of these joined with the one before it, and so on; none of none.
fn joined_back<J: Joining>(peaks: &[J::Node]) -> Option<J::Node>
    ensures { result ≡ reduce (λ peak before. J.Joining.joined before peak) (reverse peaks.now) }
{
    peaks
        .iter()
        .rev()
        .copied()
        .reduce(|peak, before| J::join(&before, &peak))
}

// A node joined with the last of these, that with the one before it, and so on.
fn joined_onto<J: Joining>(peaks: &[J::Node], node: J::Node) -> J::Node
    ensures { result ≡ fold (λ peak before. J.Joining.joined before peak) node (reverse peaks.now) }
{
    peaks
        .iter()
        .rev()
        .copied()
        .fold(node, |peak, before| J::join(&before, &peak))
}

impl<N: Copy> Forest<N> {
    // The forest of one node.
    pub(crate) fn planted<J: Joining<Node = N>>(first: N) -> Forest<N>
        ensures { Holds J.Joining.joined result (first ∷ []) }
    {
        Forest {
            peaks: [first; 32],
            top: 1,
            count: 1,
        }
    }

    // One more node, joined with the last trees as long as they are as tall: as many as the count's last digits are ones.
    pub(crate) fn feed<J: Joining<Node = N>>(&mut self, node: N)
        requires sound { Sound J.Joining.joined self.old }
        requires room { self.old.count < 2 ^ 31 }
        ensures { (xs : List N) → Holds J.Joining.joined self.old xs → Holds J.Joining.joined self.new (xs ++ node ∷ []) }
    {
        let kept = self.top - self.count.trailing_ones() as usize;
        let standing = &self.peaks[..self.top];
        self.peaks[kept] = joined_onto::<J>(&standing[kept..], node);
        self.top = kept + 1;
        self.count += 1;
    }

    // The root over all nodes.
    pub(crate) fn whole<J: Joining<Node = N>>(&self) -> Option<N>
        requires { Sound J.Joining.joined self.now }
        ensures { (xs : List N) → Holds J.Joining.joined self.now xs → root J.Joining.joined xs ≡ result }
    {
        joined_back::<J>(&self.peaks[..self.top])
    }
}
