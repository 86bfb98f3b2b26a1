// A path followed: each link joins its sibling to what came before.
ghost use Rattle.std.specs.Prelude.{◌≡◌};
ghost use Rattle.tree.specs.Trees.{step, followed};

use crate::joining::Joining;
use crate::link::{Link, Side};

// The node over a node and its sibling.
fn joined<J: Joining>(node: &J::Node, link: &Link<J::Node>) -> J::Node
    ensures { result ≡ step J.Joining.joined node.now link.now.side link.now.sibling }
{
    match link.side {
        Side::Right => J::join(node, &link.sibling),
        Side::Left => J::join(&link.sibling, node),
    }
}

// The node that a path leads to from a node.
pub fn follow<J: Joining>(start: &J::Node, links: &[Link<J::Node>]) -> J::Node
    ensures { result ≡ followed J.Joining.joined start.now links.now }
{
    let mut reached = *start;
    for link in links {
        reached = joined::<J>(&reached, link);
    }
    reached
}
