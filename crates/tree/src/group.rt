// The root and the paths of a list of nodes.
ghost use Rattle.std.specs.Prelude.{◌≡◌, ◌<◌, ◌≤◌, length, Some};
ghost use Rattle.std.specs.List.{between};
ghost use Rattle.tree.specs.Answers.{path_answer, path_over, links_after};
ghost use Rattle.tree.specs.Laws.{RootLaw, PathLaw, ShapeLaw};
ghost use Rattle.tree.specs.Trees.{root, path, shape};

use crate::descent::{Sibling, Siblings};
use crate::joining::Joining;
use crate::link::Link;
use crate::parting::left_part;
use crate::refusal::PathRefusal;
use crate::shapes::sides_of;

// The root over one node and more.
fn root_over<J: Joining>(nodes: &[J::Node]) -> J::Node
    requires { 1 ≤ length nodes.now }
    ensures { root J.Joining.joined nodes.now ≡ Some result }
{
    let Some(middle) = left_part(nodes.len()) else {
        return nodes[0];
    };
    let (left, right) = nodes.split_at(middle);
    J::join(&root_over::<J>(left), &root_over::<J>(right))
}

// The root over a list of nodes; none over an empty list.
pub fn root<J: Joining>(nodes: &[J::Node]) -> Option<J::Node>
    ensures value { result ≡ root J.Joining.joined nodes.now }
    ensures parted { RootLaw J.Joining.joined }
{
    match nodes {
        [] => None,
        _ => Some(root_over::<J>(nodes)),
    }
}

// The link to a sibling: the root over its leaves.
fn link_to<J: Joining>(nodes: &[J::Node], sibling: Sibling) -> Link<J::Node>
    requires { (sibling.low < sibling.end) × (sibling.end ≤ length nodes.now) }
    ensures side { result.side ≡ sibling.side }
    ensures below { root J.Joining.joined (between sibling.low sibling.end nodes.now) ≡ Some result.sibling }
{
    Link {
        side: sibling.side,
        sibling: root_over::<J>(&nodes[sibling.low..sibling.end]),
    }
}

// Writes the path of a place at the front of the links, from its last link, at the root, down to its first.
fn write_path<J: Joining>(
    nodes: &[J::Node],
    place: usize,
    count: usize,
    links: &mut [Link<J::Node>],
)
    requires there { place < length nodes.now }
    requires room { (count ≡ length (shape (length nodes.now) place)) × (count ≤ length links.old) }
    ensures { links.new ≡ path_over (path J.Joining.joined nodes.now place) links.old }
{
    for (at, sibling) in (0..count).rev().zip(Siblings::new(nodes.len(), place)) {
        links[at] = link_to::<J>(nodes, sibling);
    }
}

// The path of a place, written at the front of the links lent, and how many links it has.
pub fn path<J: Joining>(
    nodes: &[J::Node],
    place: usize,
    links: &mut [Link<J::Node>],
) -> Result<usize, PathRefusal>
    ensures answer { result ≡ path_answer (length nodes.now) place (length links.old) }
    ensures links { links.new ≡ links_after result (path J.Joining.joined nodes.now place) links.old }
    ensures leads { PathLaw J.Joining.joined }
    ensures shaped { ShapeLaw J.Joining.joined }
{
    if place >= nodes.len() {
        return Err(PathRefusal::Absent);
    }
    let count = sides_of(nodes.len(), place);
    if links.len() < count {
        return Err(PathRefusal::Short);
    }
    write_path::<J>(nodes, place, count, links);
    Ok(count)
}
