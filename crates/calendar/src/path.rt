// The path of a second under a publication.
ghost use Rattle.std.specs.Prelude.{◌≡◌, ◌^◌, ◌<◌, ◌≤◌, length, Some};
ghost use Rattle.calendar.specs.Published.{published};
ghost use Rattle.std.specs.List.{between};
ghost use Rattle.tree.specs.Answers.{path_answer, path_over, links_after};
ghost use Rattle.tree.specs.Trees.{path, root, second_shape};

use crate::range::range_root;
use crate::row::Row;
use tree::{Joining, Link, PathRefusal, Sibling, Siblings, sides_of};

// The link to a sibling: the root over its places.
fn link_to<J: Joining, R: Row<Node = J::Node>>(row: &R, sibling: Sibling) -> Link<J::Node>
    requires { (sibling.low < sibling.end) × (sibling.end ≤ 2 ^ 31) × (sibling.end ≤ length (R.Row.row row.now)) }
    ensures side { result.side ≡ sibling.side }
    ensures below { root J.Joining.joined (between sibling.low sibling.end (R.Row.row row.now)) ≡ Some result.sibling }
{
    Link {
        side: sibling.side,
        sibling: range_root::<J, R>(row, sibling.low as u32, sibling.end as u32).unwrap(),
    }
}

// Writes the path of a second at the front of the links, from its last link, at the root, down to its first.
// Not one with that of tree: a function for both would have to ask of its callers what they pass for the roots.
fn write_path<J: Joining, R: Row<Node = J::Node>>(
    row: &R,
    publication: u32,
    second: u32,
    count: usize,
    links: &mut [Link<J::Node>],
)
    requires there { (second ≤ publication) × (publication < 2 ^ 31) × (publication < length (R.Row.row row.now)) }
    requires room { (count ≡ length (second_shape publication second)) × (count ≤ length links.old) }
    ensures { links.new ≡ path_over (path J.Joining.joined (published publication (R.Row.row row.now)) second) links.old }
{
    let siblings = Siblings::new(publication as usize + 1, second as usize);
    for (at, sibling) in (0..count).rev().zip(siblings) {
        links[at] = link_to::<J, R>(row, sibling);
    }
}

// The path of a second of the calendar that a publication closes, written at the front of the links lent, and how many
// links it has.
pub fn calendar_path<J: Joining, R: Row<Node = J::Node>>(
    row: &R,
    publication: u32,
    second: u32,
    links: &mut [Link<J::Node>],
) -> Result<usize, PathRefusal>
    ensures answer { result ≡ path_answer (length (published publication (R.Row.row row.now))) second (length links.old) }
    ensures links { links.new ≡ links_after result (path J.Joining.joined (published publication (R.Row.row row.now)) second) links.old }
{
    if publication >= 0x8000_0000 || second > publication {
        return Err(PathRefusal::Absent);
    }
    // asked before a link is written: a refusal leaves the links as they were
    row.at(publication).ok_or(PathRefusal::Absent)?;
    let count = sides_of(publication as usize + 1, second as usize);
    if links.len() < count {
        return Err(PathRefusal::Short);
    }
    write_path::<J, R>(row, publication, second, count, links);
    Ok(count)
}
