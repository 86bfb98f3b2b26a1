// The root of a range of a row, and of a publication's calendar.
ghost use Rattle.std.specs.Prelude.{◌≡◌, ◌+◌, ◌^◌, ◌<◌, ◌≤◌, length, Some, None};
ghost use Rattle.calendar.specs.Published.{published};
ghost use Rattle.std.specs.List.{between};
ghost use Rattle.tree.specs.Trees.{root};

use crate::forest::Forest;
use crate::row::Row;
use tree::Joining;

// The root of the places `low` to `end` - 1; none where the row ends before.
pub(crate) fn range_root<J: Joining, R: Row<Node = J::Node>>(
    row: &R,
    low: u32,
    end: u32,
) -> Option<J::Node>
    requires some { low < end }
    requires room { end ≤ low + 2 ^ 31 }
    ensures there { end ≤ length (R.Row.row row.now) → root J.Joining.joined (between low end (R.Row.row row.now)) ≡ result }
    ensures short { length (R.Row.row row.now) < end → result ≡ None }
{
    let mut forest = Forest::planted::<J>(row.at(low)?);
    for place in low + 1..end {
        forest.feed::<J>(row.at(place)?);
    }
    forest.whole::<J>()
}

// The root of the calendar that a publication closes; none where the publication is not there. Row and publication go as
// they are: a struct of both would be made in each public call and used once.
pub fn calendar_root<J: Joining, R: Row<Node = J::Node>>(
    row: &R,
    publication: u32,
) -> Option<J::Node>
    ensures { result ≡ root J.Joining.joined (published publication (R.Row.row row.now)) }
{
    if publication >= 0x8000_0000 {
        return None;
    }
    range_root::<J, R>(row, 0, publication + 1)
}
