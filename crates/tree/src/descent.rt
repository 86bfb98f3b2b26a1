// The way from the root of a tree down to a place: the siblings that it leaves beside it.
ghost use Rattle.std.specs.Prelude.{◌≡◌, ◌≤◌};
ghost use Rattle.std.specs.Iterator.{YieldsFirst, item_count};
ghost use Rattle.tree.specs.Laws.{SiblingLaw};
ghost use Rattle.tree.specs.Trees.{siblings};

use crate::link::Side;
use crate::parting::left_part;

// A sibling: on which side of the way it stands, and its leaves, from `low` to `end` - 1.
#[derive(Clone, Copy, Debug, PartialEq, Eq)]
pub struct Sibling {
    pub side: Side,
    pub low: usize,
    pub end: usize,
}

// The siblings on the way from the root down to a place, those under the leaves from `low` to `end` - 1 still to come.
#[derive(Debug, Drop)]
pub struct Siblings {
    low: usize,
    end: usize,
    place: usize,
    ghost ordered: { low ≤ end },
}

impl Siblings {
    // The siblings of a place among the leaves 0 to `leaves` - 1.
    pub fn new(leaves: usize, place: usize) -> Siblings
        ensures way { siblings result.low result.end result.place ≡ siblings 0 leaves place }
        ensures sides { SiblingLaw }
    {
        Siblings {
            low: 0,
            end: leaves,
            place,
        }
    }
}

impl Iterator for Siblings {
    type Item = Sibling;

    ghost next_gives = { YieldsFirst (λ way. siblings way.low way.end way.place) };

    ghost remaining = { item_count (λ way. siblings way.low way.end way.place) };

    fn next(&mut self) -> Option<Sibling> {
        let (low, end) = (self.low, self.end);
        let middle = low + left_part(end - low)?;
        if self.place < middle {
            self.end = middle;
            Some(Sibling {
                side: Side::Right,
                low: middle,
                end,
            })
        } else {
            self.low = middle;
            Some(Sibling {
                side: Side::Left,
                low,
                end: middle,
            })
        }
    }
}
