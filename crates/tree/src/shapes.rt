// The shapes of places, and of the seconds of a publication.
ghost use Rattle.std.specs.Prelude.{◌≡◌, ◌+◌, ◌^◌, ◌<◌, ◌≤◌, length, Decides};
ghost use Rattle.tree.specs.Answers.{over, sides_answer, sides_after};
ghost use Rattle.tree.specs.Laws.{PlaceLaw, LengthLaw, Examples};
ghost use Rattle.tree.specs.Trees.{shape, second_shape};

use crate::descent::Siblings;
use crate::link::Side;

// How many sides a place has among n leaves. Leaves and place go as they are: `Siblings` is made of both here and below,
// and a struct before it would hold no more.
pub fn sides_of(n: usize, place: usize) -> usize
    ensures { result ≡ length (shape n place) }
{
    Siblings::new(n, place).count()
}

// Writes the shape of a place among n leaves, deepest side first, and answers how many sides it has.
fn write_shape(n: usize, place: usize, out: &mut [Side]) -> usize
    requires { length (shape n place) ≤ length out.old }
    ensures count { result ≡ length (shape n place) }
    ensures sides { out.new ≡ over (shape n place) out.old }
{
    let count = sides_of(n, place);
    for (at, sibling) in (0..count).rev().zip(Siblings::new(n, place)) {
        out[at] = sibling.side;
    }
    count
}

// Whether a publication's calendar has a second. The two numbers go as they are: the public calls take them so, and a
// struct of both would be made and taken apart in each.
fn calendar_has(publication: u32, second: u32) -> bool
    ensures value { Decides result (second ≤ publication) }
    ensures apart { PlaceLaw }
    ensures short { LengthLaw }
    ensures examples { Examples }
{
    second <= publication
}

// The shape of a second under a publication, written at the front of `out`, and how many sides it has.
pub fn sides(publication: u32, second: u32, out: &mut [Side; 31]) -> Option<usize>
    ensures answer { result ≡ sides_answer publication second }
    ensures sides { out.new ≡ sides_after result (second_shape publication second) out.old }
    ensures apart { PlaceLaw }
    ensures short { LengthLaw }
    ensures examples { Examples }
{
    // no `then`: through a closure that writes, what `out` holds afterwards is not proved
    if !calendar_has(publication, second) || publication >= 0x8000_0000 {
        return None;
    }
    Some(write_shape(publication as usize + 1, second as usize, out))
}

// Whether two lists of sides are equal.
fn same(left: &[Side], right: &[Side]) -> bool
    ensures { Decides result (left.now ≡ right.now) }
{
    left == right
}

// Whether these are the sides of a place among n leaves: written out and compared as lists, as the contract says it.
fn shape_is(n: usize, place: usize, sides: &[Side]) -> bool
    requires { n ≤ 2 ^ 32 }
    ensures { Decides result (sides.now ≡ shape n place) }
{
    let mut own = [Side::Right; 32];
    let count = write_shape(n, place, &mut own);
    same(sides, &own[..count])
}

// Whether a second is one of the publication's, and these are its sides.
pub fn has_shape(publication: u32, second: u32, sides: &[Side]) -> bool
    ensures value { Decides result ((second ≤ publication) × (sides.now ≡ second_shape publication second)) }
    ensures apart { PlaceLaw }
    ensures short { LengthLaw }
    ensures examples { Examples }
{
    calendar_has(publication, second) && shape_is(publication as usize + 1, second as usize, sides)
}
