// Links of a token as records. These are functions: a `From` would have to stand in `tree`, which does not know the format.
ghost use Rattle.std.specs.Prelude.{◌≡◌, min, map, length, take};
ghost use Rattle.tree.specs.Answers.{over};
ghost use Rattle.layout.specs.Parts.{side_of, link_of};

use digest::Digest;
use layout::LINK;
use tree::{Link, Side};

// The side with a number: 0 has the sibling on the right; a token has no other number than 0 and 1.
fn side(number: u8) -> Side
    ensures { result ≡ side_of number }
{
    Side::try_from(number).unwrap_or(Side::Left)
}

// The link in 33 bytes: its side, and the sibling.
fn link(raw: &[u8; LINK]) -> Link<Digest>
    ensures { result ≡ link_of raw.now }
{
    let sibling = raw[1..].first_chunk().unwrap();
    Link {
        side: side(raw[0]),
        sibling: Digest::from(*sibling),
    }
}

// Writes the links at the front of `out`, as many as it has room for, and answers how many that is.
pub(crate) fn fill(raws: &[[u8; LINK]], out: &mut [Link<Digest>]) -> usize
    ensures count { result ≡ min (length raws.now) (length out.old) }
    ensures links { out.new ≡ over (take result (map link_of raws.now)) out.old }
{
    // Not `iter_mut().zip(..)`: behind it no clause tells what was written.
    let count = raws.len().min(out.len());
    for (k, raw) in raws[..count].iter().enumerate() {
        out[k] = link(raw);
    }
    count
}
