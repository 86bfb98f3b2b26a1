// A way that begins with links of a layer's own and goes on with a way of the pile below.
ghost use Rattle.std.specs.Prelude.{◌≡◌, length};
ghost use Rattle.layers.specs.Behind.{behind_answer, behind_written};

use digest::Digest;
use pile::{Pile, WayRefusal};
use tree::Link;

// Writes these links and behind them the way of a place below, and answers how many links that is.
pub(crate) fn behind<P: Pile>(
    below: &P,
    place: usize,
    front: &[Link<Digest>],
    links: &mut [Link<Digest>],
) -> Result<usize, WayRefusal>
    ensures outcome { result ≡ behind_answer (P.Pile.meaning below.now) front.now place (length links.old) }
    ensures after { links.new ≡ behind_written (P.Pile.meaning below.now) front.now place links.old result }
{
    let count = front.len();
    if links.len() < count {
        below.way_length(place).ok_or(WayRefusal::Absent)?;
        return Err(WayRefusal::Short);
    }
    let rest = below.way(place, &mut links[count..])?;
    links[..count].copy_from_slice(front);
    Ok(count + rest)
}
