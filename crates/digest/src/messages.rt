// The digests of the tagged messages, over any hash. None is above 65 bytes, so no hash refuses one.
ghost use Rattle.std.specs.Prelude.{◌≡◌, ◌+◌, ◌≤◌, ◌∷◌, ◌++◌, length, take};
ghost use Rattle.digest.specs.Hashes.{longest};
ghost use Rattle.digest.specs.Messages.{two_bytes, four_bytes, leaf_message, node_message, empty_message, mask_message};

use crate::hash::Hash;
use crate::seed::Seed;
use crate::tag::Tag;
use crate::value::Digest;

const LEAF: u8 = 0;

const EMPTY: u8 = 3;

const MASK: u8 = 4;

// The digest of a message that is short enough for every hash.
fn of_short<H: Hash>(message: &[u8]) -> Digest
    requires { length message.now ≤ longest }
    ensures { result ≡ H.Hash.digested message.now }
{
    H::digest(message).unwrap()
}

// A tag and two digests behind it.
fn joined(tag: u8, left: &Digest, right: &Digest) -> [u8; 65]
    ensures { result ≡ node_message tag left.now right.now }
{
    let mut message = [tag; 65];
    message[1..33].copy_from_slice(left.as_bytes());
    message[33..].copy_from_slice(right.as_bytes());
    message
}

// The second in four bytes, and behind it the place in two. The two go as they are: a struct would be made only to be
// taken apart here.
fn placed(second: u32, place: u16) -> [u8; 6]
    ensures { result ≡ four_bytes second ++ two_bytes place }
{
    let [a, b, c, d] = second.to_be_bytes();
    let [e, f] = place.to_be_bytes();
    [a, b, c, d, e, f]
}

// The mask's tag, and behind it the seed, the second and the place.
fn masked(seed: &Seed, second: u32, place: u16) -> [u8; 39]
    ensures { result ≡ mask_message seed.now second place }
{
    let mut message = [MASK; 39];
    message[1..33].copy_from_slice(seed.as_bytes());
    message[33..].copy_from_slice(&placed(second, place));
    message
}

// A record's digest as it enters a round.
pub fn leaf<H: Hash>(of: &Digest) -> Digest
    ensures { result ≡ H.Hash.digested (leaf_message of.now) }
{
    let mut message = [LEAF; 33];
    message[1..33].copy_from_slice(of.as_bytes());
    of_short::<H>(&message)
}

// Two nodes of a tree, joined under its tag.
pub fn node<H: Hash, T: Tag>(left: &Digest, right: &Digest) -> Digest
    ensures { result ≡ H.Hash.digested (T.Tag.message left.now right.now) }
{
    of_short::<H>(&joined(T::BYTE, left, right))
}

// A second in which no record came.
pub fn empty_second<H: Hash>() -> Digest
    ensures { result ≡ H.Hash.digested empty_message }
{
    of_short::<H>(&[EMPTY])
}

// What hides the item at a place of the list committed in a second.
pub fn mask<H: Hash>(seed: &Seed, second: u32, place: u16) -> Digest
    ensures { result ≡ H.Hash.digested (mask_message seed.now second place) }
{
    of_short::<H>(&masked(seed, second, place))
}
