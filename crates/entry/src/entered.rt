// What a record puts into a round.
ghost use Rattle.std.specs.Prelude.{◌≡◌};
ghost use Rattle.entry.specs.Entered.{entered};

use digest::{Digest, Hash, Refusal, leaf};

#[derive(Clone, Copy, Debug, PartialEq, Eq)]
pub struct Entry {
    pub digest: Digest,
    pub leaf: Digest,
}

// A record's digest and its leaf, or the hash's refusal.
pub fn enter<H: Hash>(of: &[u8]) -> Result<Entry, Refusal>
    ensures { result ≡ entered H.Hash.digested of.now }
{
    let digest = H::digest(of)?;
    Ok(Entry {
        digest,
        leaf: leaf::<H>(&digest),
    })
}
