// A layer over a pile, of any kind: it keeps the list of the last round, at most 256 digests, and sends down what its kind makes of it.
ghost use Rattle.std.specs.Prelude.{◌≡◌, ℕ, ◌/◌, ◌≤◌, List, [], length};
ghost use Rattle.digest.specs.declared.value.Digest.{Digest};
ghost use Rattle.layers.specs.Layered.{Lowers, layered_meaning, layered_seal};

use crate::behind::behind;
use crate::kind::{Items, Kind};
use digest::Digest;
use pile::{CommitRefusal, Pile, WayRefusal};
use tree::Link;

#[derive(Drop)]
pub struct Layer<P, K: Kind> {
    pub(crate) below: P,
    pub(crate) kind: K,
    pub(crate) second: u32,
    pub(crate) list: Items,
    // what holds of how the kind takes a list down, whatever the hash and the second
    ghost lowers: { (digested : List ℕ → Digest) (second : ℕ) → Lowers K.WIDTH K.LINKS digested (K.lowering kind digested second) },
}

impl<P, K: Kind> Layer<P, K> {
    // A layer over a pile, which has stored no list yet.
    pub(crate) fn fresh(below: P, kind: K) -> Layer<P, K>
        requires lowers { (digested : List ℕ → Digest) (second : ℕ) → Lowers K.WIDTH K.LINKS digested (K.lowering kind digested second) }
        ensures pile { result.below ≡ below }
        ensures kind { result.kind ≡ kind }
        ensures empty { result.list.items ≡ [] }
    {
        Layer {
            below,
            kind,
            second: 0,
            list: Items::new(),
        }
    }

    // The place below of what goes down for an item.
    fn spot(&self, place: usize) -> usize
        ensures { result ≡ place / K.WIDTH }
    {
        place / K::WIDTH
    }
}

// Keeps these digests in the place of the others.
fn keep(list: &mut Items, items: &[Digest])
    requires { length items.now ≤ 256 }
    ensures { list.new.items ≡ items.now }
{
    list.clear();
    list.try_extend_from_slice(items).unwrap();
}

impl<P: Pile, K: Kind> Pile for Layer<P, K> {
    type Digester = P::Digester;

    ghost meaning = { λ p. layered_meaning (K.lowering p.kind P.Digester.Hash.digested p.second) p.list.items (P.Pile.meaning p.below) };

    ghost seal = { λ p items.
        let w = K.lowering p.kind P.Digester.Hash.digested (length (P.Pile.meaning p.below).row) in
        layered_seal w items (P.Pile.seal p.below (w.lowered items)) };

    fn commit(&mut self, list: &[Digest]) -> Result<(), CommitRefusal> {
        if list.len() > self.most() {
            return Err(CommitRefusal::TooMany);
        }
        let second = self.below.seconds();
        if second >= self.below.span() {
            return Err(CommitRefusal::Full);
        }
        self.kind.send(second, list, &mut self.below)?;
        self.second = second;
        keep(&mut self.list, list);
        Ok(())
    }

    fn seconds(&self) -> u32 {
        self.below.seconds()
    }

    fn second(&self, second: u32) -> Option<Digest> {
        self.below.second(second)
    }

    fn way_length(&self, place: usize) -> Option<u8> {
        let own = self.kind.links_of(&self.list, place)?;
        let rest = self.below.way_length(self.spot(place))?;
        Some(rest.saturating_add(own))
    }

    fn way(&self, place: usize, links: &mut [Link<Digest>]) -> Result<usize, WayRefusal> {
        let front = self
            .kind
            .front::<P::Digester>(self.second, &self.list, place)
            .ok_or(WayRefusal::Absent)?;
        behind(&self.below, self.spot(place), &front, links)
    }

    fn most(&self) -> usize {
        self.below.most().saturating_mul(K::WIDTH).min(256)
    }

    fn span(&self) -> u32 {
        self.below.span()
    }

    fn deepest(&self) -> u8 {
        self.below.deepest().saturating_add(K::LINKS)
    }
}
