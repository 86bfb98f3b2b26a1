// Masking: each item of a list goes down under a mask that is made from a seed: mask left, item right.
ghost use Rattle.std.specs.Prelude.{◌≡◌, List, length};
ghost use Rattle.digest.specs.declared.value.Digest.{Digest};
ghost use Rattle.layers.specs.Masking.{masked, masking, masking_meaning, masking_seal, masking_fresh};
ghost use Rattle.std.proofs.Common.{rules};

use crate::kind::{Front, Items, Kind};
use crate::layer::Layer;
use arrayvec::ArrayVec;
use digest::{Digest, Hash, Round, Seed, mask, node};
use pile::{CommitRefusal, Pile};
use tree::{Link, Side};

#[derive(Clone, Copy)]
pub struct Masks {
    seed: Seed,
}

pub type Masking<P> = Layer<P, Masks>;

impl<P: Pile> Layer<P, Masks> {
    // A masking over a pile, which has stored no list yet.
    pub fn over(below: P, seed: Seed) -> Masking<P>
        ensures pile { result.below ≡ below }
        ensures seed { result.kind.seed ≡ seed }
        ensures meaning { masking_meaning P.Digester.Hash.digested result.kind.seed result.second result.list.items (P.Pile.meaning result.below) ≡ masking_fresh (P.Pile.meaning below) }
        ensures means { (p : _) → ⟦<Layer<P, Masks> as Pile>⟧.meaning p ≡ masking_meaning P.Digester.Hash.digested p.kind.seed p.second p.list.items (P.Pile.meaning p.below) }
        ensures seals { (p : _) (items : List Digest) → ⟦<Layer<P, Masks> as Pile>⟧.seal p items ≡ masking_seal P.Digester.Hash.digested p.kind.seed (length (P.Pile.meaning p.below).row) items (P.Pile.seal p.below (masked P.Digester.Hash.digested p.kind.seed (length (P.Pile.meaning p.below).row) items)) }
    {
        Layer::fresh(below, Masks { seed })
    }
}

impl Kind for Masks {
    const WIDTH: usize = 1;

    ghost WIDTH = { 1 };

    const LINKS: u8 = 1;

    ghost LINKS = { 1 };

    ghost lowering = { λ kind digested second. masking digested kind.seed second };

    ghost wide = { Prim.search rules };

    fn send<P: Pile>(
        &self,
        second: u32,
        list: &[Digest],
        below: &mut P,
    ) -> Result<(), CommitRefusal> {
        let mut hidden = ArrayVec::<Digest, 256>::new();
        // a loop, since `collect` and `extend` of an ArrayVec answer a Result, and this can't fail
        for (place, item) in list.iter().enumerate() {
            let over = mask::<P::Digester>(&self.seed, second, place as u16);
            hidden.push(node::<P::Digester, Round>(&over, item));
        }
        below.commit(&hidden)
    }

    fn front<H: Hash>(&self, second: u32, list: &Items, place: usize) -> Option<Front> {
        list.get(place)?;
        let mut front = Front::new();
        front.push(Link {
            side: Side::Left,
            sibling: mask::<H>(&self.seed, second, place as u16),
        });
        Some(front)
    }

    fn links_of(&self, list: &Items, place: usize) -> Option<u8> {
        (place < list.len()).then_some(Self::LINKS)
    }
}
