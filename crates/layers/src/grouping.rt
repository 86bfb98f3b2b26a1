// Grouping: a list goes down as the roots of its groups, eight digests each or what remains.
ghost use Rattle.std.specs.Prelude.{◌≡◌, ◌<◌, ◌/◌, List, length};
ghost use Rattle.std.specs.Option.{option_map};
ghost use Rattle.digest.specs.declared.value.Digest.{Digest};
ghost use Rattle.layers.specs.Table.{NineTable};
ghost use Rattle.layers.specs.Layered.{front_answer};
ghost use Rattle.layers.specs.Grouping.{group, group_root, group_roots, grouping, grouping_meaning, grouping_seal, grouping_fresh};
ghost use Rattle.std.proofs.Common.{rules};

use crate::kind::{Front, Items, Kind};
use crate::layer::Layer;
use arrayvec::ArrayVec;
use digest::{Digest, Hash, empty_second};
use pile::{CommitRefusal, Pile};
use tree::{Link, RoundNodes};

#[derive(Clone, Copy)]
pub struct Groups;

pub type Grouping<P> = Layer<P, Groups>;

impl<P: Pile> Layer<P, Groups> {
    // A grouping over a pile, which has stored no list yet.
    #[tactic(auto, using(crate::proofs::Nine::nine_table))]
    pub fn over(below: P) -> Grouping<P>
        ensures pile { result.below ≡ below }
        ensures meaning { grouping_meaning P.Digester.Hash.digested result.list.items (P.Pile.meaning result.below) ≡ grouping_fresh (P.Pile.meaning below) }
        ensures means { (p : _) → ⟦<Layer<P, Groups> as Pile>⟧.meaning p ≡ grouping_meaning P.Digester.Hash.digested p.list.items (P.Pile.meaning p.below) }
        ensures seals { (p : _) (items : List Digest) → ⟦<Layer<P, Groups> as Pile>⟧.seal p items ≡ grouping_seal P.Digester.Hash.digested items (P.Pile.seal p.below (group_roots P.Digester.Hash.digested items)) }
        ensures table { NineTable }
    {
        Layer::fresh(below, Groups)
    }
}

// The group that a place is in.
fn group_of(items: &[Digest], place: usize) -> &[Digest]
    requires { place < length items.now }
    ensures { result.now ≡ group items.now (place / 8) }
{
    let rest = &items[place - place % 8..];
    &rest[..rest.len().min(8)]
}

// The root of a group.
fn group_root<H: Hash>(items: &[Digest]) -> Digest
    ensures { result ≡ group_root H.Hash.digested items.now }
{
    tree::root::<RoundNodes<H>>(items).unwrap_or_else(|| empty_second::<H>())
}

// The path of a place in its group; none where the list has no such place.
fn group_path<H: Hash>(items: &[Digest], place: usize) -> Option<Front>
    ensures { option_map (λ v. v.items) result ≡ front_answer (grouping H.Hash.digested) items.now place }
{
    if place >= items.len() {
        return None;
    }
    let mut path = Front::from([Link::default(); 3]);
    let count = tree::path::<RoundNodes<H>>(group_of(items, place), place % 8, &mut path).ok()?;
    path.truncate(count);
    Some(path)
}

impl Kind for Groups {
    const WIDTH: usize = 8;

    ghost WIDTH = { 8 };

    const LINKS: u8 = 3;

    ghost LINKS = { 3 };

    ghost lowering = { λ kind digested second. grouping digested };

    ghost wide = { Prim.search rules };

    fn send<P: Pile>(
        &self,
        _second: u32,
        list: &[Digest],
        below: &mut P,
    ) -> Result<(), CommitRefusal> {
        let mut roots = ArrayVec::<Digest, 32>::new();
        // a loop, since `collect` and `extend` of an ArrayVec answer a Result, and this can't fail
        for part in list.chunks(Self::WIDTH) {
            roots.push(group_root::<P::Digester>(part));
        }
        below.commit(&roots)
    }

    fn front<H: Hash>(&self, _second: u32, list: &Items, place: usize) -> Option<Front> {
        group_path::<H>(list, place)
    }

    fn links_of(&self, list: &Items, place: usize) -> Option<u8> {
        if place >= list.len() {
            return None;
        }
        Some(tree::sides_of(group_of(list, place).len(), place % 8) as u8)
    }
}
