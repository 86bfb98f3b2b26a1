// The head, the bottom of every pile: its calendar memory is a row of records that the program lends.
ghost use Rattle.std.specs.Prelude.{◌≡◌};
ghost use Rattle.pile.specs.Head.{head_meaning, head_fresh, head_digest, head_seal};

use crate::pile::Pile;
use crate::records::Records;
use crate::refusal::{CommitRefusal, WayRefusal};
use digest::{Digest, Hash, empty_second};
use std::marker::PhantomData;
use tree::Link;

// The longest list that it takes.
const MOST: usize = 1;

// The links of its longest way.
const DEEPEST: u8 = 0;

#[derive(Drop)]
pub struct Head<'a, D> {
    records: Records<'a>,
    hash: PhantomData<D>,
}

impl<'a, D: Hash> Head<'a, D> {
    // A head over these records, which holds no second yet.
    pub fn over(records: &'a mut [Digest]) -> Head<'a, D>
        ensures { head_meaning result.records.lent.now result.records.held result.records.filled ≡ head_fresh records.old }
    {
        Head {
            records: Records::over(records),
            hash: PhantomData,
        }
    }
}

// What a list of at most one digest adds to the row: the digest as it is, or that of an empty second.
fn entered<D: Hash>(list: &[Digest]) -> Digest
    ensures { result ≡ head_digest D.Hash.digested list.now }
{
    match list {
        [] => empty_second::<D>(),
        [digest, ..] => *digest,
    }
}

impl<D: Hash> Pile for Head<'_, D> {
    type Digester = D;

    ghost meaning = { λ p. head_meaning p.records.lent.now p.records.held p.records.filled };

    ghost seal = { λ p. head_seal D.Hash.digested };

    fn commit(&mut self, list: &[Digest]) -> Result<(), CommitRefusal> {
        if list.len() > MOST {
            return Err(CommitRefusal::TooMany);
        }
        if self.records.full() {
            return Err(CommitRefusal::Full);
        }
        let digest = entered::<D>(list);
        self.records.enter(digest, !list.is_empty());
        Ok(())
    }

    fn seconds(&self) -> u32 {
        self.records.seconds()
    }

    fn second(&self, second: u32) -> Option<Digest> {
        self.records.at(second)
    }

    #[tactic(auto, using(crate::proofs::Heads::no_way))]
    fn way_length(&self, place: usize) -> Option<u8> {
        (place < self.records.round().len()).then_some(0)
    }

    #[tactic(auto, using(crate::proofs::Heads::no_way))]
    fn way(&self, place: usize, _links: &mut [Link<Digest>]) -> Result<usize, WayRefusal> {
        (place < self.records.round().len())
            .then_some(0)
            .ok_or(WayRefusal::Absent)
    }

    fn most(&self) -> usize {
        MOST
    }

    fn span(&self) -> u32 {
        self.records.room()
    }

    #[tactic(auto, using(crate::proofs::Heads::short))]
    fn deepest(&self) -> u8 {
        DEEPEST
    }
}
