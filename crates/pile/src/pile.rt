// What a pile is: it joins the list of digests of one second to one digest of the calendar.
ghost use Rattle.std.specs.Prelude.{◌≡◌, ◌^◌, ◌≤◌, List, length, Ok};
ghost use Rattle.std.specs.List.{slice_get};
ghost use Rattle.digest.specs.declared.value.Digest.{Digest};
ghost use Rattle.pile.specs.Meaning.{Meaning, Sealed, Law, EmptyLaw, Short};
ghost use Rattle.pile.specs.Answers.{commit_answer, committed, told, way_length, way_answer, way_written};

use crate::refusal::{CommitRefusal, WayRefusal};
use digest::{Digest, Hash};
use tree::Link;

pub trait Pile {
    type Digester: Hash;

    // what it holds
    ghost meaning: { Self → Meaning };

    // the digest and the ways that a list would get now
    ghost seal: { Self → List Digest → Sealed };

    // Enters the list of one second, which becomes the last round.
    fn commit(&mut self, list: &[Digest]) -> Result<(), CommitRefusal>
        ensures outcome { result ≡ commit_answer (meaning self.old) list.now }
        ensures after { meaning self.new ≡ committed (meaning self.old) list.now (seal self.old list.now) result }
        ensures law { result ≡ Ok tt → Law Self.Digester.Hash.digested (meaning self.new) }
        ensures empty { result ≡ Ok tt → EmptyLaw Self.Digester.Hash.digested (meaning self.new) };

    // How many seconds the row holds.
    fn seconds(&self) -> u32
        ensures held { length (meaning self.now).row ≤ (meaning self.now).span }
        ensures value { result ≡ length (meaning self.now).row };

    // The digest of a second, or none where the row does not hold it.
    fn second(&self, second: u32) -> Option<Digest>
        ensures { result ≡ slice_get (meaning self.now).row second };

    // The length of a place's way, at most 255; none where the last round has no such place.
    fn way_length(&self, place: usize) -> Option<u8>
        ensures { result ≡ way_length (meaning self.now) place };

    // Writes a place's way, and answers its length.
    fn way(&self, place: usize, links: &mut [Link<Digest>]) -> Result<usize, WayRefusal>
        ensures outcome { result ≡ way_answer (meaning self.now) place (length links.old) }
        ensures after { links.new ≡ way_written (meaning self.now) place links.old result };

    // The longest list that is taken.
    fn most(&self) -> usize
        ensures { result ≡ (meaning self.now).most };

    // How many seconds the row can hold.
    fn span(&self) -> u32
        ensures bounded { (meaning self.now).span ≤ 2 ^ 31 }
        ensures value { result ≡ (meaning self.now).span };

    // At least the length of every way, told as at most 255.
    fn deepest(&self) -> u8
        ensures short { Short (meaning self.now) }
        ensures value { result ≡ told (meaning self.now).deepest };
}
