// What makes one layer another than the next: what goes down in the place of a list, and the links of an item's own.
ghost use Rattle.std.specs.Prelude.{◌≡◌, ℕ, ◌≤◌, List, length, Ok};
ghost use Rattle.std.specs.Option.{option_map};
ghost use Rattle.digest.specs.declared.value.Digest.{Digest};
ghost use Rattle.pile.specs.Meaning.{Law, EmptyLaw};
ghost use Rattle.pile.specs.Answers.{commit_answer, committed};
ghost use Rattle.layers.specs.Layered.{Lowering, front_answer};

use arrayvec::ArrayVec;
use digest::{Digest, Hash};
use pile::{CommitRefusal, Pile};
use tree::Link;

// A list as a layer keeps it.
pub type Items = ArrayVec<Digest, 256>;

// The links of an item's own.
pub type Front = ArrayVec<Link<Digest>, 3>;

pub trait Kind {
    // how many items go down to one place
    const WIDTH: usize;

    ghost WIDTH: { ℕ };

    // the most links of an item's own
    const LINKS: u8;

    ghost LINKS: { ℕ };

    // how the list of a second goes down, under a hash
    ghost lowering: { Self → (List ℕ → Digest) → ℕ → Lowering };

    // Commits below what goes down in the place of the list of a second. The kind makes it in room of its own, no wider than
    // what can go down, so that a tall stack takes less.
    fn send<P: Pile>(
        &self,
        second: u32,
        list: &[Digest],
        below: &mut P,
    ) -> Result<(), CommitRefusal>
        requires { length list.now ≤ 256 }
        ensures outcome { result ≡ commit_answer (P.Pile.meaning below.old) ((lowering self.now P.Digester.Hash.digested second).lowered list.now) }
        ensures after { P.Pile.meaning below.new ≡ committed (P.Pile.meaning below.old) ((lowering self.now P.Digester.Hash.digested second).lowered list.now) (P.Pile.seal below.old ((lowering self.now P.Digester.Hash.digested second).lowered list.now)) result }
        ensures law { result ≡ Ok tt → Law P.Digester.Hash.digested (P.Pile.meaning below.new) }
        ensures empty { result ≡ Ok tt → EmptyLaw P.Digester.Hash.digested (P.Pile.meaning below.new) };

    // The links of an item's own; none where the list has no such place.
    fn front<H: Hash>(&self, second: u32, list: &Items, place: usize) -> Option<Front>
        ensures { option_map (λ v. v.items) result ≡ front_answer (lowering self.now H.Hash.digested second) list.now.items place };

    // How many these are, told without making them: they are the same under each hash and in each second.
    fn links_of(&self, list: &Items, place: usize) -> Option<u8>
        ensures { (digested : List ℕ → Digest) (second : ℕ) → result ≡ option_map length (front_answer (lowering self.now digested second) list.now.items place) };

    // a place takes some item
    ghost wide: { 1 ≤ WIDTH };
}
