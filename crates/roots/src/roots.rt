// What a source of roots is: one root or none for each second, the same at every question.
ghost use Rattle.std.specs.Prelude.{◌≡◌, ℕ, Option};
ghost use Rattle.digest.specs.declared.value.Digest.{Digest};

use digest::{Digest, Hash};

pub trait Roots {
    type Digester: Hash;

    // the root of each second that has one
    ghost roots: { Self → ℕ → Option Digest };

    // The root of a second, or none.
    fn root(&self, second: u32) -> Option<Digest>
        ensures { result ≡ roots self.now second };
}
