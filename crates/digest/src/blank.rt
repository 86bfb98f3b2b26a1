// A digest of zero bytes, for places that no digest was written to.
ghost use Rattle.std.specs.Prelude.{◌≡◌, replicate};

use crate::value::Digest;

// By hand: a struct with a ghost field has no derive of `Default`.
impl Default for Digest {
    ghost is_default = { λ d. d.bytes ≡ replicate 32 0 };

    fn default() -> Digest {
        Digest::from([0; 32])
    }
}
