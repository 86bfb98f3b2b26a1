// The words of the state as bytes, highest byte first.
ghost use Rattle.std.specs.Prelude.{◌≡◌};
ghost use Rattle.sha256.specs.Sha256.{state_bytes};

use crate::state::State;
use std::array;

pub(crate) fn bytes(s: State) -> [u8; 32]
    ensures { result ≡ state_bytes s }
{
    let words = [s.a, s.b, s.c, s.d, s.e, s.f, s.g, s.h];
    array::from_fn(|i| words[i / 4].to_be_bytes()[i % 4])
}
