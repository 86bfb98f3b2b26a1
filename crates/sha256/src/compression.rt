// One block of 64 bytes, taken into the state.
ghost use Rattle.std.specs.Prelude.{◌≡◌};
ghost use Rattle.std.specs.List.{fold};
ghost use Rattle.sha256.specs.Keyed.{keyed, keyed_round};
ghost use Rattle.sha256.specs.Sha256.{compressed, schedule as words, sums};

use crate::constants::TABLE;
use crate::state::State;
use crate::words::{big_sigma, choose, majority, small_sigma};
use std::array;

// A round, with its entry of the keyed schedule.
fn round(s: State, key: u32) -> State
    ensures { result ≡ keyed_round s key }
{
    let t1 = s
        .h
        .wrapping_add(big_sigma::<6, 11, 25>(s.e))
        .wrapping_add(choose(s.e, s.f, s.g))
        .wrapping_add(key);
    let t2 = big_sigma::<2, 13, 22>(s.a).wrapping_add(majority(s.a, s.b, s.c));
    State {
        a: t1.wrapping_add(t2),
        b: s.a,
        c: s.b,
        d: s.c,
        e: s.d.wrapping_add(t1),
        f: s.e,
        g: s.f,
        h: s.g,
    }
}

// Eight rounds, which the compiler writes out; all 64 in one fold take 1.4 times as long.
fn eight_rounds(s: State, keys: &[u32; 8]) -> State
    ensures { result ≡ fold keyed_round s keys.now }
{
    keys.iter().fold(s, |s, key| round(s, *key))
}

// The words of two states, added.
#[tactic(auto, unfolding(crate::specs::Sha256::sums))]
fn added(s: State, z: State) -> State
    ensures { result ≡ sums s z }
{
    State {
        a: s.a.wrapping_add(z.a),
        b: s.b.wrapping_add(z.b),
        c: s.c.wrapping_add(z.c),
        d: s.d.wrapping_add(z.d),
        e: s.e.wrapping_add(z.e),
        f: s.f.wrapping_add(z.f),
        g: s.g.wrapping_add(z.g),
        h: s.h.wrapping_add(z.h),
    }
}

// The schedule of a block: its 16 words, and 48 made from them.
fn schedule(block: &[u8; 64]) -> [u32; 64]
    ensures { result ≡ words block.now 48 }
{
    let (given, _) = block.as_chunks::<4>();
    let mut w = [0; 64];
    // By index: behind an adapter of `iter_mut` no clause tells what the slice holds afterwards.
    for (t, bytes) in given.iter().enumerate() {
        w[t] = u32::from_be_bytes(*bytes);
    }
    // By index, since each word is made from four that stand before it.
    for t in 16..64 {
        w[t] = small_sigma::<17, 19, 10>(w[t - 2])
            .wrapping_add(w[t - 7])
            .wrapping_add(small_sigma::<7, 18, 3>(w[t - 15]))
            .wrapping_add(w[t - 16]);
    }
    w
}

// A schedule with each round's constant added.
fn with_constants(w: &[u32; 64]) -> [u32; 64]
    ensures { result ≡ keyed w.now }
{
    array::from_fn(|t| TABLE[t].wrapping_add(w[t]))
}

// The state after one block more.
pub(crate) fn compress(state: State, block: &[u8; 64]) -> State
    ensures { result ≡ compressed state block.now }
{
    let keys = with_constants(&schedule(block));
    let (eights, _) = keys.as_chunks::<8>();
    added(state, eights.iter().fold(state, eight_rounds))
}
