// The sponge: a message is taken in by blocks of 136 bytes, and 32 bytes are given out.
ghost use Rattle.std.specs.Prelude.{◌≡◌, ◌*◌, ◌<◌, ◌++◌, length};
ghost use Rattle.sha3.specs.Sha3.{mixed, absorb, padding, padded, blocks, soaked, squeezed};

use crate::permutation::permute;
use std::array;

// How many bytes a block has.
const RATE: usize = 136;

// The state with a block added.
fn mix(mut a: [u64; 25], block: &[u8; RATE]) -> [u64; 25]
    ensures { result ≡ mixed a block.now }
{
    let (words, _) = block.as_chunks::<8>();
    // By index: behind an adapter of `iter_mut` no clause tells what the slice holds afterwards.
    for (i, word) in words.iter().enumerate() {
        a[i] ^= u64::from_le_bytes(*word);
    }
    a
}

// The state after one block more.
#[tactic(auto, unfolding(crate::specs::Sha3::absorb))]
fn absorb(a: [u64; 25], block: &[u8; RATE]) -> [u64; 25]
    ensures { result ≡ absorb a block.now }
{
    permute(mix(a, block))
}

// The last block: what is left of the message, and the padding.
#[tactic(auto, using(crate::proofs::Padding::last_made))]
fn last_block(rest: &[u8]) -> [u8; RATE]
    requires { length rest.now < 136 }
    ensures { result ≡ rest.now ++ padding (length rest.now) }
{
    let mut block = [0; RATE];
    block[..rest.len()].copy_from_slice(rest);
    block[rest.len()] = 0x06;
    block[RATE - 1] |= 0x80;
    block
}

// The state after the whole message and its padding.
pub(crate) fn sponge(message: &[u8]) -> [u64; 25]
    ensures state { result ≡ soaked message.now }
    ensures whole { length (padded message.now) ≡ blocks message.now * 136 }
{
    let (blocks, rest) = message.as_chunks::<RATE>();
    let a = blocks.iter().fold([0; 25], absorb);
    absorb(a, &last_block(rest))
}

// The first 32 bytes of a state.
pub(crate) fn squeeze(a: &[u64; 25]) -> [u8; 32]
    ensures { result ≡ squeezed a.now }
{
    array::from_fn(|i| a[i / 8].to_le_bytes()[i % 8])
}
