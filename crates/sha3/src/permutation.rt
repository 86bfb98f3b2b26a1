// The permutation KECCAK-f[1600] on 25 lanes of 64 bits, the lane of column x and row y at x + 5y.
ghost use Rattle.std.specs.Prelude.{◌≡◌, ℕ, ◌+◌, ◌*◌, ◌<◌, length, slice_index};
ghost use Rattle.sha3.specs.Tables.{rotation_of, constant_of};
ghost use Rattle.sha3.specs.Keccak.{place, lane, rotl, parities, effects, θ, ρ, π, χ, first_added, keccak_f, offsets};

use std::array;

// How far ρ rotates each lane.
const OFFSETS: [u32; 25] = [
    0, 1, 62, 28, 27, 36, 44, 6, 55, 20, 3, 10, 43, 25, 39, 41, 45, 15, 21, 8, 18, 2, 61, 56, 14,
];

// What ι adds in each round.
const CONSTANTS: [u64; 24] = [
    0x0000000000000001,
    0x0000000000008082,
    0x800000000000808a,
    0x8000000080008000,
    0x000000000000808b,
    0x0000000080000001,
    0x8000000080008081,
    0x8000000000008009,
    0x000000000000008a,
    0x0000000000000088,
    0x0000000080008009,
    0x000000008000000a,
    0x000000008000808b,
    0x800000000000008b,
    0x8000000000008089,
    0x8000000000008003,
    0x8000000000008002,
    0x8000000000000080,
    0x000000000000800a,
    0x800000008000000a,
    0x8000000080008081,
    0x8000000000008080,
    0x0000000080000001,
    0x8000000080008008,
];

// Where the lane of column x and row y stands; both count modulo 5. x and y go as they are, as the standard writes A[x, y].
#[tactic(auto, unfolding(crate::specs::Keccak::place))]
fn place(x: usize, y: usize) -> usize
    ensures value { result ≡ place x y }
    ensures within { result < 25 }
{
    x % 5 + 5 * (y % 5)
}

// The lane of column x and row y.
#[tactic(auto, unfolding(crate::specs::Keccak::lane))]
fn lane(a: &[u64; 25], x: usize, y: usize) -> u64
    ensures { result ≡ lane a.now x y }
{
    a[place(x, y)]
}

// The offset of the lane of column x and row y.
fn offset(x: usize, y: usize) -> u32
    ensures { result ≡ lane offsets x y }
{
    OFFSETS[place(x, y)]
}

// How far ρ rotates the lane of column x and row y, or none where there is no such lane.
pub fn rotation(x: usize, y: usize) -> Option<u32>
    ensures { result ≡ rotation_of x y }
{
    (x < 5 && y < 5).then(|| offset(x, y))
}

// What ι adds in round k, or none past the last round: an entry of this standard's own table.
pub fn round_constant(k: usize) -> Option<u64>
    ensures { result ≡ constant_of k }
{
    CONSTANTS.get(k).copied()
}

// The state whose lane of column x and row y is what f answers for them.
fn lanes<F: Fn(usize, usize) -> u64>(f: F) -> [u64; 25]
    requires { (x y : ℕ) → x < 5 → y < 5 → F.pre f x y }
    ensures whole { length result ≡ 25 }
    ensures each { (x y : ℕ) → x < 5 → y < 5 → F.post f x y (slice_index result (place x y)) }
{
    let mut b = [0; 25];
    // One loop over the 25 places is not unrolled, and the hash then takes 7.4 times as long.
    for y in 0..5 {
        for x in 0..5 {
            b[place(x, y)] = f(x, y);
        }
    }
    b
}

// The xor of each column.
fn parities(a: &[u64; 25]) -> [u64; 5]
    ensures { result ≡ parities a.now }
{
    array::from_fn(|x| {
        lane(a, x, 0) ^ lane(a, x, 1) ^ lane(a, x, 2) ^ lane(a, x, 3) ^ lane(a, x, 4)
    })
}

// What θ adds to each lane of a column.
fn effects(c: &[u64; 5]) -> [u64; 5]
    ensures { result ≡ effects c.now }
{
    array::from_fn(|x| c[(x + 4) % 5] ^ c[(x + 1) % 5].rotate_left(1))
}

// θ: each column gets its effect.
fn theta(a: &[u64; 25]) -> [u64; 25]
    ensures { result ≡ θ a.now }
{
    let d = effects(&parities(a));
    lanes(|x, y| lane(a, x, y) ^ d[x])
}

// ρ, then π: each lane is fetched from where it stood, and rotated.
fn rho_pi(a: &[u64; 25]) -> [u64; 25]
    ensures state { result ≡ π (ρ a.now) }
    ensures moves { (x y : ℕ) → lane result y (2 * x + 3 * y) ≡ rotl (lane a.now x y) (lane offsets x y) }
{
    lanes(|x, y| lane(a, x + 3 * y, x).rotate_left(offset(x + 3 * y, x)))
}

// χ: each lane gets the `and` of the next one of its row, turned over, and the one after that.
fn chi(a: &[u64; 25]) -> [u64; 25]
    ensures { result ≡ χ a.now }
{
    lanes(|x, y| lane(a, x, y) ^ (!lane(a, x + 1, y) & lane(a, x + 2, y)))
}

// A round, with its constant.
fn round(a: [u64; 25], constant: u64) -> [u64; 25]
    ensures { result ≡ first_added constant (χ (π (ρ (θ a)))) }
{
    let mut b = chi(&rho_pi(&theta(&a)));
    b[0] ^= constant;
    b
}

// All 24 rounds.
pub(crate) fn permute(a: [u64; 25]) -> [u64; 25]
    ensures { result ≡ keccak_f a }
{
    CONSTANTS.iter().copied().fold(a, round)
}
