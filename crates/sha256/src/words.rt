// The functions on words of 32 bits.
ghost use Rattle.std.specs.Prelude.{◌≡◌, ◌<◌, ◌≤◌};
ghost use Rattle.sha256.specs.Words.{Ch, Maj, Σ, σ};

#[tactic(auto, using(crate::proofs::Choice::choice))]
pub(crate) fn choose(x: u32, y: u32, z: u32) -> u32
    ensures { result ≡ Ch x y z }
{
    z ^ (x & (y ^ z))
}

#[tactic(auto, unfolding(crate::specs::Words::Maj))]
pub(crate) fn majority(x: u32, y: u32, z: u32) -> u32
    ensures { result ≡ Maj x y z }
{
    (x & y) ^ (x & z) ^ (y & z)
}

// The xor of x turned to the right by A, by B and by C.
pub(crate) fn big_sigma<const A: u32, const B: u32, const C: u32>(x: u32) -> u32
    requires a { (0 < A) × (A < 32) }
    requires b { (0 < B) × (B < 32) }
    requires c { (0 < C) × (C < 32) }
    ensures { result ≡ Σ A B C x }
{
    x.rotate_right(A) ^ x.rotate_right(B) ^ x.rotate_right(C)
}

// The xor of x turned to the right by A, turned by B, and moved by C.
pub(crate) fn small_sigma<const A: u32, const B: u32, const C: u32>(x: u32) -> u32
    requires a { (0 < A) × (A < 32) }
    requires b { (0 < B) × (B < 32) }
    requires c { C < 32 }
    ensures { result ≡ σ A B C x }
{
    x.rotate_right(A) ^ x.rotate_right(B) ^ (x >> C)
}
