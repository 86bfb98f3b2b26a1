// Runs the hashes and the tagged messages on published examples and on lengths around the ends of their blocks.
// The expected output comes from outside: tools/expected_vectors.py computes it with python3's hashlib.
#![tactic(auto)]

use digest::{Calendar, Digest, Hash, Round, Seed, empty_second, leaf, mask, node};
use sha3::Sha3;
use sha256::Sha256;
use std::alloc::{AllocError, Global};
use std::array;

// Lengths at which a block or its padding ends or begins, for both hashes, and the longest message with its neighbours.
const LENGTHS: [usize; 32] = [
    0, 1, 3, 8, 31, 32, 33, 54, 55, 56, 57, 63, 64, 65, 66, 111, 119, 120, 127, 128, 129, 135, 136,
    137, 271, 272, 273, 1000, 16384, 65535, 65536, 65537,
];

// The standards' own examples, but for the one of 200 bytes a3.
const PUBLISHED: [(&str, &[u8]); 4] = [
    ("empty", b""),
    ("abc", b"abc"),
    (
        "448 bits",
        b"abcdbcdecdefdefgefghfghighijhijkijkljklmklmnlmnomnopnopq",
    ),
    (
        "896 bits",
        b"abcdefghbcdefghicdefghijdefghijkefghijklfghijklmghijklmnhijklmnoijklmnopjklmnopqklmnopqrlmnopqrsmnopqrstnopqrstu",
    ),
];

// Bytes that differ from their neighbours: 17, 148, 23, and so on by 131.
fn pattern(heap: Global, length: usize) -> Result<Vec<u8>, AllocError> {
    (0..length)
        .map(|i| ((17 + 131 * (i % 256)) % 256) as u8)
        .collect(heap)
}

// 32 bytes that count up from a first one.
fn row(first: u8) -> Digest {
    Digest::from(array::from_fn(|i| first.wrapping_add((i & 0xff) as u8)))
}

fn line<H: Hash>(rt: &HostRuntime, name: &str, label: &str, message: &[u8]) -> anyhow::Result<()> {
    match H::digest(message) {
        Ok(digest) => println!(rt; "{name} {label}: {digest}")?,
        Err(refusal) => {
            let number = refusal.number();
            println!(rt; "{name} {label}: refused {number}")?
        }
    }
    Ok(())
}

fn published<H: Hash>(rt: &HostRuntime, name: &str) -> anyhow::Result<()> {
    for (label, message) in PUBLISHED {
        line::<H>(rt, name, label, message)?;
    }
    let many = vec![in rt.alloc(); 0xa3; 200]?;
    line::<H>(rt, name, "200 of a3", many.as_slice())
}

fn lengths<H: Hash>(rt: &HostRuntime, name: &str) -> anyhow::Result<()> {
    for length in LENGTHS {
        let message = pattern(rt.alloc(), length)?;
        let label = format!(in rt.alloc(); "{length} bytes")?;
        line::<H>(rt, name, label.as_str(), message.as_slice())?;
    }
    Ok(())
}

fn tagged<H: Hash>(rt: &HostRuntime, name: &str) -> anyhow::Result<()> {
    let left = row(0);
    let right = row(32);
    let digest = leaf::<H>(&left);
    println!(rt; "{name} leaf: {digest}")?;
    let digest = node::<H, Round>(&left, &right);
    println!(rt; "{name} round node: {digest}")?;
    let digest = node::<H, Calendar>(&left, &right);
    println!(rt; "{name} calendar node: {digest}")?;
    let digest = empty_second::<H>();
    println!(rt; "{name} empty second: {digest}")?;
    let digest = mask::<H>(&Seed::from(*right.as_bytes()), 0x01020304, 0x0506);
    println!(rt; "{name} mask: {digest}")?;
    Ok(())
}

fn all<H: Hash>(rt: &HostRuntime, name: &str) -> anyhow::Result<()> {
    let number = H::NUMBER;
    println!(rt; "{name} has number {number}")?;
    published::<H>(rt, name)?;
    lengths::<H>(rt, name)?;
    tagged::<H>(rt, name)
}

// Each program names the hashes that it runs.
fn main(rt: HostRuntime) -> anyhow::Result<()> {
    all::<Sha256>(&rt, "SHA-256")?;
    all::<Sha3>(&rt, "SHA3-256")
}
