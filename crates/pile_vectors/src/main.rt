// Runs rounds of several sizes through stacks of layers over a head.
// The expected output comes from outside: tools/expected_pile_vectors.py computes it from the rules with python3's hashlib.
#![tactic(auto)]

use anyhow::{Context, anyhow};
use digest::{Digest, Hash, Seed};
use layers::{Grouping, Masking};
use pile::{Head, Pile};
use sha3::Sha3;
use sha256::Sha256;
use std::alloc::{AllocError, Global};
use std::array;
use tree::{Link, Side};

const SIZES: [u32; 8] = [0, 1, 8, 9, 64, 65, 256, 257];

// How many seconds each calendar can hold.
const SECONDS: usize = 10;

// 32 bytes that count up from a first one. No library holds samples, so each program makes its own.
fn counted(first: u8) -> [u8; 32] {
    array::from_fn(|k| first.wrapping_add(k as u8))
}

// Item i of each round: bytes that count up from 3 * i.
fn item(i: u32) -> Digest {
    Digest::from(counted((i.wrapping_mul(3) & 0xff) as u8))
}

fn mark(link: &Link<Digest>) -> char {
    match link.side {
        Side::Right => '0',
        Side::Left => '1',
    }
}

// The sides of a way, item first.
fn sides(heap: Global, way: &[Link<Digest>]) -> Result<String, AllocError> {
    if way.is_empty() {
        return String::from_str(heap, "none");
    }
    way.iter().map(mark).collect(heap)
}

// The bytes of a way's links.
fn bytes(heap: Global, way: &[Link<Digest>]) -> Result<Vec<u8>, AllocError> {
    let mut bytes = Vec::new(heap);
    for link in way {
        bytes.push(link.side.number())?;
        bytes.extend_from_slice(link.sibling.as_bytes())?;
    }
    Ok(bytes)
}

// A stack of layers over a head, and what it is called.
#[derive(Drop)]
struct Stack<'a, P> {
    label: String,
    pile: P,
    rt: &'a HostRuntime,
}

impl<P: Pile> Stack<'_, P> {
    fn show_way(&self, n: u32, place: u32) -> anyhow::Result<()> {
        let Stack { label, pile, rt } = self;
        let mut links = [Link::default(); 16];
        match pile.way(place as usize, &mut links) {
            Ok(count) => {
                let way = links.get(..count).unwrap_or(&[]);
                let sides = sides(rt.alloc(), way)?;
                let bytes = bytes(rt.alloc(), way)?;
                let digest = P::Digester::digest(bytes.as_slice()).map_err(|_| anyhow!(
                    "a way is too long"
                ))?;
                println!(rt; "{label} {n}: way {place} sides {sides} {digest}")?;
            }
            Err(refusal) => {
                println!(rt; "{label} {n}: way {place} refused {}", refusal.number())?;
            }
        }
        Ok(())
    }

    // The ways of the first, the middle and the last place, and of one that is not there.
    fn show_ways(&self, n: u32) -> anyhow::Result<()> {
        let mut places = vec![in self.rt.alloc(); 0, n / 2, n.saturating_sub(1), n]?;
        places.dedup();
        for place in places {
            self.show_way(n, place)?;
        }
        Ok(())
    }

    // Commits a round of n items.
    fn commit(&mut self, n: u32) -> anyhow::Result<()> {
        let Stack { label, pile, rt } = self;
        let list: Vec<Digest> = (0..n).map(item).collect(rt.alloc())?;
        if let Err(refusal) = pile.commit(list.as_slice()) {
            println!(rt; "{label} {n}: refused {}", refusal.number())?;
            return Ok(());
        }
        let second = pile.seconds().saturating_sub(1);
        let digest = pile.second(second).context("the row is empty")?;
        println!(rt; "{label} {n}: second {second} {digest}")?;
        self.show_ways(n)
    }
}

// Makes a stack, whose layers are named from the top down, and runs its rounds. Not inlined: each layer holds its list of
// 8 KiB, and so no two stacks stand on the program's stack at once.
#[inline(never)]
fn rounds<P: Pile + Drop, F: FnOnce() -> P>(
    rt: &HostRuntime,
    hash: &str,
    layers: &str,
    make: F,
) -> anyhow::Result<()>
    requires { F.IsAlwaysCallable make }
{
    let pile = make();
    let label = format!(in rt.alloc(); "{hash} {layers}")?;
    println!(rt;
        "{label}: most {}, span {}, deepest {}",
        pile.most(),
        pile.span(),
        pile.deepest()
    )?;
    let mut stack = Stack { label, pile, rt };
    for n in SIZES {
        stack.commit(n)?;
    }
    Ok(())
}

// The first byte of the seed of the upper masking, and of the lower one.
const UPPER: u8 = 100;

const LOWER: u8 = 7;

fn twice<P: Pile>(below: P) -> Grouping<Grouping<P>> {
    Grouping::over(Grouping::over(below))
}

// A masking over a pile, with the seed that begins with a byte.
fn masked<P: Pile>(below: P, first: u8) -> Masking<P> {
    Masking::over(below, Seed::from(counted(first)))
}

// Stacks over a head; all are lent the same memory, one after another.
fn stacks<H: Hash>(rt: &HostRuntime, hash: &str) -> anyhow::Result<()> {
    let mut row = [Digest::default(); SECONDS];
    rounds(rt, hash, "head", || Head::<H>::over(&mut row))?;
    rounds(
        rt,
        hash,
        "grouping",
        || Grouping::over(Head::<H>::over(&mut row)),
    )?;
    rounds(
        rt,
        hash,
        "grouping grouping",
        || twice(Head::<H>::over(&mut row)),
    )?;
    rounds(
        rt,
        hash,
        "grouping grouping grouping",
        || Grouping::over(twice(Head::<H>::over(&mut row))),
    )?;
    rounds(
        rt,
        hash,
        "masking grouping grouping",
        || masked(twice(Head::<H>::over(&mut row)), UPPER),
    )?;
    rounds(
        rt,
        hash,
        "grouping masking grouping grouping",
        || Grouping::over(masked(twice(Head::<H>::over(&mut row)), UPPER)),
    )?;
    rounds(
        rt,
        hash,
        "masking masking grouping",
        || masked(
            masked(Grouping::over(Head::<H>::over(&mut row)), LOWER),
            UPPER,
        ),
    )
}

// Each program names the hashes that it runs.
fn main(rt: HostRuntime) -> anyhow::Result<()> {
    stacks::<Sha256>(&rt, "SHA-256")?;
    stacks::<Sha3>(&rt, "SHA3-256")
}
