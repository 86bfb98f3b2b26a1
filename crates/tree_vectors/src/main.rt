// Runs roots, paths and shapes for all sizes up to 70, and shapes under some large publications.
// The expected output comes from outside: tools/expected_tree_vectors.py computes it from the rules with python3's hashlib.
#![tactic(auto)]

use anyhow::Context;
use calendar::{Slice, calendar_path, calendar_root};
use digest::{Digest, Hash};
use sha3::Sha3;
use sha256::Sha256;
use std::alloc::{AllocError, Global};
use std::array;
use std::marker::PhantomData;
use tree::{
    CalendarNodes, Joining, Link, PathRefusal, RoundNodes, Side, follow, path, root, sides,
};

const SIZES: u32 = 70;

// Publications and seconds far from the small ones.
const LARGE: [(u32, u32); 11] = [
    (2147483647, 0),
    (2147483647, 2147483647),
    (2147483647, 1431655765),
    (2147483646, 2147483646),
    (2147483646, 1073741824),
    (1000000, 999999),
    (1000000, 524288),
    (86399, 86399),
    (86400, 86400),
    (2147483648, 0),
    (5, 6),
];

// A kind of tree, under a hash.
trait Tree {
    type Digester: Hash;

    type Nodes: Joining<Node = Digest>;

    // The root over the nodes.
    fn root(nodes: &[Digest]) -> Option<Digest>;

    // Writes the path of a place, and answers its length.
    fn path(nodes: &[Digest], place: u32, links: &mut [Link<Digest>]) -> Result<usize, PathRefusal>;
}

// A round's tree: from the slice at once.
struct Rounds<H> {
    hash: PhantomData<H>,
}

impl<H: Hash> Tree for Rounds<H> {
    type Digester = H;

    type Nodes = RoundNodes<H>;

    fn root(nodes: &[Digest]) -> Option<Digest> {
        root::<RoundNodes<H>>(nodes)
    }

    fn path(
        nodes: &[Digest],
        place: u32,
        links: &mut [Link<Digest>],
    ) -> Result<usize, PathRefusal> {
        path::<RoundNodes<H>>(nodes, place as usize, links)
    }
}

// The second of a calendar's last node.
fn last(nodes: &[Digest]) -> Option<u32> {
    u32::try_from(nodes.len()).ok()?.checked_sub(1)
}

// A calendar's tree: its nodes are read one by one.
struct Calendars<H> {
    hash: PhantomData<H>,
}

impl<H: Hash> Tree for Calendars<H> {
    type Digester = H;

    type Nodes = CalendarNodes<H>;

    fn root(nodes: &[Digest]) -> Option<Digest> {
        calendar_root::<CalendarNodes<H>, _>(&Slice::new(nodes), last(nodes)?)
    }

    fn path(
        nodes: &[Digest],
        place: u32,
        links: &mut [Link<Digest>],
    ) -> Result<usize, PathRefusal> {
        let publication = last(nodes).ok_or(PathRefusal::Absent)?;
        calendar_path::<CalendarNodes<H>, _>(&Slice::new(nodes), publication, place, links)
    }
}

// Node i: bytes that count up from 3 * i. No library holds samples, so each program makes its own.
fn node(i: u32) -> Digest {
    let first = (i.wrapping_mul(3) & 0xff) as u8;
    Digest::from(array::from_fn(|k| first.wrapping_add(k as u8)))
}

// Adds the links of a node's path to the bytes, and answers whether they lead from it to the root.
fn add_path<T: Tree>(
    nodes: &[Digest],
    top: &Digest,
    (place, node): (u32, &Digest),
    bytes: &mut Vec<u8>,
) -> Result<bool, AllocError> {
    let mut links = [Link {
        side: Side::Right,
        sibling: *top,
    }; 8];
    let Ok(count) = T::path(nodes, place, &mut links) else {
        return Ok(false);
    };
    let way = links.get(..count).unwrap_or(&[]);
    for link in way {
        bytes.push(link.side.number())?;
        bytes.extend_from_slice(link.sibling.as_bytes())?;
    }
    Ok(follow::<T::Nodes>(node, way) == *top)
}

// The tree over n nodes: its root, a digest of all its paths, and how many of them lead to the root.
fn show_tree<T: Tree>(rt: &HostRuntime, label: &str, n: u32) -> anyhow::Result<()> {
    let nodes: Vec<Digest> = (0..n).map(node).collect(rt.alloc())?;
    let top = T::root(nodes.as_slice()).context("no root")?;
    println!(rt; "{label} {n}: root {top}")?;
    let mut bytes = Vec::new(rt.alloc());
    let mut followed = 0u32;
    for place in (0..n).zip(&nodes) {
        if add_path::<T>(nodes.as_slice(), &top, place, &mut bytes)? {
            followed = followed.saturating_add(1);
        }
    }
    match T::Digester::digest(bytes.as_slice()) {
        Ok(digest) => println!(rt; "{label} {n}: paths {digest}, {followed} followed")?,
        Err(_) => println!(rt; "{label} {n}: refused")?,
    }
    Ok(())
}

fn show_trees<T: Tree>(rt: &HostRuntime, label: &str) -> anyhow::Result<()> {
    for n in 1..=SIZES {
        show_tree::<T>(rt, label, n)?;
    }
    Ok(())
}

fn mark(side: &Side) -> char {
    match side {
        Side::Right => '0',
        Side::Left => '1',
    }
}

// A second's sides as text, leaf first.
fn shown(heap: Global, publication: u32, second: u32) -> Result<String, AllocError> {
    let mut out = [Side::Right; 31];
    match sides(publication, second, &mut out) {
        None => String::from_str(heap, "absent"),
        Some(0) => String::from_str(heap, "none"),
        Some(count) => out.iter().take(count).map(mark).collect(heap),
    }
}

fn shapes(rt: &HostRuntime, n: u32) -> anyhow::Result<()> {
    print!(rt; "shapes of {n}:")?;
    for second in 0..n {
        let text = shown(rt.alloc(), n - 1, second)?;
        print!(rt; " {text}")?;
    }
    println!(rt; "")?;
    Ok(())
}

fn run(rt: &HostRuntime) -> anyhow::Result<()> {
    show_trees::<Rounds<Sha256>>(rt, "SHA-256 round")?;
    show_trees::<Calendars<Sha256>>(rt, "SHA-256 calendar")?;
    show_trees::<Rounds<Sha3>>(rt, "SHA3-256 round")?;
    show_trees::<Calendars<Sha3>>(rt, "SHA3-256 calendar")?;
    for n in 1..=SIZES {
        shapes(rt, n)?;
    }
    for (publication, second) in LARGE {
        let text = shown(rt.alloc(), publication, second)?;
        println!(rt; "shape of {second} under {publication}: {text}")?;
    }
    Ok(())
}

fn main(rt: HostRuntime) -> anyhow::Result<()> {
    run(&rt)
}
