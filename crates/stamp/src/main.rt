// Stamps the two records of one ping, port and starboard, under each hash: their round is committed as one second of a
// calendar, and each half gets a token, which is written to a file, read back and told; so is the printed root.
#![tactic(auto)]

mod files;
mod tell;

use anyhow::{Context, anyhow};
use calendar::{Slice, calendar_path, calendar_root};
use digest::{Digest, Hash, Seed};
use entry::{Entry, enter};
use files::keep;
use layers::{Grouping, Masking};
use pile::{Head, Pile};
use roots::{Entry as Published, print_list};
use sha3::Sha3;
use sha256::Sha256;
use std::alloc::Global;
use std::{env, fs};
use tell::{tell_list, tell_token};
use tree::{CalendarNodes, Link};
use writer::Fields;

// The seed of the masks, which a survey keeps to itself. This one is for the sample.
const SEED: [u8; 32] = *b"a seed of thirty-two bytes, here";

// The second that the ping enters; those before it are empty. It is the publication too.
const SECOND: u32 = 5;

// The seconds of the calendar.
const SECONDS: usize = 6;

const USAGE: &str = "usage: stamp PORT STARBOARD";

// What belongs to the two halves of a ping.
#[derive(Clone, Copy, Drop)]
struct Halves<T> {
    port: T,
    starboard: T,
}

// What a hash is called, and the files of its tokens and of its printed root.
#[derive(Clone, Copy)]
struct Names<'a> {
    hash: &'a str,
    tokens: Halves<&'a str>,
    roots: &'a str,
}

const UNDER_SHA256: Names<'static> = Names {
    hash: "SHA-256",
    tokens: Halves {
        port: "port-sha256.hct",
        starboard: "starboard-sha256.hct",
    },
    roots: "roots-sha256.hcp",
};

const UNDER_SHA3: Names<'static> = Names {
    hash: "SHA3-256",
    tokens: Halves {
        port: "port-sha3.hct",
        starboard: "starboard-sha3.hct",
    },
    roots: "roots-sha3.hcp",
};

// A record under one hash: prints its digest and its leaf, or the hash's refusal.
fn enter_record<H: Hash>(
    rt: &HostRuntime,
    side: &str,
    record: &[u8],
) -> anyhow::Result<Option<Entry>> {
    match enter::<H>(record) {
        Ok(entry) => {
            println!(rt; "  {side} digest {}", entry.digest)?;
            println!(rt; "  {side} leaf {}", entry.leaf)?;
            Ok(Some(entry))
        }
        Err(refusal) => {
            println!(rt; "  {side} refused {}", refusal.number())?;
            Ok(None)
        }
    }
}

// Commits a list as a second, and answers its digest.
fn close<P: Pile>(pile: &mut P, second: u32, list: &[Digest]) -> anyhow::Result<Digest> {
    pile.commit(list)
        .map_err(|_| anyhow!("a second is refused"))?;
    pile.second(second).context("the calendar lacks a second")
}

// Commits the empty seconds and then the leaves, and answers the calendar.
fn fill<P: Pile>(heap: Global, pile: &mut P, leaves: &[Digest]) -> anyhow::Result<Vec<Digest>> {
    // An empty list that is lent as the leaves are: a call with `&[]` gets no proof here.
    let none = &leaves[..0];
    let mut calendar = Vec::new(heap);
    for second in 0..SECOND {
        let digest = close(pile, second, none)?;
        calendar.push(digest)?;
    }
    let digest = close(pile, SECOND, leaves)?;
    calendar.push(digest)?;
    Ok(calendar)
}

// A pile whose last round has the leaves of a ping, and the calendar of its seconds.
#[derive(Drop)]
struct Committed<'a, P> {
    rt: &'a HostRuntime,
    pile: &'a P,
    calendar: Vec<Digest>,
}

impl<P: Pile> Committed<'_, P> {
    // Writes the token of a place into a buffer, and answers its length.
    fn stamp(&self, place: usize, recorded: Digest, out: &mut [u8]) -> anyhow::Result<usize> {
        let mut way = [Link::default(); 64];
        let mut path = [Link::default(); 31];
        let rounds = self
            .pile
            .way(place, &mut way)
            .map_err(|_| anyhow!("the round has no such place"))?;
        let row = Slice::new(self.calendar.as_slice());
        let answer = calendar_path::<CalendarNodes<P::Digester>, _>(
            &row, SECOND, SECOND, &mut path,
        );
        let calendars = answer.map_err(|_| anyhow!("the calendar has no such second"))?;
        let fields = Fields {
            recorded,
            second: SECOND,
            publication: SECOND,
            round: way.get(..rounds).context("a path is too long")?,
            calendar: path.get(..calendars).context("a path is too long")?,
        };
        fields
            .write::<P::Digester>(out)
            .map_err(|_| anyhow!("the token is refused"))
    }

    // A half's token, written to a file and told as it is read back.
    fn issue(&self, place: usize, entry: &Entry, file: &str) -> anyhow::Result<()> {
        let mut buffer = [0; 3183];
        let length = self.stamp(place, entry.digest, &mut buffer)?;
        let bytes = keep(self.rt, file, &buffer, length)?;
        tell_token::<P::Digester>(self.rt, file, bytes.as_slice())
    }

    // The root of the calendar, printed to a file and told as it is read back.
    fn publish(&self, file: &str) -> anyhow::Result<()> {
        let row = Slice::new(self.calendar.as_slice());
        let root = calendar_root::<CalendarNodes<P::Digester>, _>(&row, SECOND);
        let published = Published {
            second: SECOND,
            root: root.context("the calendar has no root")?,
        };
        let mut buffer = [0; 44];
        let printed = print_list::<P::Digester>(&[published], &mut buffer);
        let length = printed.map_err(|_| anyhow!("the list is refused"))?;
        let bytes = keep(self.rt, file, &buffer, length)?;
        tell_list::<P::Digester>(self.rt, file, bytes.as_slice(), SECOND)
    }
}

// Tokens and printed root of one round, whose pile it makes. Not inlined: each layer holds its list of 8 KiB, and so the
// piles of both hashes do not stand on the program's stack at once.
#[inline(never)]
fn serve<P: Pile + Drop, F: FnOnce() -> P>(
    rt: &HostRuntime,
    make: F,
    entries: &Halves<Entry>,
    names: &Names,
) -> anyhow::Result<()>
    requires { F.IsAlwaysCallable make }
{
    let mut pile = make();
    let leaves = [entries.port.leaf, entries.starboard.leaf];
    let calendar = fill(rt.alloc(), &mut pile, &leaves)?;
    let digest = calendar.last().context("the calendar lacks a second")?;
    println!(rt; "  second {SECOND} {digest}")?;
    let round = Committed {
        rt,
        pile: &pile,
        calendar,
    };
    round.issue(0, &entries.port, names.tokens.port)?;
    round.issue(1, &entries.starboard, names.tokens.starboard)?;
    round.publish(names.roots)
}

// The round of a ping's records under one hash, through grouping and masking to a head. Answers how many tokens there are.
fn round<H: Hash>(rt: &HostRuntime, records: &Halves<&[u8]>, names: &Names) -> anyhow::Result<u32> {
    let hash = names.hash;
    println!(rt; "{hash}")?;
    let Some(port) = enter_record::<H>(rt, "port", records.port)? else {
        return Ok(0);
    };
    let Some(starboard) = enter_record::<H>(rt, "starboard", records.starboard)? else {
        return Ok(0);
    };
    let mut row = [Digest::default(); SECONDS];
    serve(
        rt,
        || Masking::over(Grouping::over(Head::<H>::over(&mut row)), Seed::from(SEED)),
        &Halves { port, starboard },
        names,
    )?;
    Ok(2)
}

// The two halves of a ping under each hash, and a line of what was done.
fn ping(rt: &HostRuntime, files: &Halves<String>) -> anyhow::Result<()> {
    let port = fs::read(rt, files.port.as_str())?;
    let starboard = fs::read(rt, files.starboard.as_str())?;
    println!(rt; "port: {}, {} bytes", files.port, port.len())?;
    println!(rt; "starboard: {}, {} bytes", files.starboard, starboard.len())?;
    let records = Halves {
        port: port.as_slice(),
        starboard: starboard.as_slice(),
    };
    let one = round::<Sha256>(rt, &records, &UNDER_SHA256)?;
    let other = round::<Sha3>(rt, &records, &UNDER_SHA3)?;
    let tokens = one.saturating_add(other);
    println!(rt; "done: 1 ping, 2 records, {tokens} tokens written and read back")?;
    Ok(())
}

fn run(rt: &HostRuntime) -> anyhow::Result<()> {
    let mut args = env::args(rt)?.skip(1);
    let files = Halves {
        port: args.next().context(USAGE)?,
        starboard: args.next().context(USAGE)?,
    };
    ping(rt, &files)
}

fn main(rt: HostRuntime) -> anyhow::Result<()> {
    run(&rt)
}
