// What a token and a printed list hold, as they are read from their files.
use anyhow::{Context, anyhow};
use digest::{Digest, Hash, leaf};
use roots::{Holder, Roots};
use token::{Token, read};
use tree::{CalendarNodes, Link, RoundNodes, follow};

fn tell_links(rt: &HostRuntime, kind: &str, links: &[Link<Digest>]) -> anyhow::Result<()> {
    for link in links {
        println!(rt; "    {kind} {} {}", link.side.number(), link.sibling)?;
    }
    Ok(())
}

// The fields of a token, and the root that its two paths lead to.
fn tell_fields<H: Hash>(rt: &HostRuntime, token: &Token) -> anyhow::Result<()> {
    let mut round = [Link::default(); 64];
    let mut calendar = [Link::default(); 31];
    let rounds = token.round_links(&mut round);
    let calendars = token.calendar_links(&mut calendar);
    let recorded = token.digest();
    let second = token.second();
    let publication = token.publication();
    println!(rt; "    record {recorded}")?;
    println!(rt; "    second {second}, publication {publication}")?;
    tell_links(rt, "round", &round[..rounds])?;
    tell_links(rt, "calendar", &calendar[..calendars])?;
    let start = leaf::<H>(&recorded);
    let reached = follow::<RoundNodes<H>>(&start, &round[..rounds]);
    let root = follow::<CalendarNodes<H>>(&reached, &calendar[..calendars]);
    println!(rt; "    leads to {root}")?;
    Ok(())
}

// A token in bytes.
pub(crate) fn tell_token<H: Hash>(
    rt: &HostRuntime,
    file: &str,
    bytes: &[u8],
) -> anyhow::Result<()> {
    println!(rt; "  {file}: {} bytes", bytes.len())?;
    let token = read::<H>(bytes).map_err(|_| anyhow!("the token does not read back"))?;
    tell_fields::<H>(rt, &token)
}

// A printed list in bytes, and its root at a second.
pub(crate) fn tell_list<H: Hash>(
    rt: &HostRuntime,
    file: &str,
    bytes: &[u8],
    second: u32,
) -> anyhow::Result<()> {
    println!(rt; "  {file}: {} bytes", bytes.len())?;
    let mut holder = Holder::<H>::empty();
    holder
        .load(bytes)
        .map_err(|_| anyhow!("the list does not read back"))?;
    let root = holder.root(second).context("the list lacks its root")?;
    println!(rt; "    second {second} root {root}")?;
    Ok(())
}
