// What reading a token answers, what it holds, and what writing it leaves.
use crate::buffer::{FILL, staying};
use crate::cases::Case;
use anyhow::{anyhow, ensure};
use digest::{Digest, Hash, leaf};
use token::{Token, read};
use tree::{CalendarNodes, Link, RoundNodes, follow};
use wire::Report;
use writer::Fields;

// The first and the last link of a path, if it has any.
fn show_ends(rt: &HostRuntime, path: &str, links: &[Link<Digest>]) -> anyhow::Result<()> {
    for (end, link) in [("first", links.first()), ("last", links.last())] {
        if let Some(link) = link {
            println!(rt; "  {end} {path} {} {}", link.side.number(), link.sibling)?;
        }
    }
    Ok(())
}

// The node that both paths lead to from the record's leaf.
fn followed<H: Hash>(fields: &Fields) -> Digest {
    let start = leaf::<H>(&fields.recorded);
    let second = follow::<RoundNodes<H>>(&start, fields.round);
    follow::<CalendarNodes<H>>(&second, fields.calendar)
}

// Writes the token from its fields and from its bytes, and tells how many bytes behind it stay.
fn show_written<H: Hash>(rt: &HostRuntime, token: &Token, fields: &Fields) -> anyhow::Result<()> {
    let mut made = [FILL; 3300];
    let mut copied = [FILL; 3300];
    let length = fields
        .write::<H>(&mut made)
        .map_err(|_| anyhow!("a token that was read is not written"))?;
    token
        .write(&mut copied)
        .map_err(|_| anyhow!("a token that was read is not copied"))?;
    ensure!(
        made.starts_with(token.bytes()) && made == copied,
        "a token is written as other bytes"
    );
    println!(rt;
        "  written {length}, {} bytes behind stay",
        staying(&made, length)
    )?;
    Ok(())
}

// What a token holds.
fn show_fields<H: Hash>(rt: &HostRuntime, token: &Token, fields: &Fields) -> anyhow::Result<()> {
    println!(rt; "  record {}", fields.recorded)?;
    show_ends(rt, "round", fields.round)?;
    show_ends(rt, "calendar", fields.calendar)?;
    println!(rt; "  followed {}", followed::<H>(fields))?;
    show_written::<H>(rt, token, fields)
}

// A token that was read.
fn show_token<H: Hash>(rt: &HostRuntime, name: &str, token: &Token) -> anyhow::Result<()> {
    let mut round = [Link::default(); 64];
    let mut calendar = [Link::default(); 31];
    let rounds = token.round_links(&mut round);
    let calendars = token.calendar_links(&mut calendar);
    let second = token.second();
    let publication = token.publication();
    let length = token.bytes().len();
    println!(rt;
        "{name}: second {second} publication {publication} round {rounds} calendar {calendars} length {length}"
    )?;
    let fields = Fields {
        recorded: token.digest(),
        second,
        publication,
        round: &round[..rounds],
        calendar: &calendar[..calendars],
    };
    show_fields::<H>(rt, token, &fields)
}

// A case of a token.
pub(crate) fn token_case<H: Hash>(rt: &HostRuntime, case: Case<'_>) -> anyhow::Result<()> {
    let name = case.name;
    match read::<H>(case.bytes) {
        Ok(token) => show_token::<H>(rt, name, &token),
        Err(fault) => {
            println!(rt; "{name}: refused {}", Report::from(fault))?;
            Ok(())
        }
    }
}
