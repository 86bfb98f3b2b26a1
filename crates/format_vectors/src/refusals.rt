// What the writers refuse.
use crate::buffer::FILL;
use digest::Digest;
use roots::{Entry, PrintRefusal, print_list};
use sha256::Sha256;
use std::array;
use token::WriteRefusal;
use tree::Link;
use writer::Fields;

// Why one of the writers turns a call away.
#[derive(Clone, Copy, Debug, PartialEq, Eq)]
enum Refusal {
    Write(WriteRefusal),
    Print(PrintRefusal),
}

impl Refusal {
    fn number(self) -> u8 {
        match self {
            Refusal::Write(refusal) => refusal.number(),
            Refusal::Print(refusal) => refusal.number(),
        }
    }
}

impl From<WriteRefusal> for Refusal {
    fn from(refusal: WriteRefusal) -> Refusal {
        Refusal::Write(refusal)
    }
}

impl From<PrintRefusal> for Refusal {
    fn from(refusal: PrintRefusal) -> Refusal {
        Refusal::Print(refusal)
    }
}

// Writes a token with so many links into so many bytes, and answers its length.
fn written(
    (round, calendar): (usize, usize),
    (second, publication): (u32, u32),
    room: usize,
) -> Result<usize, Refusal> {
    let links = [Link::default(); 65];
    let mut buffer = [FILL; 3300];
    let fields = Fields {
        recorded: Digest::default(),
        second,
        publication,
        round: &links[..round.min(65)],
        calendar: &links[..calendar.min(65)],
    };
    Ok(fields.write::<Sha256>(&mut buffer[..room.min(3300)])?)
}

// Prints entries into so many bytes, and answers the list's length.
fn printed(entries: &[Entry], room: usize) -> Result<usize, Refusal> {
    let mut buffer = [FILL; 65000];
    Ok(print_list::<Sha256>(entries, &mut buffer[..room.min(65000)])?)
}

fn show(rt: &HostRuntime, what: &str, answer: Result<usize, Refusal>) -> anyhow::Result<()> {
    match answer.map_err(Refusal::number) {
        Ok(length) => println!(rt; "{what}: {length}")?,
        Err(number) => println!(rt; "{what}: refused {number}")?,
    }
    Ok(())
}

fn entry(second: u32) -> Entry {
    Entry {
        second,
        root: Digest::default(),
    }
}

// One entry more than a list takes, at seconds that rise.
fn many() -> [Entry; 1801] {
    array::from_fn(|second| entry(second as u32))
}

pub(crate) fn show_refusals(rt: &HostRuntime) -> anyhow::Result<()> {
    println!(rt; "refusals")?;
    show(rt, "write round 65", written((65, 0), (0, 0), 3300))?;
    show(rt, "write calendar 32", written((0, 32), (0, 0), 3300))?;
    let late = written((0, 0), (0, 0x8000_0000), 3300);
    show(rt, "write publication 2147483648", late)?;
    let beyond = written((0, 0), (1, 0), 3300);
    show(rt, "write second beyond publication", beyond)?;
    show(rt, "write into 3182 bytes", written((64, 31), (0, 0), 3182))?;
    show(rt, "write into 3183 bytes", written((64, 31), (0, 0), 3183))?;
    show(rt, "print 1801", printed(&many(), 65000))?;
    let equal = printed(&[entry(1), entry(1)], 65000);
    show(rt, "print equal seconds", equal)?;
    show(rt, "print into 43 bytes", printed(&[entry(1)], 43))?;
    show(rt, "print into 44 bytes", printed(&[entry(1)], 44))
}
