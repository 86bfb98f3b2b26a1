// What loading a printed list answers, what it holds, and what printing it leaves.
use crate::buffer::{FILL, staying};
use crate::cases::Case;
use anyhow::{anyhow, ensure};
use digest::{Digest, Hash};
use roots::{Entry, Holder, PrintedList, Roots, print_list};
use wire::Report;

// The most entries of a list.
const MOST: usize = 1800;

fn second_at(list: &PrintedList, place: usize) -> Option<u32> {
    list.entry(place).map(|entry| entry.second)
}

// The seconds that are looked up: the list's ends and middle, and seconds that it cannot have.
fn asked(list: &PrintedList) -> [Option<u32>; 7] {
    let last = second_at(list, list.count().saturating_sub(1));
    [
        Some(0),
        second_at(list, 0),
        second_at(list, list.count() / 2),
        last,
        last.and_then(|last| last.checked_add(1)),
        Some(0x7fff_ffff),
        Some(u32::MAX),
    ]
}

// Looks up a second.
fn show_root<R: Roots>(rt: &HostRuntime, roots: &R, second: u32) -> anyhow::Result<()> {
    match roots.root(second) {
        Some(root) => println!(rt; "  second {second} root {root}")?,
        None => println!(rt; "  second {second} absent")?,
    }
    Ok(())
}

// Looks up each of these seconds once.
fn show_roots<R: Roots>(
    rt: &HostRuntime,
    roots: &R,
    seconds: &[Option<u32>],
) -> anyhow::Result<()> {
    for (place, second) in seconds.iter().enumerate() {
        match second {
            Some(asked) if !seconds[..place].contains(second) => show_root(rt, roots, *asked)?,
            _ => {}
        }
    }
    Ok(())
}

// Prints the list again, and tells how many bytes behind it stay.
fn show_printed<H: Hash>(rt: &HostRuntime, list: &PrintedList, bytes: &[u8]) -> anyhow::Result<()> {
    let blank = Entry {
        second: 0,
        root: Digest::default(),
    };
    let mut entries = [blank; MOST];
    for (place, entry) in entries.iter_mut().enumerate() {
        *entry = list.entry(place).unwrap_or(blank);
    }
    let entries = &entries[..list.count().min(MOST)];
    let mut buffer = [FILL; 65000];
    let length = print_list::<H>(entries, &mut buffer).map_err(|_| anyhow!(
        "a list that was loaded is not printed"
    ))?;
    ensure!(
        buffer.starts_with(bytes),
        "a list is printed as other bytes"
    );
    println!(rt;
        "  printed {length}, {} bytes behind stay",
        staying(&buffer, length)
    )?;
    Ok(())
}

// A case of a printed list, for the holder of its hash.
pub(crate) fn list_case<'a, H: Hash>(
    rt: &HostRuntime,
    holder: &mut Holder<'a, H>,
    case: Case<'a>,
) -> anyhow::Result<()> {
    let name = case.name;
    if let Err(fault) = holder.load(case.bytes) {
        let report = Report::from(fault);
        let count = holder.list().count();
        println!(rt; "{name}: refused {report}, holds {count}")?;
        return Ok(());
    }
    let list = holder.list();
    let count = list.count();
    println!(rt; "{name}: loaded {count}")?;
    show_roots(rt, holder, &asked(&list))?;
    show_printed::<H>(rt, &list, case.bytes)
}
