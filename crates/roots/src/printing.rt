// Writing a printed list.
ghost use Rattle.std.specs.Prelude.{◌≡◌, ◌≤◌, length};
ghost use Rattle.tree.specs.Answers.{over};
ghost use Rattle.roots.specs.Laws.{WrittenLaw};
ghost use Rattle.roots.specs.Reading.{most, list_layout};
ghost use Rattle.roots.specs.Printing.{printed_length, print_answer, print_after};

use crate::entry::Entry;
use crate::fault::PrintRefusal;
use crate::order::rises;
use crate::reading::{ENTRY, HEAD, MOST};
use digest::Hash;

// Writes the head and the entries over the front of a buffer.
fn write_list(number: u8, entries: &[Entry], out: &mut [u8])
    requires few { length entries.now ≤ most }
    requires room { printed_length entries.now ≤ length out.old }
    ensures { out.new ≡ over (list_layout number entries.now) out.old }
{
    let [high, low] = (entries.len() as u16).to_be_bytes();
    out[..HEAD].copy_from_slice(&[b'H', b'C', b'P', 0, 1, number, high, low]);
    // Not `as_chunks_mut`: no clause tells what the slice ends as.
    for (place, entry) in entries.iter().enumerate() {
        let at = HEAD + ENTRY * place;
        out[at..at + ENTRY].copy_from_slice(&<[u8; ENTRY]>::from(entry));
    }
}

// Prints a list for a hash at the front of a buffer, and answers its length in bytes; a refusal changes nothing.
#[tactic(auto, using(crate::proofs::Refused::tests))]
pub fn print_list<H: Hash>(entries: &[Entry], out: &mut [u8]) -> Result<usize, PrintRefusal>
    ensures outcome { result ≡ print_answer entries.now (length out.old) }
    ensures after { out.new ≡ print_after H.NUMBER entries.now out.old }
    ensures law { WrittenLaw }
{
    if entries.len() > MOST {
        return Err(PrintRefusal::Count);
    }
    if !rises(entries) {
        return Err(PrintRefusal::Seconds);
    }
    let length = HEAD + ENTRY * entries.len();
    if out.len() < length {
        return Err(PrintRefusal::Short);
    }
    write_list(H::NUMBER, entries, out);
    Ok(length)
}
