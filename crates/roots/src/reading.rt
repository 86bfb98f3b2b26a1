// Reading a printed list.
ghost use Rattle.std.specs.Prelude.{◌≡◌};
ghost use Rattle.roots.specs.Entries.{listed};
ghost use Rattle.roots.specs.Reading.{told, list_answer};

use crate::fault::ListFault;
use crate::list::PrintedList;
use crate::order::rises;
use digest::Hash;

// The version of the layout.
const VERSION: u16 = 1;

// The most entries of a list.
pub(crate) const MOST: usize = 1800;

// Where the entries begin.
pub(crate) const HEAD: usize = 8;

// The bytes of an entry.
pub(crate) const ENTRY: usize = 36;

// The list that these bytes print, for a hash.
pub fn read_list<H: Hash>(bytes: &[u8]) -> Result<PrintedList<'_>, ListFault>
    ensures { told (λ l. listed l.entries.now) result ≡ list_answer H.NUMBER bytes.now }
{
    if bytes.len() < HEAD {
        return Err(ListFault::Short);
    }
    let [b'H', b'C', b'P', high, low, number, upper, lower, raw @ ..] = bytes else {
        return Err(ListFault::Mark);
    };
    if u16::from_be_bytes([*high, *low]) != VERSION {
        return Err(ListFault::Version);
    }
    if *number != H::NUMBER {
        return Err(ListFault::Hash);
    }
    let count = u16::from_be_bytes([*upper, *lower]) as usize;
    if count > MOST || bytes.len() != HEAD + ENTRY * count {
        return Err(ListFault::Size);
    }
    let (entries, _) = raw.as_chunks::<ENTRY>();
    if !rises(entries) {
        return Err(ListFault::Seconds);
    }
    Ok(PrintedList { entries })
}
