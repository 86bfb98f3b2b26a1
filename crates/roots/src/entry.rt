// One root of the calendar, and an entry's 36 bytes in a printed list.
ghost use Rattle.std.specs.Prelude.{◌≡◌};
ghost use Rattle.roots.specs.Entries.{second_in, entry_of, entry_bytes};

use crate::order::Dated;
use crate::reading::ENTRY;
use digest::Digest;
use wire::number_at;

// The root of the calendar as it stood at a second.
#[derive(Clone, Copy, Debug, PartialEq, Eq)]
pub struct Entry {
    pub second: u32,
    pub root: Digest,
}

impl Dated for Entry {
    ghost dated = { λ entry. entry.second };

    fn second(&self) -> u32 {
        self.second
    }
}

impl Dated for [u8; ENTRY] {
    ghost dated = { second_in };

    fn second(&self) -> u32 {
        number_at(self, 0).unwrap()
    }
}

// The entry that bytes print.
impl From<&[u8; ENTRY]> for Entry {
    ghost from_gives = { λ raw entry. entry ≡ entry_of raw.now };

    fn from(raw: &[u8; ENTRY]) -> Entry
        ensures { result ≡ entry_of raw.now }
    {
        let root = raw[4..].first_chunk().unwrap();
        Entry {
            second: raw.second(),
            root: Digest::from(*root),
        }
    }
}

// The bytes that print an entry.
impl From<&Entry> for [u8; ENTRY] {
    ghost from_gives = { λ entry raw. raw ≡ entry_bytes entry.now };

    fn from(entry: &Entry) -> [u8; ENTRY]
        ensures { result ≡ entry_bytes entry.now }
    {
        let mut raw = [0; ENTRY];
        raw[..4].copy_from_slice(&entry.second.to_be_bytes());
        raw[4..].copy_from_slice(entry.root.as_bytes());
        raw
    }
}
