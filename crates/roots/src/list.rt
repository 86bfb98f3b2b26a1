// A printed list that was read: its entries as they stand in the bytes lent.
ghost use Rattle.std.specs.Prelude.{◌≡◌, length};
ghost use Rattle.std.specs.List.{slice_get};
ghost use Rattle.roots.specs.Entries.{listed};

use crate::entry::Entry;
use crate::reading::ENTRY;

#[derive(Clone, Copy, Debug, PartialEq, Eq)]
pub struct PrintedList<'a> {
    pub(crate) entries: &'a [[u8; ENTRY]],
}

impl PrintedList<'_> {
    // How many entries it has.
    pub fn count(&self) -> usize
        ensures { result ≡ length (listed self.now.entries.now) }
    {
        self.entries.len()
    }

    // The entry at a place, from 0.
    pub fn entry(&self, place: usize) -> Option<Entry>
        ensures { result ≡ slice_get (listed self.now.entries.now) place }
    {
        self.entries.get(place).map(Entry::from)
    }
}
