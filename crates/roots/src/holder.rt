// Holds a printed list, and finds the roots of its seconds.
ghost use Rattle.std.specs.Prelude.{◌≡◌, ◌+◌, ◌*◌, ◌^◌, ◌≤◌, true, [], length};
ghost use Rattle.roots.specs.Entries.{listed, seconds_of, rising, looked_up};
ghost use Rattle.roots.specs.Laws.{RisingLaw, ReadsBack, FoundLaw};
ghost use Rattle.roots.specs.Reading.{list_answer, loaded, held_after};

use crate::entry::Entry;
use crate::fault::ListFault;
use crate::list::PrintedList;
use crate::reading::read_list;
use crate::roots::Roots;
use digest::{Digest, Hash};
use std::marker::PhantomData;

// A list of roots, which is empty before the first load. It has no model: clauses read its list, and callers see its order by the ghost field.
#[derive(Drop)]
pub struct Holder<'a, D> {
    list: PrintedList<'a>,
    hash: PhantomData<D>,
    ghost ordered: { rising 0 (seconds_of (listed list.entries.now)) ≡ true },
}

// What a look-up found, and at how many entries it looked.
#[derive(Clone, Copy, Debug, PartialEq, Eq)]
pub struct LookUp {
    pub root: Option<Digest>,
    pub looks: u8,
}

impl<'a, D: Hash> Holder<'a, D> {
    // A holder that has no root.
    pub fn empty() -> Holder<'a, D>
        ensures { listed result.list.entries.now ≡ [] }
    {
        Holder {
            list: PrintedList { entries: &[] },
            hash: PhantomData,
        }
    }

    // Takes the list that these bytes print in place of its own; a refusal leaves it as it was.
    pub fn load(&mut self, bytes: &'a [u8]) -> Result<(), ListFault>
        ensures outcome { result ≡ loaded (list_answer D.NUMBER bytes.now) }
        ensures after { listed self.new.list.entries.now ≡ held_after (list_answer D.NUMBER bytes.now) (listed self.old.list.entries.now) }
        ensures order { RisingLaw }
        ensures back { ReadsBack }
    {
        self.list = read_list::<D>(bytes)?;
        Ok(())
    }
}

impl<'a, D> Holder<'a, D> {
    // The list that it holds.
    pub fn list(&self) -> PrintedList<'a>
        ensures { result.entries.now ≡ self.now.list.entries.now }
    {
        self.list
    }

    // The root of a second. Each look leaves at most half of the entries.
    // The library's search looks three times at three entries, and tells no number of looks.
    pub fn look_up(&self, second: u32) -> LookUp
        ensures root { result.root ≡ looked_up (listed self.now.list.entries.now) second }
        ensures looks { 2 ^ result.looks ≤ 2 * length (listed self.now.list.entries.now) + 1 }
        ensures law { FoundLaw }
    {
        let entries = self.list.entries;
        let mut low = 0;
        let mut high = entries.len();
        let mut looks = 0;
        while low < high {
            let middle = low + (high - low) / 2;
            let entry = Entry::from(&entries[middle]);
            looks += 1;
            if entry.second == second {
                return LookUp {
                    root: Some(entry.root),
                    looks,
                };
            }
            if entry.second < second {
                low = middle + 1;
            } else {
                high = middle;
            }
        }
        LookUp { root: None, looks }
    }
}

impl<D: Hash> Roots for Holder<'_, D> {
    type Digester = D;

    ghost roots = { λ h. looked_up (listed h.list.entries.now) };

    fn root(&self, second: u32) -> Option<Digest> {
        self.look_up(second).root
    }
}
