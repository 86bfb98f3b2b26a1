// A calendar's memory: a row of records that the program lends, filled from the front.
ghost use Rattle.std.specs.Prelude.{◌≡◌, ◌+◌, ◌^◌, ◌<◌, ◌≤◌, false, length, nat_le, slice_set, take};
ghost use Rattle.std.specs.List.{slice_get};
ghost use Rattle.pile.specs.Head.{head_span, head_row, head_round};

use digest::Digest;

// The most seconds that a calendar has.
const LONGEST: usize = 0x8000_0000;

// The program lends the memory, so the seconds are a slice and a count. `filled` says whether the last round had a digest,
// which is the row's last one: an Option of it would keep it twice. No model: clauses speak of the lent row itself, which a
// model that shows the calendar alone would hide.
#[derive(Drop)]
pub(crate) struct Records<'a> {
    lent: &'a mut [Digest],
    held: usize,
    filled: bool,
    ghost short: { length lent.now ≤ 2 ^ 31 },
    ghost within: { held ≤ length lent.now },
}

impl<'a> Records<'a> {
    // No second yet; what is lent beyond the longest calendar is left alone.
    pub(crate) fn over(lent: &'a mut [Digest]) -> Records<'a>
        ensures lent { result.lent.now ≡ take (head_span lent.old) lent.old }
        ensures held { result.held ≡ 0 }
        ensures filled { result.filled ≡ false }
    {
        let room = lent.len().min(LONGEST);
        Records {
            lent: &mut lent[..room],
            held: 0,
            filled: false,
        }
    }
}

impl Records<'_> {
    // How many seconds it can hold.
    pub(crate) fn room(&self) -> u32
        ensures { result ≡ head_span self.now.lent.now }
    {
        self.lent.len() as u32
    }

    // How many seconds it holds.
    pub(crate) fn seconds(&self) -> u32
        ensures { result ≡ length (head_row self.now.lent.now self.now.held) }
    {
        self.held as u32
    }

    // Whether it can hold no more seconds.
    pub(crate) fn full(&self) -> bool
        ensures { result ≡ nat_le (head_span self.now.lent.now) self.now.held }
    {
        self.lent.len() <= self.held
    }

    // The digests of its seconds.
    fn row(&self) -> &[Digest]
        ensures { result.now ≡ head_row self.now.lent.now self.now.held }
    {
        &self.lent[..self.held]
    }

    // The digest of a second.
    pub(crate) fn at(&self, second: u32) -> Option<Digest>
        ensures { result ≡ slice_get (head_row self.now.lent.now self.now.held) second }
    {
        self.row().get(second as usize).copied()
    }

    // The last round: the row's last digest, or nothing after an empty second and before the first.
    pub(crate) fn round(&self) -> &[Digest]
        ensures { result.now ≡ head_round (head_row self.now.lent.now self.now.held) self.now.filled }
    {
        let row = self.row();
        if self.filled {
            &row[row.len().saturating_sub(1)..]
        } else {
            &[]
        }
    }

    // Enters the digest of the next second. `filled` is kept, and picks no step.
    pub(crate) fn enter(&mut self, digest: Digest, filled: bool)
        requires { self.old.held < head_span self.old.lent.now }
        ensures lent { self.new.lent.now ≡ slice_set self.old.lent.now self.old.held digest }
        ensures held { self.new.held ≡ self.old.held + 1 }
        ensures filled { self.new.filled ≡ filled }
    {
        self.lent[self.held] = digest;
        self.held += 1;
        self.filled = filled;
    }
}
