// A reader over the bytes of a token, which hands out parts of them.
ghost use Rattle.std.specs.Prelude.{◌≡◌, min, length, take};
ghost use Rattle.tree.specs.Answers.{over};
ghost use Rattle.token.specs.Held.{held};
ghost use Rattle.layout.specs.Laws.{ReadLaw};
ghost use Rattle.layout.specs.Parts.{content};
ghost use Rattle.token.specs.Copied.{copy_answer, write_after};

use crate::links::fill;
use crate::refusal::WriteRefusal;
use digest::Digest;
use layout::LINK;
use tree::Link;

// Clauses see it by `held`: a type with a lifetime that is `Copy` can have no model.
#[derive(Clone, Copy, Debug, PartialEq, Eq)]
pub struct Token<'a> {
    pub(crate) bytes: &'a [u8],
    pub(crate) recorded: &'a [u8; 32],
    pub(crate) second: u32,
    pub(crate) publication: u32,
    pub(crate) round: &'a [[u8; LINK]],
    pub(crate) calendar: &'a [[u8; LINK]],
}

impl<'a> Token<'a> {
    // All its bytes.
    pub fn bytes(&self) -> &'a [u8]
        ensures { result.now ≡ (held self.now).whole }
    {
        self.bytes
    }

    // The record's digest, a part of the token.
    pub fn recorded(&self) -> &'a [u8; 32]
        ensures { result.now ≡ (held self.now).recorded }
    {
        self.recorded
    }

    // The record's digest.
    pub fn digest(&self) -> Digest
        ensures { result ≡ (content (held self.now)).recorded }
    {
        Digest::from(*self.recorded)
    }

    pub fn second(&self) -> u32
        ensures { result ≡ (held self.now).second }
    {
        self.second
    }

    pub fn publication(&self) -> u32
        ensures { result ≡ (held self.now).publication }
    {
        self.publication
    }

    // The round links, parts of the token of 33 bytes each.
    pub fn round(&self) -> &'a [[u8; LINK]]
        ensures { result.now ≡ (held self.now).round }
    {
        self.round
    }

    // The calendar links, parts of the token of 33 bytes each.
    pub fn calendar(&self) -> &'a [[u8; LINK]]
        ensures { result.now ≡ (held self.now).calendar }
    {
        self.calendar
    }

    // Writes the round links as records at the front of `out`, and answers how many there are.
    // The arrays differ in size, so there are two methods over one `fill`. The caller lends the memory, a rule of the project,
    // and places behind the links stay as they were: so they write into an array and answer a count.
    pub fn round_links(&self, out: &mut [Link<Digest>; 64]) -> usize
        ensures count { result ≡ min (length (held self.now).round) 64 }
        ensures links { out.new ≡ over (take result (content (held self.now)).round) out.old }
    {
        fill(self.round, out)
    }

    // Writes the calendar links as records at the front of `out`, and answers how many there are.
    pub fn calendar_links(&self, out: &mut [Link<Digest>; 31]) -> usize
        ensures count { result ≡ min (length (held self.now).calendar) 31 }
        ensures links { out.new ≡ over (take result (content (held self.now)).calendar) out.old }
    {
        fill(self.calendar, out)
    }

    // Writes the token at the front of a buffer, and answers its length.
    pub fn write(&self, out: &mut [u8]) -> Result<usize, WriteRefusal>
        ensures outcome { result ≡ copy_answer (length (held self.now).whole) (length out.old) }
        ensures after { out.new ≡ write_after result (held self.now).whole out.old }
        ensures same { ReadLaw }
    {
        let length = self.bytes.len();
        if out.len() < length {
            return Err(WriteRefusal::Short);
        }
        out[..length].copy_from_slice(self.bytes);
        Ok(length)
    }
}
