// A token written from its fields.
ghost use Rattle.std.specs.Prelude.{◌≡◌, ◌*◌, ◌≤◌, length, Ok, OnOk};
ghost use Rattle.tree.specs.Answers.{over};
ghost use Rattle.layout.specs.Content.{Whole, token_length, link_bytes, links_bytes, layout};
ghost use Rattle.layout.specs.Faults.{parsed};
ghost use Rattle.layout.specs.Laws.{WrittenLaw};
ghost use Rattle.token.specs.Copied.{write_after};
ghost use Rattle.writer.specs.Said.{said, write_answer};

use crate::fields::Fields;
use digest::{Digest, Hash};
use layout::{HEAD, LINK, MOST_CALENDAR, MOST_ROUND, PUBLICATIONS};
use token::WriteRefusal;
use tree::Link;

// A link in 33 bytes: its side, and the sibling. A `From` would have to stand in `tree`, which does not know the format.
fn raw(link: &Link<Digest>) -> [u8; 33]
    ensures { result ≡ link_bytes link.now }
{
    let mut bytes = [link.side.number(); 33];
    bytes[1..33].copy_from_slice(link.sibling.as_bytes());
    bytes
}

// Writes links over a buffer of their size.
fn put_links(links: &[Link<Digest>], out: &mut [u8])
    requires { length out.old ≡ 33 * length links.now }
    ensures { out.new ≡ links_bytes links.now }
{
    // Not `as_chunks_mut`: no clause tells what the slice ends as.
    for (k, link) in links.iter().enumerate() {
        let at = LINK * k;
        out[at..at + LINK].copy_from_slice(&raw(link));
    }
}

// Writes all of a token at the front of a buffer that has room for it, and answers its length.
fn lay_out<H: Hash>(fields: &Fields, out: &mut [u8]) -> usize
    requires { (Whole (said fields.now)) × (token_length (said fields.now) ≤ length out.old) }
    ensures size { result ≡ token_length (said fields.now) }
    ensures after { out.new ≡ over (layout H.NUMBER (said fields.now)) out.old }
{
    out[..6].copy_from_slice(&[b'H', b'C', b'T', 0, 1, H::NUMBER]);
    out[6..38].copy_from_slice(fields.recorded.as_bytes());
    out[38..42].copy_from_slice(&fields.second.to_be_bytes());
    out[42..46].copy_from_slice(&fields.publication.to_be_bytes());
    out[46..HEAD].copy_from_slice(&[fields.round.len() as u8, fields.calendar.len() as u8]);
    let middle = HEAD + LINK * fields.round.len();
    put_links(fields.round, &mut out[HEAD..middle]);
    let end = middle + LINK * fields.calendar.len();
    put_links(fields.calendar, &mut out[middle..end]);
    end
}

impl Fields<'_> {
    // Writes the token of these fields, under a hash, at the front of a buffer, and answers its length.
    #[tactic(auto, using(crate::proofs::Refused::tests))]
    pub fn write<H: Hash>(&self, out: &mut [u8]) -> Result<usize, WriteRefusal>
        ensures outcome { result ≡ write_answer (said self.now) (length out.old) }
        ensures after { out.new ≡ write_after result (layout H.NUMBER (said self.now)) out.old }
        ensures reads { OnOk result (parsed H.NUMBER (layout H.NUMBER (said self.now)) ≡ Ok (said self.now)) }
        ensures law { WrittenLaw }
    {
        if self.round.len() > MOST_ROUND {
            return Err(WriteRefusal::RoundCount);
        }
        if self.calendar.len() > MOST_CALENDAR {
            return Err(WriteRefusal::CalendarCount);
        }
        if self.publication >= PUBLICATIONS {
            return Err(WriteRefusal::Publication);
        }
        if self.second > self.publication {
            return Err(WriteRefusal::Second);
        }
        if out.len() < HEAD + LINK * (self.round.len() + self.calendar.len()) {
            return Err(WriteRefusal::Short);
        }
        Ok(lay_out::<H>(self, out))
    }
}
