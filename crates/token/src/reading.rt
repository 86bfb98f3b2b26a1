// Bytes read as a token.
ghost use Rattle.std.specs.Prelude.{◌≡◌, ◌≤◌, length, IfOk};
ghost use Rattle.layout.specs.Content.{layout};
ghost use Rattle.layout.specs.Faults.{length_told, read_answer};
ghost use Rattle.layout.specs.Parts.{content, parts_of};
ghost use Rattle.token.specs.Held.{held, told};

use crate::token::Token;
use digest::Hash;
use layout::{Fault, HEAD, LINK, check};
use wire::number_at;

// The parts of bytes that have the length their counts ask for.
fn parted(bytes: &[u8]) -> Token<'_>
    requires { (48 ≤ length bytes.now) × (length bytes.now ≡ length_told bytes.now) }
    ensures { held result ≡ parts_of bytes.now }
{
    let recorded = bytes[6..].first_chunk().unwrap();
    let (links, _) = bytes[HEAD..].as_chunks::<LINK>();
    let (round, calendar) = links.split_at(bytes[46] as usize);
    Token {
        bytes,
        recorded,
        second: number_at(bytes, 38).unwrap(),
        publication: number_at(bytes, 42).unwrap(),
        round,
        calendar,
    }
}

// The token in these bytes, read for a hash, or their first fault.
pub fn read<H: Hash>(bytes: &[u8]) -> Result<Token<'_>, Fault>
    ensures answer { told result ≡ read_answer H.NUMBER bytes.now }
    ensures back { IfOk result (λ token. layout H.NUMBER (content (held token)) ≡ bytes.now) }
{
    check::<H>(bytes)?;
    Ok(parted(bytes))
}
