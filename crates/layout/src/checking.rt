// Whether bytes are a token.
ghost use Rattle.std.specs.Prelude.{◌≡◌, ◌≤◌, length, Some, MatchResult};
ghost use Rattle.layout.specs.Faults.{Headed, bad_side, check_answer, token_fault};
ghost use Rattle.layout.specs.Laws.{LongestLaw, TokenLaw};

use crate::fault::Fault;
use crate::sizes::{HEAD, LINK, MOST_CALENDAR, MOST_ROUND, PUBLICATIONS};
use digest::Hash;
use tree::Side;
use wire::number_at;

const VERSION: u16 = 1;

// The place of the first number that names no side.
fn bad_side(links: &[[u8; LINK]]) -> Option<usize>
    requires { length links.now ≤ 95 }
    ensures { result ≡ bad_side 48 links.now }
{
    let place = links
        .iter()
        .position(|link| Side::try_from(link[0]).is_err())?;
    Some(HEAD + LINK * place)
}

// The tests of a token's head: its length, mark, version, hash, and the two counts.
#[tactic(auto, using(crate::proofs::Faulted::head_tests))]
fn head<H: Hash>(bytes: &[u8]) -> Result<(), Fault>
    ensures { MatchResult result (λ _. Headed H.NUMBER bytes.now) (λ fault. token_fault H.NUMBER bytes.now ≡ Some fault) }
{
    if bytes.len() < HEAD {
        return Err(Fault::Short(bytes.len()));
    }
    let [b'H', b'C', b'T', high, low, number, ..] = bytes else {
        return Err(Fault::Mark);
    };
    if u16::from_be_bytes([*high, *low]) != VERSION {
        return Err(Fault::Version);
    }
    if *number != H::NUMBER {
        return Err(Fault::Hash);
    }
    let round = bytes[46] as usize;
    let calendar = bytes[47] as usize;
    if round > MOST_ROUND {
        return Err(Fault::RoundCount);
    }
    if calendar > MOST_CALENDAR {
        return Err(Fault::CalendarCount);
    }
    if bytes.len() != HEAD + LINK * (round + calendar) {
        return Err(Fault::Length(bytes.len()));
    }
    Ok(())
}

// The first fault of bytes that are read for a hash; a token has none.
#[tactic(auto, using(crate::proofs::Behind::tests))]
pub fn check<H: Hash>(bytes: &[u8]) -> Result<(), Fault>
    ensures answer { result ≡ check_answer H.NUMBER bytes.now }
    ensures exact { TokenLaw }
    ensures longest { LongestLaw }
{
    head::<H>(bytes)?;
    let (links, _) = bytes[HEAD..].as_chunks::<LINK>();
    if let Some(place) = bad_side(links) {
        return Err(Fault::Side(place));
    }
    let publication = number_at(bytes, 42).unwrap();
    if publication >= PUBLICATIONS {
        return Err(Fault::Publication);
    }
    let second = number_at(bytes, 38).unwrap();
    if second > publication {
        return Err(Fault::Second);
    }
    Ok(())
}
