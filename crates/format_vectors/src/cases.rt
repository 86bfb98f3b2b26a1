// A file of cases: each has a name, the hash that it is read for, and its bytes.
ghost use Rattle.std.specs.Prelude.{◌<◌, length, IfSome};
ghost use Rattle.std.specs.Iterator.{at_most};

use digest::Hash;
use sha256::Sha256;
use std::str::from_utf8;

// The hash that a case is read for.
#[derive(Clone, Copy, Debug, PartialEq, Eq)]
pub(crate) enum Under {
    Sha256,
    Sha3,
}

impl From<u8> for Under {
    fn from(number: u8) -> Under {
        if number == Sha256::NUMBER {
            Under::Sha256
        } else {
            Under::Sha3
        }
    }
}

#[derive(Clone, Copy, Debug, PartialEq, Eq)]
pub(crate) struct Case<'a> {
    pub name: &'a str,
    pub under: Under,
    pub bytes: &'a [u8],
}

// Takes the first case off the front: its name's length, the name, the hash's number, a length in four bytes, and the bytes.
fn take_case(all: &[u8]) -> Option<(Case<'_>, &[u8])>
    ensures { IfSome result (λ p. length p.1.now < length all.now) }
{
    let (size, rest) = all.split_first()?;
    let (name, rest) = rest.split_at_checked(*size as usize)?;
    let name = from_utf8(name).ok()?;
    let (number, rest) = rest.split_first()?;
    let (length, rest) = rest.split_first_chunk::<4>()?;
    let (bytes, rest) = rest.split_at_checked(u32::from_be_bytes(*length) as usize)?;
    let case = Case {
        name,
        under: Under::from(*number),
        bytes,
    };
    Some((case, rest))
}

// The cases of a file, from its front to the first place where there is none.
#[derive(Drop)]
pub(crate) struct Cases<'a> {
    rest: &'a [u8],
}

impl<'a> Cases<'a> {
    pub(crate) fn of(all: &'a [u8]) -> Cases<'a> {
        Cases { rest: all }
    }
}

impl<'a> Iterator for Cases<'a> {
    type Item = Case<'a>;

    ghost remaining = { λ s. at_most (length s.rest.now) };

    fn next(&mut self) -> Option<Case<'a>> {
        let (case, rest) = take_case(self.rest)?;
        self.rest = rest;
        Some(case)
    }
}
