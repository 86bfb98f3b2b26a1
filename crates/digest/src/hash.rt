// What a hash is: a number, and one digest for each message.
ghost use Rattle.std.specs.Prelude.{◌≡◌, ℕ, ◌≤◌, List};
ghost use Rattle.digest.specs.Hashes.{answered};
ghost use Rattle.digest.specs.declared.value.Digest.{Digest};

use crate::refusal::Refusal;
use crate::value::Digest;

// The longest message that a hash takes, in bytes.
pub const LONGEST: usize = 65536;

pub trait Hash {
    // The hash's number in files.
    const NUMBER: u8;

    // the same number
    ghost NUMBER: { ℕ };

    // the digest of each message
    ghost digested: { List ℕ → Digest };

    // The message's digest, or a refusal exactly where it is too long.
    fn digest(message: &[u8]) -> Result<Digest, Refusal>
        ensures { result ≡ answered digested message.now };

    ghost within: { (1 ≤ NUMBER) × (NUMBER ≤ 255) };
}
