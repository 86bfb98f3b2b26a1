// A digest as text: 64 hexadecimal digits.
ghost use Rattle.std.specs.Prelude.{◌≡◌, ◌<◌, Some};
ghost use Rattle.digest.specs.Text.{digit_of, hexadecimal};

use crate::value::Digest;
use std::fmt;

// The digit of a number below 16.
fn digit(n: u8) -> char
    requires { n < 16 }
    ensures value { result ≡ digit_of n }
    ensures ascii { result < 128 }
{
    char::from_digit(n as u32, 16).unwrap()
}

impl fmt::Display for Digest {
    ghost output = { λ d. Some (hexadecimal d.bytes) };

    // Digit by digit, so that a writer that fills up keeps all that it had room for.
    fn fmt<W: fmt::Write>(&self, f: &mut fmt::Formatter<W>) -> fmt::Result {
        for byte in self.as_bytes() {
            f.write_char(digit(*byte / 16))?;
            f.write_char(digit(*byte % 16))?;
        }
        Ok(())
    }
}
