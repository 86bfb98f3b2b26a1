// The secret from which masks are made: 32 bytes.
ghost use Rattle.std.specs.Prelude.{◌≡◌};

// No `Debug` and no `==`, since it is a secret, and no digest's type, so that the two do not mix.
#[derive(Clone, Copy)]
pub struct Seed {
    bytes: [u8; 32],
}

// The seed with these bytes.
impl From<[u8; 32]> for Seed {
    ghost from_gives = { λ bytes seed. seed.bytes ≡ bytes };

    fn from(bytes: [u8; 32]) -> Seed {
        Seed { bytes }
    }
}

impl Seed {
    // Its bytes, lent.
    pub fn as_bytes(&self) -> &[u8; 32]
        ensures { result.now ≡ self.now.bytes }
    {
        &self.bytes
    }
}
