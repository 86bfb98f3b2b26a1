// A digest: 32 bytes, whole by its type.
ghost use Rattle.std.specs.Prelude.{◌≡◌, ℕ, ◌<◌, length, slice_index, Decides};

#[derive(Clone, Copy, Debug, PartialEq, Eq)]
pub struct Digest {
    bytes: [u8; 32],
    ghost whole: { length bytes ≡ 32 },
    ghost fits: { (k : ℕ) → k < 32 → slice_index bytes k < 256 },
}

// The digest with these bytes.
impl From<[u8; 32]> for Digest {
    ghost from_gives = { λ bytes digest. digest.bytes ≡ bytes };

    fn from(bytes: [u8; 32]) -> Digest {
        Digest { bytes }
    }
}

impl Digest {
    // Its bytes, lent.
    pub fn as_bytes(&self) -> &[u8; 32]
        ensures { result.now ≡ self.now.bytes }
    {
        &self.bytes
    }

    // Whether both are one digest. The derived `==` answers the same, but its own clause speaks of the bytes alone.
    pub fn is_same(&self, other: &Digest) -> bool
        ensures { Decides result (self.now ≡ other.now) }
    {
        self == other
    }
}
