// Numbers among bytes.
ghost use Rattle.std.specs.Prelude.{◌≡◌};
ghost use Rattle.wire.specs.Bytes.{number_told};

// The number in the four bytes from a place on, or none where there are fewer.
pub fn number_at(bytes: &[u8], place: usize) -> Option<u32>
    ensures { result ≡ number_told bytes.now place }
{
    let four = bytes.get(place..)?.first_chunk()?;
    Some(u32::from_be_bytes(*four))
}
