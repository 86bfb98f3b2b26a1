// The end of a message with its padding.
ghost use Rattle.std.specs.Prelude.{◌≡◌, ◌-◌, ◌*◌, ◌<◌, ◌≤◌, ◌∷◌, ◌++◌, length, take, drop, replicate};
ghost use Rattle.digest.specs.Hashes.{longest};
ghost use Rattle.sha256.specs.Tail.{tail as ends, tail_blocks};
ghost use Rattle.sha256.specs.Words.{eight_bytes};

// The bytes of a block before the eight of the message's length.
const ROOM: usize = 56;

// How many blocks the end of a message of `len` bytes takes.
#[tactic(auto, unfolding(crate::specs::Tail::tail_blocks))]
pub(crate) fn blocks(len: usize) -> usize
    ensures count { result ≡ tail_blocks len }
    ensures few { (1 ≤ result) × (result ≤ 2) }
{
    if len % 64 < ROOM { 1 } else { 2 }
}

// What is left of a message, the padding's first byte, and zeros: always two blocks, of which `blocks` tells how many count.
#[tactic(auto, using(crate::proofs::Ends::marked_is))]
fn marked(rest: &[u8]) -> [u8; 128]
    requires { length rest.now < 64 }
    ensures { result ≡ rest.now ++ 0x80 ∷ replicate (127 - length rest.now) 0 }
{
    let mut last = [0; 128];
    last[..rest.len()].copy_from_slice(rest);
    last[rest.len()] = 0x80;
    last
}

// The same bytes with the number of bits in the eight before `end`.
fn sealed(mut last: [u8; 128], end: usize, bits: u64) -> [u8; 128]
    requires { (8 ≤ end) × (end ≤ 128) }
    ensures { result ≡ take (end - 8) last ++ (eight_bytes bits ++ drop end last) }
{
    last[end - 8..end].copy_from_slice(&bits.to_be_bytes());
    last
}

// The end of a message with its padding, and zeros behind it.
pub(crate) fn tail(message: &[u8]) -> [u8; 128]
    requires { length message.now ≤ longest }
    ensures { result ≡ ends message.now ++ replicate (128 - 64 * tail_blocks (length message.now)) 0 }
{
    let (_, rest) = message.as_chunks::<64>();
    let len = message.len();
    sealed(marked(rest), 64 * blocks(len), 8 * len as u64)
}
