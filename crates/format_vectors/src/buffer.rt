// Buffers that show what a writer leaves behind.

// What a buffer holds before it is written.
pub(crate) const FILL: u8 = 0xa5;

// How many bytes from a place on are as they were.
pub(crate) fn staying(buffer: &[u8], from: usize) -> usize {
    buffer
        .iter()
        .skip(from)
        .filter(|byte| **byte == FILL)
        .count()
}
