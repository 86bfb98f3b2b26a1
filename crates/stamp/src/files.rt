// Files that are written and read back.
use anyhow::Context;
use std::fs;

// Writes the front of a buffer to a file, and answers what the file then holds. The buffer comes with a length, since
// writers are lent the one and answer the other.
pub(crate) fn keep(
    rt: &HostRuntime,
    file: &str,
    buffer: &[u8],
    length: usize,
) -> anyhow::Result<Vec<u8>> {
    let bytes = buffer.get(..length).context("a length is past its buffer")?;
    fs::write(rt, file, bytes)?;
    Ok(fs::read(rt, file)?)
}
