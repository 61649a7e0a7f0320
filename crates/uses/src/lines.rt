// The lines of a stream, wherever it is cut.
use anyhow::Error;
use ircline::LineReader;
use std::alloc::Global;

/// Returns how many lines end in each of two pieces.
pub fn ended(alloc: Global) -> Result<(usize, usize), Error> {
    let mut reader = LineReader::new(alloc);
    let first = reader.feed(alloc, b":ann!a@host PRIV")?;
    let second = reader.feed(alloc, b"MSG #egg :hi there\r\nPING a\n")?;
    Ok((first.len(), second.len()))
}
