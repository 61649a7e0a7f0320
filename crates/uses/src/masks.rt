// A hostmask.
use anyhow::Error;
use std::alloc::Global;
use wildmask::Mask;

/// Returns whether a mask matches a person, whatever the case of the letters in the nick.
pub fn is_meant(alloc: Global) -> Result<bool, Error> {
    let mask = Mask::host(alloc, b"*!bo?@*.net")?;
    Ok(mask.matches(b"x!Bob@a.net"))
}
