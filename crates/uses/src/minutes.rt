// The minute that a calendar and a clock show.
use anyhow::Error;
use bottimers::{Zone, civil};

/// Returns the hour that a clock in Berlin shows on the first of July 2024 at noon in UTC.
pub fn hour_in_berlin() -> Result<u8, Error> {
    let berlin = Zone::posix(b"CET-1CEST,M3.5.0,M10.5.0/3")?;
    Ok(civil(1_719_835_200, &berlin)?.hour)
}
