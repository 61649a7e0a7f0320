// How many files a bot may have open.
ghost use Rattle.std.specs.Prelude.{◌≡◌};
ghost use Rattle.doctor.specs.Needs.{files_needed, verdict_of_limit};

use crate::user::text_of;
use crate::verdict::{Bad, Fine, Note, Verdict};
use crate::words::number_after;
use bytetext::NoMemory;
use peers::MAX_GUESTS;
use settings::Station;
use std::fs::File;
use std::rt::Files;

/// How many files a bot opens for itself, at most.
pub const OWN_FILES: u64 = 64;

/// Returns how many files the bot at this station has open at most: a hub one for each leaf and for each guest besides
/// its own.
pub fn files_needed(station: Station) -> u64
    ensures { result ≡ files_needed station }
{
    if station.number == 0 && station.leaves > 0 {
        u64::from(station.leaves) + MAX_GUESTS as u64 + OWN_FILES
    } else {
        OWN_FILES
    }
}

// Looks at how many files this process may open.
pub(crate) fn files_verdict<R: AllocGlobal + Files<File = File>>(
    rt: &R,
    station: Station,
) -> Result<Verdict, NoMemory> {
    let text = text_of(rt, "/proc/self/limits")?;
    let limit = number_after(text.as_slice(), b"Max open files");
    Ok(verdict_of_limit(limit, files_needed(station)))
}

// What a limit means for a bot that needs so many.
fn verdict_of_limit(limit: Option<u64>, needed: u64) -> Verdict
    ensures { result ≡ verdict_of_limit limit needed }
{
    match limit {
        None => Verdict::Note(Note::Files(needed)),
        Some(limit) if limit < needed => Verdict::Bad(Bad::Files { limit, needed }),
        Some(limit) => Verdict::Fine(Fine::Files { limit, needed }),
    }
}
