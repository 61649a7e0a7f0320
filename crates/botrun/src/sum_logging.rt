// The lines of the log that show the sum of the bot's records.
use administrators::LogEntry;
use botcore::Bot;
use bytetext::NoMemory;
use disks::FileDisk;
use net::Log;
use recordsums::{KeptSum, Sums};

// Logs the sum of the records of `bot` if that is due at second `now`. `is_last` says whether the bot ends.
pub(crate) fn tell_sum<R: AllocGlobal>(
    rt: &R,
    log: &mut Log,
    bot: &Bot<FileDisk>,
    kept_sum: &mut KeptSum,
    sums: &mut Sums,
    is_last: bool,
    now: u64,
) -> Result<(), NoMemory> {
    let version = bot.version();
    if sums.is_due(version, is_last, now) {
        let sum = kept_sum.at(rt.alloc(), version, bot.userfile())?;
        log.note(now, &LogEntry::Records(version, &sum));
        sums.tell(version, now);
    }
    Ok(())
}
