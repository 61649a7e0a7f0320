// Civil time: the minute that a calendar and a clock show at a moment.
ghost use Rattle.std.specs.Prelude.{◌≡◌, ◌↔◌, IsOk, IfOk, IfErr};
ghost use Rattle.bottimers.specs.Seconds.{IsMoment};
ghost use Rattle.bottimers.specs.Civil.{IsCalendarMinute};
ghost use Rattle.bottimers.specs.Zones.{IsInYear, minute_at, year_of};

use crate::fault::ClockFault;
use crate::zone::Zone;
use bytetext::{MOMENTS_END, NoMemory, TryCopy};
use std::alloc::Global;

/// A minute of the calendar. [`civil`] returns values within the ranges that the fields state.
#[derive(Clone, Copy, Debug, PartialEq, Eq)]
pub struct CivilMinute {
    /// The year, 1969 to 3000.
    pub year: i16,
    /// The month, 1 for January to 12.
    pub month: u8,
    /// The day of the month, 1 to 31.
    pub day: u8,
    /// The hour, 0 to 23.
    pub hour: u8,
    /// The minute, 0 to 59.
    pub minute: u8,
    /// The day of the week, 0 for Sunday to 6.
    pub weekday: u8,
}

impl TryCopy for CivilMinute {
    // Does not allocate.
    fn copy(&self, _alloc: Global) -> Result<CivilMinute, NoMemory>
        ensures equal { IfOk result (λ twin. twin ≡ self.now) }
        ensures needs_none { IsOk result }
    {
        Ok(*self)
    }
}

/// Returns the minute that the calendar and the clock show in `zone` at `moment`, in seconds since 1970-01-01 UTC. It
/// does not allocate.
///
/// When the clock of a zone is set forward, no moment has the minutes that it skips. When it is set back, two moments
/// have the same minute.
///
/// # Errors
/// `BadMoment` if `moment` is after the year 2999.
pub fn civil(moment: u64, zone: &Zone) -> Result<CivilMinute, ClockFault>
    ensures moments { IsOk result ↔ IsMoment moment }
    // The minute is the moment plus the offset that the rule has then, in whole minutes.
    ensures minute { IfOk result (IsCalendarMinute (minute_at zone.now moment)) }
    // The rule is evaluated for the year of the moment in UTC.
    ensures year { IfOk result (λ _. IsInYear moment (year_of moment)) }
    ensures fault { IfErr result (λ fault. fault ≡ ClockFault.BadMoment) }
{
    if moment >= MOMENTS_END {
        return Err(ClockFault::BadMoment);
    }
    let shown = zone.shown_at(moment);
    Ok(CivilMinute {
        year: shown.date.year,
        month: shown.date.month,
        day: shown.date.day,
        hour: shown.time.hour,
        minute: shown.time.minute,
        weekday: (shown.date.weekday().index() + 1) % 7,
    })
}
