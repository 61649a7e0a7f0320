// Why a clock, a timer, a zone or a cron mask is refused.
ghost use Rattle.std.specs.Prelude.{◌≡◌, codes};
ghost use Rattle.bottimers.specs.Faults.{letters_of};

use bytetext::Failure;
use thiserror::Error;

/// Why a call was refused, in the order in which the causes are tested.
#[derive(Clone, Copy, Debug, PartialEq, Eq, Error)]
pub enum ClockFault {
    /// There was no reading yet, or the moment is after the year 2999.
    #[error("no such moment: read the clock first, at 0 to 32503679999 seconds")]
    BadMoment,
    /// A timer's interval is not from 1 to 1,000,000.
    #[error("bad interval: choose 1 to 1000000")]
    BadInterval,
    /// The bot has 200 timers, or every id was used once.
    #[error("no room for a timer: kill one first")]
    Full,
    /// No timer has this id, or none calls this proc with this text.
    #[error("no such timer: look it up in the list")]
    NoSuchTimer,
    /// A zone's minutes are not from -1,439 to 1,439, or its text is not a POSIX rule of 1 to 100 bytes.
    #[error("bad zone: choose -1439 to 1439 minutes, or write a rule as 'CET-1CEST,M3.5.0,M10.5.0/3'")]
    BadZone,
}

impl ClockFault {
    /// Returns the short letters that a transcript prints: `C4`, `C1`, `C3`, `C2`, `C5`.
    pub fn code(self) -> &'static str
        ensures { result.now ≡ letters_of self }
    {
        match self {
            ClockFault::BadMoment => "C4",
            ClockFault::BadInterval => "C1",
            ClockFault::Full => "C3",
            ClockFault::NoSuchTimer => "C2",
            ClockFault::BadZone => "C5",
        }
    }
}

/// Why a reading was rejected or a timer not made: a fault, or out of memory if there is no fault. The clock or the
/// timers are as before the call.
pub type ClockError = Failure<ClockFault>;

/// Why a cron mask was refused.
#[derive(Clone, Copy, Debug, PartialEq, Eq, Error)]
pub enum CronFault {
    /// The text is not a cron mask.
    #[error("bad cron mask: write up to five fields, as '0-30/10 8,20 * * 1-5'")]
    BadCron,
}

impl CronFault {
    /// Returns the short letters that a transcript prints: `B3`.
    pub fn code(self) -> &'static str
        ensures { result.now ≡ codes "B3" }
    {
        "B3"
    }
}
