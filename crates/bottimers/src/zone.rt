// Zones: how far a clock is ahead of UTC.
ghost use Rattle.std.specs.Prelude.{◌≡◌, IsOk, IfOk};

use crate::fault::ClockFault;
use crate::limits::{MAX_OFFSET, MAX_ZONE};
use bytetext::{NoMemory, TryCopy};
use jiff::Timestamp;
use jiff_core::Offset;
use jiff_core::civil::DateTime;
use jiff_tz::Abbreviation;
use jiff_tz::posix::TimeZone;
use std::alloc::Global;
use std::marker::Model;

/// How far a clock is ahead of UTC at each moment: by a fixed number of whole minutes, or by a POSIX rule. A rule
/// names standard time and, if there is one, daylight saving time and its two changes a year. It does not allocate.
///
/// ```text
/// let berlin = Zone::posix(b"CET-1CEST,M3.5.0,M10.5.0/3")?;      // the last Sundays of March and October
/// civil(1_774_745_940, &berlin)?                                 // 01:59 on 29 March 2026, and a minute later 03:00
/// ```
#[derive(Debug, Drop)]
pub struct Zone {
    rule: TimeZone,
}

impl Model for Zone {
    ghost use Rattle.jiff_tz.specs.PosixText.{TzText, tz_view};

    ghost Value = { TzText };

    ghost view = { λ z. tz_view z.rule };
}

impl Zone {
    ghost use Rattle.std.specs.Prelude.{◌↔◌, pos, ◌+ℤ◌, ◌*ℤ◌, IfErr};
    ghost use Rattle.std.specs.Result.{result_ok};
    ghost use Rattle.jiff.specs.Words.{civil_nanos};
    ghost use Rattle.bottimers.specs.Civil.{IsOffset};
    ghost use Rattle.bottimers.specs.Seconds.{IsMoment};
    ghost use Rattle.bottimers.specs.Zones.{ahead_at, fixed_rule, rule_in};

    /// Creates the zone of a clock that is always `minutes` ahead of UTC. It does not allocate.
    ///
    /// # Errors
    /// `BadZone` (C5) if `minutes` is not from -1,439 to 1,439.
    pub fn fixed(minutes: i32) -> Result<Zone, ClockFault>
        ensures accepted { IsOk result ↔ IsOffset minutes }
        ensures rule { IfOk result (λ zone. zone ≡ fixed_rule minutes) }
        ensures fault { IfErr result (λ fault. fault ≡ ClockFault.BadZone) }
    {
        if minutes < -MAX_OFFSET || minutes > MAX_OFFSET {
            return Err(ClockFault::BadZone);
        }
        Ok(Zone {
            rule: TimeZone {
                std_abbrev: Abbreviation::utc(),
                std_offset: Offset {
                    seconds: minutes * 60,
                },
                dst: None,
            },
        })
    }

    /// Parses `text`, a POSIX rule such as `CET-1CEST,M3.5.0,M10.5.0/3`, which is the value of `TZ` without a colon
    /// (IEEE Std 1003.1, Base Definitions 8.3). A name has 3 to 15 bytes, an offset is at most 24 hours, the time of a
    /// change is from -167 to 167 hours (RFC 9636), and a rule with daylight saving time says when it changes. It does
    /// not allocate.
    ///
    /// # Errors
    /// `BadZone` (C5) if `text` has not 1 to 100 bytes or is not such a rule.
    pub fn posix(text: &[u8]) -> Result<Zone, ClockFault>
        ensures reads { result_ok result ≡ rule_in text.now }
        ensures fault { IfErr result (λ fault. fault ≡ ClockFault.BadZone) }
    {
        if text.is_empty() || text.len() > MAX_ZONE {
            return Err(ClockFault::BadZone);
        }
        match TimeZone::parse(text) {
            Ok(rule) => Ok(Zone { rule }),
            Err(_) => Err(ClockFault::BadZone),
        }
    }

    // Returns what the clock shows at a moment.
    pub(crate) fn shown_at(&self, moment: u64) -> DateTime
        requires { IsMoment moment }
        ensures { civil_nanos result ≡ (pos moment +ℤ ahead_at self.now moment) *ℤ pos 1_000_000_000 }
    {
        let instant = Timestamp::from_second(moment as i64).unwrap().to_plain();
        self.rule.to_offset(instant).to_datetime(instant)
    }
}

impl TryCopy for Zone {
    // Does not allocate.
    fn copy(&self, _alloc: Global) -> Result<Zone, NoMemory>
        ensures equal { IfOk result (λ twin. twin ≡ self.now) }
        ensures needs_none { IsOk result }
    {
        Ok(Zone { rule: self.rule })
    }
}
