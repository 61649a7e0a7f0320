// Cron masks.
ghost use Rattle.std.specs.Prelude.{◌≡◌, ◌↔◌, IsTrue, IsOk, IfOk, IfErr, is_some, IfSome, ℕ};
ghost use Rattle.bottimers.specs.declared.calendar.CivilMinute.{CivilMinute};
ghost use Rattle.bottimers.specs.CronSets.{has, sets_match};
ghost use Rattle.bottimers.specs.CronMask.{are_fields, fields_match, in_weekdays, is_mask, mask_matches};
ghost use Rattle.bottimers.specs.CronText.{is_field};

use crate::calendar::CivilMinute;
use crate::cron_text::{field, is_star, next_field, take_field};
use crate::fault::CronFault;
use crate::span::{contains, union};
use bytetext::{NoMemory, TryCopy};
use std::alloc::Global;
use std::marker::Model;

/// A cron mask, as the sets of numbers that its fields mean (crontab(5); Eggdrop's bind type CRON). It does not
/// allocate.
///
/// A mask has up to five fields separated by spaces: minute 0 to 59, hour 0 to 23, day 1 to 31, month 1 to 12, weekday
/// 0 to 7, where 0 and 7 are Sunday. Fields that are missing at the end are `*`. A field is a list, separated by
/// commas, of `*`, `n` or `a-b` with a at most b. Each of them may end in a step `/s`, from 1 to the field's maximum;
/// `n/s` runs from n to the maximum. Numbers may have leading zeros.
///
/// ```text
/// let mask = Cron::parse(b"0 0 13 * 5")?;      // midnight on the 13th or any Friday
/// mask.matches(&civil(moment, &zone)?)
/// ```
#[derive(Clone, Copy, Debug, PartialEq, Eq)]
pub struct Cron {
    minutes: u64,
    hours: u64,
    days: u64,
    months: u64,
    weekdays: u64,
    either: bool,
}

impl Model for Cron {
    ghost use Rattle.bottimers.specs.CronSets.{Sets};

    ghost Value = { Sets };

    ghost view = { λ c. record {
      minutes = c.minutes;
      hours = c.hours;
      days = c.days;
      months = c.months;
      weekdays = c.weekdays;
      either = c.either;
    } };

    ghost inverse = { λ s. record {
      minutes = s.minutes;
      hours = s.hours;
      days = s.days;
      months = s.months;
      weekdays = s.weekdays;
      either = s.either;
    } };
}

impl Cron {
    /// Parses `mask`. It does not allocate.
    ///
    /// # Errors
    /// `BadCron` if the text is not a cron mask.
    pub fn parse(mask: &[u8]) -> Result<Cron, CronFault>
        ensures accepted { IsOk result ↔ IsTrue (is_mask mask.now) }
        ensures sets { IfOk result
            (λ cron. (at : CivilMinute) → sets_match cron at ≡ mask_matches mask.now at) }
        ensures fault { IfErr result (λ fault. fault ≡ CronFault.BadCron) }
    {
        let (minute, rest) = next_field(mask);
        let (hour, rest) = next_field(rest);
        let (day, rest) = next_field(rest);
        let (month, rest) = next_field(rest);
        let (weekday, rest) = next_field(rest);
        if take_field(rest).is_some() {
            return Err(CronFault::BadCron);
        }
        match read(minute, hour, day, month, weekday) {
            Some(cron) => Ok(cron),
            None => Err(CronFault::BadCron),
        }
    }

    /// Returns whether the mask matches the minute `at`: minute, hour and month are in their sets, and so are day and
    /// weekday. If neither of these two fields is the text `*`, one of the two is enough.
    pub fn matches(&self, at: &CivilMinute) -> bool
        ensures { result ≡ sets_match self.now at.now }
    {
        let day = contains(self.days, at.day);
        let weekday = contains(self.weekdays, at.weekday);
        contains(self.minutes, at.minute)
            && contains(self.hours, at.hour)
            && contains(self.months, at.month)
            && (if self.either {
                day || weekday
            } else {
                day && weekday
            })
    }
}

impl TryCopy for Cron {
    // Does not allocate.
    fn copy(&self, _alloc: Global) -> Result<Cron, NoMemory>
        ensures equal { IfOk result (λ twin. twin ≡ self.now) }
        ensures needs_none { IsOk result }
    {
        Ok(*self)
    }
}

// Returns the sets of five fields.
fn read(minute: &[u8], hour: &[u8], day: &[u8], month: &[u8], weekday: &[u8]) -> Option<Cron>
    ensures accepted { is_some result
        ≡ are_fields minute.now hour.now day.now month.now weekday.now }
    ensures sets { IfSome result (λ cron. (at : CivilMinute) → sets_match cron at
        ≡ fields_match minute.now hour.now day.now month.now weekday.now at) }
{
    let minutes = field(minute, 0, 59)?;
    let hours = field(hour, 0, 23)?;
    let days = field(day, 1, 31)?;
    let months = field(month, 1, 12)?;
    let weekdays = weekday_set(weekday)?;
    let either = !is_star(day) && !is_star(weekday);
    Some(Cron {
        minutes,
        hours,
        days,
        months,
        weekdays,
        either,
    })
}

// Returns the set of the weekday field, with Sunday as 0.
fn weekday_set(weekday: &[u8]) -> Option<u64>
    ensures accepted { is_some result ≡ is_field 0 7 weekday.now }
    ensures set { IfSome result (λ set. (n : ℕ) → has set n ≡ in_weekdays weekday.now n) }
{
    let set = field(weekday, 0, 7)?;
    let sunday = if contains(set, 7) { 1 } else { 0 };
    Some(union(set, sunday))
}
