// The last second that a bot has seen.
ghost use Rattle.std.specs.Prelude.{◌≡◌, ◌≢◌, ◌+◌, ◌-◌, ◌<◌, ◌≤◌, Some, None, IsOk, IfOk, OnOk, OnErr, Err, []};
ghost use Rattle.bottimers.specs.Faults.{RefusedFor};
ghost use Rattle.bottimers.specs.Seconds.{reading_fault, seconds_run, seconds_between, last_after};

use crate::fault::{ClockError, ClockFault};
use crate::limits::MAX_SECONDS;
use bytetext::{Failure, MOMENTS_END, NoMemory, TryCopy};
use std::alloc::Global;
use std::marker::Model;

/// The clock of one bot: the last second that it has seen, if it has seen one. Contracts see that `Option`.
///
/// Moments are whole seconds since 1970-01-01 00:00 UTC, from 0 to 32,503,679,999, the last second of the year 2999.
///
/// ```text
/// let mut clock = Clock::new();
/// clock.advance(alloc, 1_000)?    // no second: the first reading
/// clock.advance(alloc, 1_003)?    // 1001, 1002, 1003
/// clock.advance(alloc, 1_002)?    // no second, and the last one stays 1003
/// clock.last()                    // Some(1003)
/// ```
#[derive(Debug, Drop)]
pub struct Clock {
    last: Option<u64>,
}

impl Model for Clock {
    ghost use Rattle.std.specs.Prelude.{Option, ℕ};

    ghost Value = { Option ℕ };

    ghost view = { λ c. c.last };
}

impl Clock {
    /// Creates a clock that has seen no second.
    pub fn new() -> Clock
        ensures { result ≡ None }
    {
        Clock { last: None }
    }

    /// Creates a clock that has seen `second` last. Does not allocate.
    pub fn at(second: u64) -> Clock
        requires { second < MOMENTS_END }
        ensures { result ≡ Some second }
    {
        Clock { last: Some(second) }
    }

    /// Returns the last second that the clock has seen.
    pub fn last(&self) -> Option<u64>
        ensures { result ≡ self.now }
    {
        self.last
    }

    /// Advances the clock to the reading `now` and returns the seconds that run, in order. The first reading runs
    /// none. A reading at or before the last second runs none and changes nothing. Of a longer gap only the last 600
    /// seconds run.
    ///
    /// # Errors
    /// `Refused(BadMoment)` if `now` is after the year 2999, then `NoMemory` if a second runs and the list can't be
    /// allocated. The clock is unchanged.
    pub fn advance(&mut self, alloc: Global, now: u64) -> Result<Vec<u64>, ClockError>
        ensures refused { RefusedFor (reading_fault now) result }
        ensures seconds { IfOk result (λ seconds. seconds.items ≡ seconds_run self.old now) }
        ensures moved { OnOk result (self.new ≡ Some (last_after self.old now)) }
        ensures unchanged { OnErr result (self.new ≡ self.old) }
        ensures needs_none { seconds_run self.old now ≡ [] → result ≢ Err Failure.NoMemory }
    {
        if now >= MOMENTS_END {
            return Err(Failure::Refused(ClockFault::BadMoment));
        }
        let Some(last) = self.last else {
            self.last = Some(now);
            return Ok(Vec::new(alloc));
        };
        if now <= last {
            return Ok(Vec::new(alloc));
        }
        let first = now.saturating_sub(MAX_SECONDS - 1).max(last + 1);
        let seconds = seconds_from(alloc, first, now)?;
        self.last = Some(now);
        Ok(seconds)
    }
}

impl TryCopy for Clock {
    // Does not allocate.
    fn copy(&self, _alloc: Global) -> Result<Clock, NoMemory>
        ensures equal { IfOk result (λ twin. twin ≡ self.now) }
        ensures needs_none { IsOk result }
    {
        Ok(Clock { last: self.last })
    }
}

// Returns the seconds from `first` to `last`.
fn seconds_from(alloc: Global, first: u64, last: u64) -> Result<Vec<u64>, NoMemory>
    requires { (first ≤ last) × (last < MOMENTS_END) × (last < first + MAX_SECONDS) }
    ensures { IfOk result (λ seconds. seconds.items ≡ seconds_between first last) }
{
    let mut seconds = Vec::with_capacity(alloc, (last + 1 - first) as usize)?;
    for second in first..last + 1 {
        seconds.push_reserved(second);
    }
    Ok(seconds)
}
