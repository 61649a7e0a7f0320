// One second from two clocks.
use bytetext::MOMENTS_END;
use std::io;
use std::marker::Model;
use std::time::Clock;

/// The last reading, and what the monotonic clock showed when that second was first read.
#[derive(Drop)]
pub struct Timeline {
    last: u64,
    mark: u64,
}

impl Model for Timeline {
    ghost use Rattle.std.specs.Prelude.{◌<◌};
    ghost use Rattle.bytetext.specs.declared.moment.TheConstants.{MOMENTS_END};
    ghost use Rattle.net.specs.Readings.{Readings};

    ghost Value = { Readings };

    ghost view = { λ line. record { last = line.last; mark = line.mark } };

    ghost invariant = { λ line. line.last < MOMENTS_END };
}

impl Timeline {
    ghost use Rattle.std.specs.Prelude.{◌≡◌, ◌<◌, ◌≤◌, IfOk, OnErr};
    ghost use Rattle.bytetext.specs.declared.moment.TheConstants.{MOMENTS_END};
    ghost use Rattle.net.specs.Readings.{after, reading};

    /// Creates a timeline without a reading, which counts as one of second 0. `monotonic` is what the monotonic clock
    /// shows, in seconds.
    pub fn begin(monotonic: u64) -> Timeline
        ensures { result ≡ record { last = 0; mark = monotonic } }
    {
        Timeline {
            last: 0,
            mark: monotonic,
        }
    }

    /// Returns the next reading. `wall` is the wall clock's second since 1970-01-01 UTC, and `monotonic` the monotonic
    /// clock's second, counted from any start. A monotonic clock that went back counts as one that stands still.
    pub fn read(&mut self, wall: u64, monotonic: u64) -> u64
        ensures value { result ≡ reading self.old wall monotonic }
        ensures after { self.new ≡ after self.old result monotonic }
        ensures never_back { self.old.last ≤ result }
        ensures moment { result < MOMENTS_END }
        ensures wall { self.old.last ≤ wall → wall < MOMENTS_END → result ≡ wall }
    {
        let seconds = if wall < self.last {
            let passed = monotonic.saturating_sub(self.mark);
            self.last.saturating_add(passed)
        } else {
            wall
        };
        let moment = seconds.min(MOMENTS_END - 1);
        if moment != self.last {
            self.last = moment;
            self.mark = monotonic;
        }
        moment
    }

    /// Reads this machine's clocks through `rt` and returns the next reading.
    ///
    /// # Errors
    /// The error of the clock that could not be read; the timeline is then unchanged.
    pub fn read_clocks(&mut self, rt: &impl Clock) -> io::Result<u64>
        ensures never_back { IfOk result (λ second. self.old.last ≤ second) }
        ensures moment { IfOk result (λ second. second < MOMENTS_END) }
        ensures last { IfOk result (λ second. self.new.last ≡ second) }
        ensures err { OnErr result (self.new ≡ self.old) }
    {
        let wall = rt.since_1970()?;
        let monotonic = rt.monotonic()?;
        Ok(self.read(wall.as_secs(), monotonic.as_secs()))
    }
}
