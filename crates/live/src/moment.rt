// What a bot's clock shows.
use bytetext::MOMENTS_END;
use std::marker::Model;

/// A moment: seconds since 1970-01-01 UTC, before the year 3000.
#[derive(Drop)]
pub struct Moment {
    seconds: u64,
}

impl Model for Moment {
    ghost use Rattle.std.specs.Prelude.{ℕ, ◌<◌};
    ghost use Rattle.bytetext.specs.declared.moment.TheConstants.{MOMENTS_END};

    ghost Value = { ℕ };

    ghost view = { λ moment. moment.seconds };

    ghost invariant = { λ moment. moment.seconds < MOMENTS_END };
}

impl Moment {
    ghost use Rattle.std.specs.Prelude.{◌≡◌, ◌<◌, ◌≤◌, IfSome, IfNone};
    ghost use Rattle.bytetext.specs.declared.moment.TheConstants.{MOMENTS_END};

    /// Returns the first moment of all, at 0 seconds.
    pub fn first() -> Moment
        ensures { result ≡ 0 }
    {
        Moment { seconds: 0 }
    }

    /// Returns the moment at `seconds`, or `None` from the year 3000 on.
    pub fn new(seconds: u64) -> Option<Moment>
        ensures some { IfSome result (λ moment. moment ≡ seconds) }
        ensures none { IfNone result (MOMENTS_END ≤ seconds) }
    {
        if seconds < MOMENTS_END {
            Some(Moment { seconds })
        } else {
            None
        }
    }

    /// Returns the number of seconds since the first moment.
    pub fn seconds(&self) -> u64
        ensures value { result ≡ self.now }
        ensures bound { result < MOMENTS_END }
    {
        self.seconds
    }
}
