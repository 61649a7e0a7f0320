// When the next try is due.
use std::marker::Model;

/// The first wait, in seconds.
pub const FIRST_WAIT: u64 = 2;

/// When the next try of a connection is due, and how long to wait after it. Contracts see it as a
/// `Rattle.net.specs.Waits.Waits`.
#[derive(Drop)]
pub struct Redial {
    number: u16,
    most: u16,
    due: u64,
    // The wait after the next loss, before the bot's number shortens it.
    wait: u64,
}

impl Model for Redial {
    ghost use Rattle.std.specs.Prelude.{◌≤◌};
    ghost use Rattle.net.specs.Waits.{Waits};
    ghost use Rattle.net.specs.declared.redial.TheConstants.{FIRST_WAIT};

    ghost Value = { Waits };

    ghost view = { λ r. record { number = r.number; most = r.most; due = r.due; wait = r.wait } };

    ghost invariant = { λ r. (FIRST_WAIT ≤ r.wait) × (r.wait ≤ r.most) };
}

impl Redial {
    ghost use Rattle.std.specs.Prelude.{◌≡◌, ◌<◌, ◌≤◌, ◌+◌, ◌↔◌, IsTrue, true};
    ghost use Rattle.bytetext.specs.declared.moment.TheConstants.{MOMENTS_END};
    ghost use Rattle.net.specs.Waits.{lost};

    /// Creates a `Redial` whose first try is due at once. `number` is the bot's number, and `most` the longest wait in
    /// seconds.
    pub fn new(number: u16, most: u16) -> Redial
        requires { FIRST_WAIT ≤ most }
        ensures { result ≡ record { number = number; most = most; due = 0; wait = FIRST_WAIT } }
    {
        Redial {
            number,
            most,
            due: 0,
            wait: FIRST_WAIT,
        }
    }

    /// Returns whether a try is due at second `now`.
    pub fn is_due(&self, now: u64) -> bool
        ensures { IsTrue result ↔ (self.now.due ≤ now) }
    {
        self.due <= now
    }

    /// Returns the second at which the next try is due.
    pub fn due(&self) -> u64
        ensures { result ≡ self.now.due }
    {
        self.due
    }

    /// Records that a try failed at second `now`, or that a connection was lost then. `was_good` says whether that
    /// connection was good.
    pub fn lost(&mut self, now: u64, was_good: bool)
        requires { now < MOMENTS_END }
        ensures value { self.new ≡ lost self.old now was_good }
        ensures later { now < self.new.due }
        ensures soon { self.new.due ≤ now + self.old.most }
        ensures good { was_good ≡ true → self.new.due ≤ now + FIRST_WAIT }
    {
        let wait = if was_good { FIRST_WAIT } else { self.wait };
        self.due = now + wait - u64::from(self.number) % (wait / 2 + 1);
        self.wait = (wait * 2).min(u64::from(self.most));
    }
}
