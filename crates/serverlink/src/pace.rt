// How far ahead of the clock a server's timer is.
ghost use Rattle.std.specs.Prelude.{◌≡◌};
ghost use Rattle.serverlink.specs.Paces.{after, may};

/// Each line advances a server's timer by this many seconds (RFC 1459 section 8.10).
pub const COST: u64 = 2;

/// The process sends a line of its own only while the timer is less than this many seconds ahead of the clock. The
/// bot's own queues keep its lines within 10 seconds. Together these keep the timer at most 18 seconds ahead, except
/// for lines that the bot sends afterwards.
pub const AHEAD: u64 = 16;

/// A server's timer, which every line sent to the server advances.
#[derive(Clone, Copy, Debug, PartialEq, Eq)]
pub struct Pace {
    /// The second at which the server has read all lines.
    pub timer: u64,
}

impl Pace {
    ghost use Rattle.std.specs.Prelude.{◌≡◌};

    /// Creates the timer of a server to which no line was sent yet.
    pub fn new() -> Pace
        ensures { result ≡ record { timer = 0 } }
    {
        Pace { timer: 0 }
    }

    /// Counts a line that was sent at second `now`.
    pub fn count(&mut self, now: u64)
        ensures { self.new ≡ after self.old now }
    {
        self.timer = self.timer.max(now).saturating_add(COST);
    }

    /// Whether the process may send a line of its own at second `now`.
    pub fn may(&self, now: u64) -> bool
        ensures { result ≡ may self.now now }
    {
        self.timer < now.saturating_add(AHEAD)
    }
}
