// When the log shows the sum of the records.
ghost use Rattle.std.specs.Prelude.{◌≡◌};
ghost use Rattle.recordsums.specs.Sums.{is_due, told_at, untold};

// At least this many seconds pass between two of these lines, except at the bot's end, so that their cost is bounded.
const APART: u64 = 5;

/// The version at which the log last showed the sum of the records, and when.
#[derive(Clone, Copy)]
pub struct Sums {
    // None before the first such line.
    version: Option<u32>,
    since: u64,
}

impl Sums {
    /// The log has shown no sum yet: the first is due at once.
    pub fn new() -> Sums
        ensures { result ≡ untold }
    {
        Sums {
            version: None,
            since: 0,
        }
    }

    /// Whether the log is to show the sum of the records at `version`, at second `now`, which counts from 1970-01-01 UTC.
    /// `is_last` says whether the bot ends.
    pub fn is_due(self, version: u32, is_last: bool, now: u64) -> bool
        ensures { result ≡ is_due self version is_last now }
    {
        match self.version {
            Some(told) if told == version => false,
            Some(_) | None => is_last || now.saturating_sub(self.since) >= APART,
        }
    }

    /// Notes that the log has shown the sum of the records at `version`, at second `now`.
    pub fn tell(&mut self, version: u32, now: u64)
        ensures { self.new ≡ told_at version now }
    {
        self.version = Some(version);
        self.since = now;
    }
}
