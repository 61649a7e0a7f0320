// When the journal is rewritten.
ghost use Rattle.std.specs.Prelude.{◌≡◌};
ghost use Rattle.upkeep.specs.Bases.{begun, is_due, seen, written};

use peers::REST;
use serverlink::{A_BASE, is_base_due};

// After this many changes the journal is rewritten even if more keep coming.
const MOST: u32 = 10 * A_BASE;

/// When the journal was last rewritten, and how long the bot has been at its version.
///
/// If a leaf lacks changes from before the hub's last base, the hub answers each of its hellos with all records, not
/// with the next 16 changes that the leaf lacks. So the journal is rewritten only after 30 seconds without a change,
/// unless very many have come: in that time each linked leaf says hello at least once.
#[derive(Clone, Copy)]
pub struct Bases {
    // The version at which it was last rewritten; 0 if that is not known.
    base: u32,
    // The version at the bot's start, or at which it was rewritten since.
    from: u32,
    // The version at which the bot was last seen, and the second at which it was first seen there; 0 if it was not
    // seen yet.
    version: u32,
    since: u64,
}

impl Bases {
    /// A bot starts at `version`: its journal's base is not known.
    pub fn new(version: u32) -> Bases
        ensures { result ≡ begun version }
    {
        Bases {
            base: 0,
            from: version,
            version,
            since: 0,
        }
    }

    /// Notes that the bot is at `version` at second `now`.
    pub fn see(&mut self, version: u32, now: u64)
        ensures { self.new ≡ seen version now self.old }
    {
        if version == self.version && 0 < self.since {
            return;
        }
        self.version = version;
        self.since = now;
    }

    /// Whether the journal is to be rewritten at second `now`, from what was seen.
    pub fn is_due(self, now: u64) -> bool
        ensures { result ≡ is_due self now }
    {
        let is_quiet = now.saturating_sub(self.since) >= REST;
        let is_long = self.version.saturating_sub(self.from) >= MOST;
        is_base_due(self.base, self.version) && (is_quiet || is_long)
    }

    /// Notes that the journal is rewritten at `version`.
    pub fn write(&mut self, version: u32)
        ensures { self.new ≡ written version self.old }
    {
        self.base = version;
        self.from = version;
    }
}
