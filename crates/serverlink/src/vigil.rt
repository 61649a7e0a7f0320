// A server that is silent.
ghost use Rattle.std.specs.Prelude.{◌≡◌};
ghost use Rattle.serverlink.specs.Vigils.{begun, heard, asked, care_of, is_good};

/// The process pings a server that has sent no byte for this many seconds.
pub const QUIET: u64 = 90;

/// The process disconnects a server that has sent no byte for this many seconds.
pub const DEAD: u64 = 150;

/// The process disconnects a server that has not welcomed the bot (001) within this many seconds.
pub const UNWELCOMED: u64 = 60;

/// A connection that has held for this many seconds is a good one.
pub const GOOD: u64 = 120;

/// What to do about a connection.
#[derive(Clone, Copy, Debug, PartialEq, Eq)]
pub enum Care {
    /// Nothing.
    Wait,
    /// Ping the server.
    Ask,
    /// Disconnect the server.
    LetGo(Loss),
}

/// Why the process disconnects a server.
#[derive(Clone, Copy, Debug, PartialEq, Eq)]
pub enum Loss {
    /// The server sent nothing for 150 seconds.
    Silent,
    /// The server did not welcome the bot within 60 seconds.
    Unwelcomed,
}

/// When a connection began, when its server last sent a byte, and whether the process has pinged it since. The seconds
/// are those of a monotonic clock, which nobody sets, so that a step of the wall clock is no silence.
#[derive(Clone, Copy, Debug, PartialEq, Eq)]
pub struct Vigil {
    /// The second at which the connection began.
    pub began: u64,
    /// The second at which the last byte came; before the first byte, the second at which the connection began.
    pub heard: u64,
    /// Whether the process has pinged the server since.
    pub asked: bool,
}

impl Vigil {
    /// Starts the watch of a connection that begins at second `now`.
    pub fn new(now: u64) -> Vigil
        ensures { result ≡ begun now }
    {
        Vigil {
            began: now,
            heard: now,
            asked: false,
        }
    }

    /// Notes that a byte came at second `now`.
    pub fn hear(&mut self, now: u64)
        ensures { self.new ≡ heard self.old now }
    {
        self.heard = now;
        self.asked = false;
    }

    /// Notes that the process pinged the server.
    pub fn ask(&mut self)
        ensures { self.new ≡ asked self.old }
    {
        self.asked = true;
    }

    /// Returns what to do at second `now`. `is_welcomed` says whether the server has welcomed the bot.
    pub fn care(&self, now: u64, is_welcomed: bool) -> Care
        ensures { result ≡ care_of self.now now is_welcomed }
    {
        let quiet = now.saturating_sub(self.heard);
        if quiet >= DEAD {
            Care::LetGo(Loss::Silent)
        } else if !is_welcomed && now.saturating_sub(self.began) >= UNWELCOMED {
            Care::LetGo(Loss::Unwelcomed)
        } else if quiet >= QUIET && !self.asked {
            Care::Ask
        } else {
            Care::Wait
        }
    }

    /// Whether the connection has held for two minutes at second `now`.
    pub fn is_good(&self, now: u64) -> bool
        ensures { result ≡ is_good self.now now }
    {
        now.saturating_sub(self.began) >= GOOD
    }
}
