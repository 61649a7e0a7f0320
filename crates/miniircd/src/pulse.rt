// How long the server waits for a client.
ghost use Rattle.std.specs.Prelude.{◌≡◌, None, Some};
ghost use Rattle.miniircd.specs.Patience.{due_of, pulse_after};

// How many seconds a client has to register.
const MAX_NAMELESS: u64 = 30;

// After how many seconds of silence the server sends a client a PING.
const MAX_SILENCE: u64 = 120;

// How many seconds a client has to answer.
const MAX_WAIT: u64 = 240;

/// When a client connected, when its last line came, and when the server sent it a PING after that line, if it did.
/// These are moments of a clock that never goes back, in whole seconds. So what is due after 30 seconds is due when the
/// clock counts more than 30.
#[derive(Clone, Copy, Debug)]
pub struct Pulse {
    /// When the client connected.
    pub came: u64,
    /// When its last line came; before its first line, when it connected.
    pub heard: u64,
    /// When the server sent it a PING; `None` if it hasn't since the client's last line.
    pub asked: Option<u64>,
}

/// What the server must do with a client.
#[derive(Clone, Copy, Debug, PartialEq, Eq)]
pub enum Due {
    /// Nothing.
    Nothing,
    /// Send the client a PING, to ask whether it is still connected.
    Ask,
    /// Disconnect the client: it has not registered in time.
    Nameless,
    /// Disconnect the client: it has not answered in time.
    Silent,
}

impl Pulse {
    /// Creates the pulse of a client that connects at `now`.
    pub fn new(now: u64) -> Pulse
        ensures { result ≡ record { came = now; heard = now; asked = None } }
    {
        Pulse {
            came: now,
            heard: now,
            asked: None,
        }
    }

    /// Notes that a line of the client came at `now`.
    pub fn hear(&mut self, now: u64)
        ensures { self.new ≡ record self.old { heard = now; asked = None } }
    {
        self.heard = now;
        self.asked = None;
    }

    /// Returns what is due to the client at `now`; `is_registered` says whether it is registered. If that is
    /// [`Due::Ask`], notes `now` as the moment when the client was asked.
    pub fn tick(&mut self, is_registered: bool, now: u64) -> Due
        ensures due { result ≡ due_of is_registered self.old now }
        ensures after { self.new ≡ pulse_after result now self.old }
    {
        let due = self.due(is_registered, now);
        if due == Due::Ask {
            self.asked = Some(now);
        }
        due
    }

    fn due(&self, is_registered: bool, now: u64) -> Due
        ensures { result ≡ due_of is_registered self.now now }
    {
        if !is_registered {
            return if now.saturating_sub(self.came) > MAX_NAMELESS {
                Due::Nameless
            } else {
                Due::Nothing
            };
        }
        match self.asked {
            Some(asked) if now.saturating_sub(asked) > MAX_WAIT => Due::Silent,
            None if now.saturating_sub(self.heard) > MAX_SILENCE => Due::Ask,
            Some(_) | None => Due::Nothing,
        }
    }
}
