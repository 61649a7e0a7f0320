// Whether the other end of a link is alive, and what it hears of this one.
ghost use Rattle.std.specs.Prelude.{◌≡◌, ◌≤◌, ◌-◌, ◌↔◌, IsTrue};

/// A bot sends a beat when this many seconds have passed since its last record.
pub const BEAT_EVERY: u64 = 10;

/// After this many seconds without a record, or without a byte taken of those that wait, a link ends.
pub const SILENCE: u64 = 35;

// When something last happened on a link, in seconds of the monotonic clock.
#[derive(Clone, Copy)]
pub(crate) struct Pulse {
    // A record came, or this end did not listen.
    pub(crate) heard: u64,
    // A record was sealed.
    pub(crate) sealed: u64,
    // The other end took a byte, or nothing waited for it.
    pub(crate) took: u64,
}

impl Pulse {
    // The pulse of a link that begins at second `steady`.
    pub(crate) fn new(steady: u64) -> Pulse
        ensures { result ≡ record { heard = steady; sealed = steady; took = steady } }
    {
        Pulse {
            heard: steady,
            sealed: steady,
            took: steady,
        }
    }

    // Whether a beat is due at second `steady`.
    pub(crate) fn is_beat_due(&self, steady: u64) -> bool
        ensures { IsTrue result ↔ (BEAT_EVERY ≤ steady - self.now.sealed) }
    {
        steady.saturating_sub(self.sealed) >= BEAT_EVERY
    }

    // Whether the other end has said nothing for too long at second `steady`.
    pub(crate) fn is_silent(&self, steady: u64) -> bool
        ensures { IsTrue result ↔ (SILENCE ≤ steady - self.now.heard) }
    {
        steady.saturating_sub(self.heard) >= SILENCE
    }

    // Whether bytes have waited for too long at second `steady`.
    pub(crate) fn is_stuck(&self, steady: u64) -> bool
        ensures { IsTrue result ↔ (SILENCE ≤ steady - self.now.took) }
    {
        steady.saturating_sub(self.took) >= SILENCE
    }
}
