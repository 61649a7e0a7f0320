// What the clocks show in a turn.

/// The seconds of a turn, by two clocks.
#[derive(Clone, Copy)]
pub struct Seconds {
    /// The bot's time: seconds since 1970-01-01 UTC. It jumps ahead with the wall clock.
    pub wall: u64,
    /// The monotonic clock's second, counted from any start. It measures silences and time limits.
    pub steady: u64,
}
