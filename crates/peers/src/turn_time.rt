// The second of a turn.

// The second of a turn, by both clocks.
#[derive(Clone, Copy)]
pub(crate) struct TurnTime {
    // By the civil clock, which the log shows.
    pub(crate) now: u64,
    // By the monotonic clock, by which time limits are measured.
    pub(crate) steady: u64,
}
