// The time limit of a handshake.
ghost use Rattle.std.specs.Prelude.{◌≤◌, ◌-◌, ◌↔◌, IsTrue};

/// The most seconds that a handshake may take.
pub const TIME_LIMIT: u64 = 10;

/// Whether a handshake that began at second `began` is too late at second `now`. Both are seconds of the monotonic clock,
/// counted from any start: a wall clock that is set ahead would end each handshake. A clock that went back counts as one
/// that stands still.
pub fn is_late(began: u64, now: u64) -> bool
    ensures { IsTrue result ↔ (TIME_LIMIT ≤ now - began) }
{
    now.saturating_sub(began) >= TIME_LIMIT
}
