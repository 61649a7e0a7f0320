// What an error of a reader, a writer or a socket means.
ghost use Rattle.std.specs.Prelude.{◌≡◌};
ghost use Rattle.streams.specs.Obstacles.{obstacle_of};

use std::io::ErrorKind;

/// What an error means for the call that returned it.
#[derive(Clone, Copy, Debug, PartialEq, Eq)]
pub enum Obstacle {
    /// The call was interrupted, and is to be made again.
    Interruption,
    /// The call would block, or the connection is still being made.
    Wait,
    /// The stream failed, or its connection was refused.
    Fault,
}

/// Returns what an error of this `kind` means: `Interrupted` is an interruption, `WouldBlock` and `NotConnected` are a
/// wait, and any other is a fault. For implementers of [`Stream`](crate::Stream).
pub fn obstacle_of(kind: ErrorKind) -> Obstacle
    ensures { result ≡ obstacle_of kind }
{
    match kind {
        ErrorKind::Interrupted => Obstacle::Interruption,
        ErrorKind::WouldBlock | ErrorKind::NotConnected => Obstacle::Wait,
        _ => Obstacle::Fault,
    }
}
