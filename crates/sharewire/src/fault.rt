// Why a stream holds no more packets.
use thiserror::Error;

/// Why a reader can't read more of a stream of frames. It returns the packets before the fault.
#[derive(Clone, Copy, Debug, PartialEq, Eq, Error)]
pub enum WireFault {
    /// K3: a frame's length is 0 or above 40,000. It is reported with the second byte of the frame.
    #[error("a frame has 1 to 40,000 bytes after its length: close the link and connect again")]
    BadLength,
    /// K1: a frame's kind is none. It is reported with the third byte of the frame.
    #[error("no packet has this kind: see that both bots have the same version, and connect again")]
    BadKind,
    /// K2: a frame's body is not that of a packet of its kind, or bytes are left over. It is reported with the last
    /// byte of the frame.
    #[error("the frame's body is no packet of its kind: close the link and connect again")]
    BadBody,
    /// K4: a fault was reported before.
    #[error("the stream has failed before: make a new reader for a new link")]
    Failed,
}

impl WireFault {
    ghost use Rattle.std.specs.Prelude.{◌≡◌};
    ghost use Rattle.sharewire.specs.Codes.{wire_code};

    /// Returns the letter and number that transcripts print.
    pub fn code(self) -> &'static str
        ensures { result.now ≡ wire_code self }
    {
        match self {
            WireFault::BadLength => "K3",
            WireFault::BadKind => "K1",
            WireFault::BadBody => "K2",
            WireFault::Failed => "K4",
        }
    }
}
