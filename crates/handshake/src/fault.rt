// Why a connection is closed before its first record.
use crate::refusal::HandshakeRefusal;
use thiserror::Error;

/// Why a side disconnects the other before its first record. The text is for a log, beside the address.
#[derive(Clone, Copy, Debug, PartialEq, Eq, Error)]
pub enum HandshakeFault {
    /// The first 200 bytes of a line contain no line feed.
    #[error("a line of more than 200 bytes: this is no bot of a net, so see who connects")]
    TooLong,
    /// The handshake was not over after 10 seconds.
    #[error("no handshake within 10 seconds: see that a bot runs there, and that the network is up")]
    TooLate,
    /// The hub's first line is not a greeting.
    #[error("the other side greets as no hub does: see the host and port of the line hub")]
    NoGreeting,
    /// The number after the first word of the hub's greeting is not 2.
    #[error("the hub speaks another version of the link: run the same release on all bots, the hub's first")]
    OtherVersion,
    /// The leaf's line is not one that a leaf sends.
    #[error("the other side answers as no leaf does: see who connects")]
    NoLeafLine,
    /// The leaf's line is one that a leaf of an earlier release sends.
    #[error("a leaf of an earlier release: run the same release on all bots, the hub's first")]
    OldLeaf,
    /// The leaf's number is 0, or above the hub's number of leaves.
    #[error("the net has no leaf of that number: give the leaf a number of its own from 1 to LEAVES in its line bot")]
    NoSuchLeaf,
    /// The hub's second line is not one that a hub sends.
    #[error("the hub answers as no hub does: see the host and port of the line hub")]
    NoHubLine,
    /// The code is not the one of this connection's nonces under the leaf's key.
    #[error("the code is wrong: give the hub and this leaf the same secret, or the leaf the line that `eggnet key SECRETFILE N` prints")]
    WrongCode,
    /// The hub knows the leaf's key, but belongs to another net.
    #[error("the hub belongs to another net: if it was created again, begin the leaf in a new folder, else mend the line hub")]
    OtherNet,
    /// The hub refuses a leaf that has shown its code.
    #[error("{0}")]
    Refused(HandshakeRefusal),
    /// The hub, which has shown its code, told the leaf that it refuses it.
    #[error("the hub refuses this leaf: {0}")]
    Told(HandshakeRefusal),
}

impl HandshakeFault {
    ghost use Rattle.std.specs.Prelude.{◌≡◌, ◌↔◌, IsTrue};
    ghost use Rattle.handshake.specs.declared.fault.HandshakeFault.TheVariants.{Told};
    ghost use Rattle.handshake.specs.declared.refusal.HandshakeRefusal.TheVariants.{Heir};

    /// Whether the hub told the leaf that it is the heir of the leaf's net.
    pub fn is_heir(self) -> bool
        ensures { IsTrue result ↔ (self ≡ Told Heir) }
    {
        match self {
            HandshakeFault::Told(HandshakeRefusal::Heir) => true,
            HandshakeFault::Told(_)
            | HandshakeFault::Refused(_)
            | HandshakeFault::TooLong
            | HandshakeFault::TooLate
            | HandshakeFault::NoGreeting
            | HandshakeFault::OtherVersion
            | HandshakeFault::NoLeafLine
            | HandshakeFault::OldLeaf
            | HandshakeFault::NoSuchLeaf
            | HandshakeFault::NoHubLine
            | HandshakeFault::WrongCode
            | HandshakeFault::OtherNet => false,
        }
    }
}
