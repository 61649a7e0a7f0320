// Why another bot is disconnected.
use handshake::HandshakeFault;
use sealing::SealFault;
use sharewire::WireFault;
use std::fmt;
use std::fmt::Display;

// Why a connection is closed.
#[derive(Clone, Copy)]
pub(crate) enum Gone {
    // The other end closed it, or it was never established.
    Ended,
    // The other end closed it after the greeting, without having sent a byte.
    Left,
    // More than 4 MiB would wait for it.
    TooSlow,
    // It took no byte for 35 seconds, although some wait.
    Stuck,
    // No record of it came for 35 seconds.
    Silent,
    // The handshake failed, or the other end has come as far as it should not have: see `HandshakeRefusal`.
    Handshake(HandshakeFault),
    // The other end sends bytes that are none of its records.
    NotSealed(SealFault),
    // It sends a heartbeat of a wrong length.
    BadBeat,
    // The other end sends bytes that are no frames.
    NoFrames(WireFault),
    // It speaks for another leaf, or for the hub.
    OtherSpeaker,
    // The same leaf has connected again.
    Replaced,
    // Its number was freed for another folder.
    Renewed,
    // Too many others that have not shown a code are connected.
    Crowded,
    // The hub is at a lower version than this leaf.
    HubBehind,
    // The hub has other records than this leaf, at the same version.
    HubDiffers,
}

impl Gone {
    // Whether the other end has shown that it knows the secret.
    pub(crate) fn is_of_known(self) -> bool {
        match self {
            Gone::Handshake(fault) => is_of_known(fault),
            Gone::Ended
            | Gone::Left
            | Gone::TooSlow
            | Gone::Stuck
            | Gone::Silent
            | Gone::NotSealed(_)
            | Gone::BadBeat
            | Gone::NoFrames(_)
            | Gone::OtherSpeaker
            | Gone::Replaced
            | Gone::Renewed
            | Gone::Crowded
            | Gone::HubBehind
            | Gone::HubDiffers => false,
        }
    }
}

// Whether only a bot that knows the secret leads to this fault.
fn is_of_known(fault: HandshakeFault) -> bool {
    match fault {
        HandshakeFault::Refused(_) | HandshakeFault::Told(_) | HandshakeFault::OtherNet => true,
        HandshakeFault::TooLong
        | HandshakeFault::TooLate
        | HandshakeFault::NoGreeting
        | HandshakeFault::OtherVersion
        | HandshakeFault::NoLeafLine
        | HandshakeFault::OldLeaf
        | HandshakeFault::NoSuchLeaf
        | HandshakeFault::NoHubLine
        | HandshakeFault::WrongCode => false,
    }
}

impl Display for Gone {
    fn fmt<W: fmt::Write>(&self, f: &mut fmt::Formatter<W>) -> fmt::Result {
        match *self {
            Gone::Handshake(fault) => write!(f, "{fault}"),
            Gone::NotSealed(fault) => write!(f, "{fault}"),
            Gone::NoFrames(fault) => write!(f, "it sends no frames: {fault}"),
            Gone::Ended
            | Gone::Left
            | Gone::TooSlow
            | Gone::Stuck
            | Gone::Silent
            | Gone::BadBeat
            | Gone::OtherSpeaker
            | Gone::Replaced
            | Gone::Renewed
            | Gone::Crowded
            | Gone::HubBehind
            | Gone::HubDiffers => f.write_str(sentence(*self)),
        }
    }
}

// The text of a reason without parts; empty for the others.
fn sentence(gone: Gone) -> &'static str {
    match gone {
        Gone::Ended => "the connection ended",
        Gone::Left => "it left after the greeting: a leaf of another release does so",
        Gone::TooSlow => "it takes too little: 4194304 bytes wait for it",
        Gone::Stuck => "it took nothing for 35 seconds, although bytes wait for it",
        Gone::Silent => "it said nothing for 35 seconds",
        Gone::BadBeat => "it sends a heartbeat of a wrong length: run the same release on all bots",
        Gone::OtherSpeaker => "it sends a packet that is not its own",
        Gone::Replaced => "it has connected again",
        Gone::Renewed => "its number was freed for another folder",
        Gone::Crowded => "too many others wait that have shown no code",
        Gone::HubBehind => "the hub is at a lower version: it may be an older copy of itself",
        Gone::HubDiffers => "the hub holds other records at the same version",
        Gone::Handshake(_) | Gone::NotSealed(_) | Gone::NoFrames(_) => "",
    }
}
