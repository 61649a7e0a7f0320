// Whether the hub may be an older copy of itself.
ghost use Rattle.std.specs.Prelude.{◌≡◌};
ghost use Rattle.handshake.specs.Books.{entry_line};
ghost use Rattle.peers.specs.Doubts.{IsDoubtIn, doubted_by, is_doubt};

use handshake::{BookLine, DrawnNumber, HandshakeLine, HandshakeRefusal, entry_line, first_line};

/// A leaf whose records show that the hub may be an older copy of itself: see [`Links::doubt`](crate::Links::doubt).
#[derive(Clone, Copy, Debug, PartialEq, Eq)]
pub struct Doubt {
    /// The leaf's number.
    pub leaf: u16,
    /// `Ahead` if the leaf's version is above the hub's, and `Records` if both have one version and other records.
    pub refusal: HandshakeRefusal,
}

/// A leaf that is ahead of the hub, or differs from it, and its folder.
#[derive(Clone, Copy)]
pub struct Doubted {
    /// What the hub found at the leaf.
    pub doubt: Doubt,
    /// The number of the leaf's folder.
    pub made: DrawnNumber,
}

/// Returns the line of the file `doubt` for this leaf: that of [`entry_line`](handshake::entry_line).
pub fn doubt_line(doubted: &Doubted) -> HandshakeLine
    ensures { result ≡ entry_line doubted.now.doubt.leaf doubted.now.made }
{
    entry_line(doubted.doubt.leaf, &doubted.made)
}

/// Reads the bytes of a file `doubt`. Returns `None` if they do not begin with a line of [`doubt_line`]. The line does not
/// say what the hub found, so the leaf counts as one that is ahead.
pub fn doubt_in(bytes: &[u8]) -> Option<Doubted>
    ensures { IsDoubtIn bytes.now result }
{
    match first_line(bytes) {
        Some(first) => doubted_by(&first.line),
        None => None,
    }
}

// The leaf that a line enters.
fn doubted_by(line: &BookLine) -> Option<Doubted>
    ensures { result ≡ doubted_by line.now }
{
    match line {
        BookLine::Enters { leaf, made } => Some(Doubted {
            doubt: Doubt {
                leaf: *leaf,
                refusal: HandshakeRefusal::Ahead,
            },
            made: *made,
        }),
        BookLine::Frees { leaf: _ } | BookLine::Bars { made: _ } => None,
    }
}

// Whether a refusal says that the hub may be an older copy of itself.
pub(crate) fn is_doubt(refusal: HandshakeRefusal) -> bool
    ensures { result ≡ is_doubt refusal }
{
    match refusal {
        HandshakeRefusal::Ahead | HandshakeRefusal::Records => true,
        HandshakeRefusal::Heir
        | HandshakeRefusal::Net
        | HandshakeRefusal::Count
        | HandshakeRefusal::Other
        | HandshakeRefusal::Older => false,
    }
}
