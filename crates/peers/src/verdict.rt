// What is to be done with a guest.
ghost use Rattle.std.specs.Prelude.{◌≡◌};
ghost use Rattle.peers.specs.Joining.{verdict_at};

use handshake::{HandshakeRefusal, Place};

// What is to be done with a guest.
#[derive(Clone, Copy)]
pub(crate) enum Verdict {
    // It has not shown a code, or the process has not told yet how far its bot has come.
    Waits,
    // It is refused.
    Refuses(HandshakeRefusal),
    // It is to be entered in the book.
    Enters,
    // It may join: the book has its folder.
    Joins,
}

// What is to be done with a leaf that may join, by what the book says of its folder.
pub(crate) fn verdict_at(place: Place) -> Verdict
    ensures { result ≡ verdict_at place }
{
    match place {
        Place::Same => Verdict::Joins,
        Place::Free => Verdict::Enters,
        Place::Taken | Place::Barred => Verdict::Refuses(HandshakeRefusal::Other),
    }
}
