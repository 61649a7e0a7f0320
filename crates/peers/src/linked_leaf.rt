// Which leaves a hub is linked with.
ghost use Rattle.std.specs.Prelude.{◌≡◌, slice_get};
ghost use Rattle.peers.specs.LinkedLeaves.{has_leaf, is_linked_leaf};

use crate::links::Links;
use crate::seat::Seat;

impl Links {
    /// At a hub, whether the leaf numbered `leaf` is linked, and its link is not over.
    pub fn is_linked_leaf(&self, leaf: u16) -> bool
        ensures { result ≡ is_linked_leaf leaf self.now }
    {
        match self {
            Links::Alone | Links::Leaf(_) => false,
            Links::Hub(hub) => has_leaf(hub.seats.as_slice(), leaf),
        }
    }
}

// Whether the leaf of this number has a living link.
fn has_leaf(seats: &[Option<Seat>], leaf: u16) -> bool
    ensures { result ≡ has_leaf (slice_get seats.now leaf) }
{
    match seats.get(usize::from(leaf)) {
        Some(Some(seat)) => seat.wire.gone().is_none(),
        Some(None) | None => false,
    }
}
