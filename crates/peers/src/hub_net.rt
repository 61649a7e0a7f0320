// The net of a hub.
ghost use Rattle.std.specs.Prelude.{◌≡◌};

use handshake::{DrawnNumber, HubSide, Nonce};
use sealing::Key;

// What a hub knows of its net.
#[derive(Clone, Copy)]
pub(crate) struct HubNet {
    // The net's secret, as a key.
    pub(crate) key: Key,
    // The number of the net.
    pub(crate) number: DrawnNumber,
    // The number of the net whose heir it is, if it is one.
    pub(crate) parent: Option<DrawnNumber>,
    // The number of leaves.
    pub(crate) leaves: u16,
}

impl HubNet {
    // The hub's side of a new connection.
    pub(crate) fn side(&self, nonce: Nonce) -> HubSide
        ensures nonce { result.nonce ≡ nonce }
        ensures parent { result.parent ≡ self.now.parent }
    {
        HubSide {
            key: self.key,
            net: self.number,
            parent: self.parent,
            leaves: self.leaves,
            nonce,
        }
    }
}
