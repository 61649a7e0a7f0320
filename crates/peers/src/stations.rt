// What a bot is in its net.
ghost use Rattle.std.specs.Prelude.{◌≡◌};

use crate::doubt::Doubted;
use handshake::{Book, DrawnNumber, LeafRights, LeafSide, Nonce, Progress};
use sealing::Key;

/// What a hub is in its net.
#[derive(Drop)]
pub struct HubStation {
    /// The net's secret, as a key.
    pub key: Key,
    /// The number of the net.
    pub net: DrawnNumber,
    /// The number of the net whose heir it is, if it is one: a leaf of that net is told to move.
    pub parent: Option<DrawnNumber>,
    /// The number of leaves of the net.
    pub leaves: u16,
    /// The leaves that may not ask for every change. Each other leaf may.
    pub limits: Vec<LeafLimit>,
    /// Which folder is which leaf.
    pub book: Book,
    /// The leaf that has shown before that the hub may be an older copy of itself, if nobody has decided since.
    pub doubt: Option<Doubted>,
}

/// What a leaf may do.
#[derive(Clone, Copy, Debug, PartialEq, Eq)]
pub struct LeafLimit {
    /// The leaf's number, from 1.
    pub leaf: u16,
    /// What it may do.
    pub may: LeafRights,
}

/// What a leaf is in its net.
#[derive(Clone, Copy)]
pub struct LeafStation {
    /// The leaf's own key.
    pub key: Key,
    /// The leaf's number, from 1.
    pub leaf: u16,
    /// The number of leaves of the net.
    pub leaves: u16,
    /// The number of the leaf's folder.
    pub made: DrawnNumber,
    /// The number of the net, if the leaf keeps it already.
    pub net: Option<DrawnNumber>,
}

impl LeafStation {
    // The leaf's side of a new connection. The process has still to tell how far the leaf has come.
    pub(crate) fn side(&self, nonce: Nonce) -> LeafSide
        ensures { result.nonce ≡ nonce }
    {
        LeafSide {
            key: self.key,
            leaf: self.leaf,
            leaves: self.leaves,
            net: self.net,
            made: self.made,
            own: Progress {
                version: 0,
                sum: [b'0'; 16],
                last: 0,
            },
            nonce,
            greeted: None,
        }
    }
}
