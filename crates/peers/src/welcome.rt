// What the hub tells a leaf that it welcomes.
use handshake::{LeafRights, Progress};

// What the hub tells a leaf that it welcomes, and when.
#[derive(Clone, Copy)]
pub(crate) struct Welcome {
    pub(crate) own: Progress,
    pub(crate) may: LeafRights,
    // The second at which the leaf is linked.
    pub(crate) since: u64,
    // The second of the monotonic clock.
    pub(crate) steady: u64,
}
