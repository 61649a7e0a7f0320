// Why the hub refuses a leaf that has shown its code.
use thiserror::Error;

/// Why the hub refuses a leaf that has shown its code. The variants are in the order in which they are tested. The hub
/// tells the leaf which it is, so the text is for both logs.
#[derive(Clone, Copy, Debug, PartialEq, Eq, Error)]
pub enum HandshakeRefusal {
    /// The leaf keeps the number of the net whose heir the hub's net is.
    #[error("the hub is the heir of this leaf's net: the leaf puts its journal aside and joins it as a new leaf")]
    Heir,
    /// The leaf keeps the number of another net.
    #[error("the leaf belongs to another net: if the hub was created again, begin the leaf in a new folder, else mend the leaf's line hub")]
    Net,
    /// The leaf's number of leaves is not the hub's.
    #[error("the bots disagree on the number of leaves: give each bot of the net the same LEAVES in its line bot")]
    Count,
    /// The hub's book has another folder for this leaf, or bars the folder that connects.
    #[error("another folder shows this leaf's number, or this folder is barred: give a second bot a number of its own, or run `tell HUB renew N` and begin the leaf in a new folder")]
    Other,
    /// The leaf's version is above the hub's.
    #[error("the hub is an older copy of itself, or this leaf belongs to a later one: give the hub its newest journal back, or see `trust-this-copy` in the manual")]
    Ahead,
    /// Both have the same version, but other records.
    #[error("the two bots hold different records at one version: if the hub is an older copy of itself, give it its newest journal back, else see `trust-this-copy` in the manual")]
    Records,
    /// The hub has replied to a request that the leaf does not know.
    #[error("this leaf is an older copy of itself: run `tell HUB renew N` at the hub, and begin the leaf in a new folder")]
    Older,
}
