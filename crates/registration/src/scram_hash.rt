// The hash function of a SCRAM mechanism.

/// The hash function of a SCRAM mechanism: SHA-256 (RFC 7677), or SHA-512 in its place.
#[derive(Clone, Copy, Debug, PartialEq, Eq)]
pub enum ScramHash {
    /// SCRAM-SHA-256.
    Sha256,
    /// SCRAM-SHA-512.
    Sha512,
}
