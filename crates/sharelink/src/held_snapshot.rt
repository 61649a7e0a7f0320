// The parts of a snapshot that a leaf holds.

/// Which parts of a snapshot a leaf holds, while it waits for the others.
#[derive(Clone, Copy, Debug)]
pub struct HeldSnapshot {
    /// The version of the records that the snapshot is of.
    pub version: u32,
    /// A bit for each part: part p, from 1 to 88, is bit (p - 1) % 8 of byte (p - 1) / 8, where bit 0 is the lowest. It
    /// is 1 if the leaf holds the part. A part above 88 has no bit.
    pub bits: [u8; 11],
}
