// How long a frame may be.

/// The most bytes of a frame's kind and body (our own choice).
pub const MAX_LENGTH: usize = 40_000;

/// The most records of one [`Packet::Part`](crate::Packet::Part) (our own choice: this number of records of any size
/// fits one frame).
pub const MAX_PART_RECORDS: usize = 8;
