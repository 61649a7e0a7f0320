// How long the parts of a record are.

/// The most bytes of a record's body.
pub const MAX_BODY: usize = 16_384;

/// The most bytes of a record's content, which is its body without the kind.
pub const MAX_CONTENT: usize = 16_383;

/// The number of bytes in a tag.
pub const TAG: usize = 16;

/// The number of bytes that a record has beyond its content: those of its length, its kind and its tag.
pub const OVERHEAD: usize = 19;

/// The number of bytes in the content of a beat.
pub const BEAT_LEN: usize = 27;
