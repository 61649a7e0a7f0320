// What each side says of itself.

/// How far a bot's records have come, as it tells the other side of a link.
#[derive(Clone, Copy)]
pub struct Progress {
    /// The version of its records.
    pub version: u32,
    /// The sum of its records at that version, as 16 hexadecimal digits.
    pub sum: [u8; 16],
    /// Of a leaf, the number of its last request. Of the hub, the number of the last request of this leaf that it
    /// replied to. 0 if there is none.
    pub last: u32,
}

/// What a leaf may do.
#[derive(Clone, Copy, Debug, PartialEq, Eq)]
pub enum LeafRights {
    /// It may ask the hub for changes.
    Asks,
    /// It only reads: the hub grants none of its requests.
    Reads,
    /// It may ask for changes that persons ask for: the hub grants none of its requests in nobody's name.
    Persons,
}
