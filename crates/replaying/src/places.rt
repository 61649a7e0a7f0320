// The places of things, in points.

/// The height of the first row.
pub const FIRST_ROW: u32 = 84;

/// The distance from one line of text to the next.
pub const LINE: u32 = 17;

/// The distance between two rows.
pub const GAP: u32 = 13;

/// The maximum number of bytes of a row's label that are shown.
pub const LABEL: usize = 30;

/// The maximum number of bytes of a note that are shown.
pub const NOTE: usize = 25;

// The place of the hub's line, and the distance from one bot's line to the next.
const HUB: u32 = 496;

const COLUMN: u32 = 240;

/// Returns the place of the line of `bot`.
pub fn place_of(bot: u16) -> u32 {
    u32::from(bot).saturating_mul(COLUMN).saturating_add(HUB)
}

/// Returns the width of a picture of a net of `leaves` leaves.
pub fn width_of(leaves: u16) -> u32 {
    place_of(leaves).saturating_add(215)
}
