// How much a userfile holds, and how long its texts are. Eggdrop's handles have 32 bytes; the other limits are our own
// choice. `wildmask` has the limits of hostmasks, and `rfccase` that of channel names.

/// The most users that a userfile holds.
pub const MAX_USERS: usize = 500;

/// The most bans that a userfile holds.
pub const MAX_BANS: usize = 200;

/// The most bans of one channel that persons may add: if the channel has so many, only a change in nobody's name adds
/// one more.
pub const MAX_CHANNEL_BANS: usize = 100;

/// The most hostmasks that a user has.
pub const MAX_MASKS: usize = 16;

/// The most channels on which a user has flags.
pub const MAX_CHANNELS: usize = 16;

/// The most bytes that a handle has.
pub const MAX_HANDLE: usize = 32;

/// The most bytes that a comment has.
pub const MAX_COMMENT: usize = 100;

/// The most bytes that a user's info text has.
pub const MAX_INFO: usize = 80;
