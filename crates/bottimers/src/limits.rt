// The limits of clocks and timers. All are our own choice, since Eggdrop states none.

/// The most seconds that one reading of the clock runs.
pub const MAX_SECONDS: u64 = 600;

/// The most timers that a bot has at once, utimers included.
pub const MAX_TIMERS: usize = 200;

/// The longest interval of a timer, in minutes or seconds.
pub const MAX_INTERVAL: u32 = 1_000_000;

/// The last id that a timer can have.
pub const MAX_ID: u32 = 4_294_967_295;

/// The most whole minutes by which a clock of a fixed offset is ahead of UTC or behind it.
pub const MAX_OFFSET: i32 = 1_439;

/// The most bytes in the text of a zone's rule.
pub const MAX_ZONE: usize = 100;
