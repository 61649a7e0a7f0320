// The limits of queues, and the numbers of the send timer.

/// How many lines a queue holds at most (our own choice, as Eggdrop's default).
pub const MAX_LINES: usize = 500;

/// How many bytes a line has at most: 512 with its CR LF (RFC 2812 section 2.3).
pub const MAX_BYTES: usize = 510;

/// How far ahead of the clock the send timer may get, in seconds (RFC 1459 section 8.10).
pub const AHEAD: u64 = 10;

/// How many seconds a line costs (RFC 1459 section 8.10).
pub const COST: u64 = 2;

/// How many lines go at one moment at most: their cost is as many seconds as the timer may get ahead.
pub const MAX_AT_ONCE: usize = 5;

/// How many lines of the server queue and the help queue wait for one target at most, where shares are fair (our own
/// choice): the server reads them within forty seconds.
pub const SHARE: usize = 20;

/// How many bytes a MODE has at most that is made of several (our own choice, as Eggdrop's `mode-buf-length`): some
/// servers tell a channel of no more in one line.
pub const MAX_JOINED: usize = 200;
