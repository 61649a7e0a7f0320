//! The bot's clock, its timers, civil time and cron masks, as in Eggdrop 1.9 (its Tcl commands document, at `timer`,
//! `utimer`, `timers`, `killtimer` and the bind types TIME and CRON).
//!
//! Nothing here reads the system's clock: the caller reads it, and each call says what a reading means.
//!
//! - A [`Clock`] turns readings into the seconds that run: none at the first reading, then every second that has
//!   passed, but only the last 600 of a long gap.
//! - [`Timers`] says at each of those seconds which timers are due, utimers before timers. A timer that was made in
//!   the minute or second s with the interval i and the count q is due in the minutes or seconds s + i, s + 2i and so
//!   on, q times, or for ever if q is 0. Occurrences in seconds that don't run are lost and count as used. A timer
//!   calls a proc with a text, and is killed by its id or by its proc and text.
//! - A [`Zone`] says how far a clock is ahead of UTC at a moment, and [`civil`] returns the minute that this clock and
//!   the calendar show then. No other function knows of zones. [`time_text`], [`time_args`] and [`cron_args`] write
//!   that minute.
//! - A [`Cron`] mask is parsed once and then tried on minutes.
//!
//! ```text
//! let mut clock = Clock::new();
//! let mut timers = Timers::new(alloc);
//! clock.advance(alloc, 100)?;
//! timers.add(TimerKind::Seconds, 10, 1, greet, alice, clock.last())?;
//! for second in clock.advance(alloc, 150)? {
//!     for call in timers.due(alloc, second)? {
//!         // second 110: id 1, proc greet, text alice
//!     }
//! }
//! ```
#![tactic(auto)]

mod calendar;
mod call;
mod clock;
mod cron;
mod cron_text;
mod entries;
mod entry;
mod fault;
mod limits;
mod span;
mod status;
mod timer;
mod timers;
mod words;
mod zone;

pub use crate::calendar::{CivilMinute, civil};
pub use crate::call::TimerCall;
pub use crate::clock::Clock;
pub use crate::cron::Cron;
pub use crate::fault::{ClockError, ClockFault, CronFault};
pub use crate::limits::{MAX_ID, MAX_INTERVAL, MAX_OFFSET, MAX_SECONDS, MAX_TIMERS, MAX_ZONE};
pub use crate::status::TimerStatus;
pub use crate::timer::{Timer, TimerKind};
pub use crate::timers::Timers;
pub use crate::words::{cron_args, time_args, time_text};
pub use crate::zone::Zone;
