//! What the programs share: their words, their statuses, and the commands `replay` and `picture`.
//!
//! ```text
//! let words = words_of(rt)?;
//! replay_file(rt, store, "two_users.egg")        // the status to end with; standard error says what went wrong
//! picture_script(rt, store, None)                // the same, of the picture of the script on standard input
//! let svg = picture(alloc, store, b"leaves 1\nask 0 adduser alice\npump 0\ndeliver 1\n")?;
//! ```
//!
//! A picture of a script's run is SVG with one column per bot, which a browser shows. A line runs down for each bot,
//! the hub's first. Each command of the script except `show` has a row, with its line of the script at the left.
//!
//! - A dot stands where a bot took part. What came of the step stands beside the dot: on its left for the hub, on its
//!   right for a leaf.
//! - If the bot's version changes, the dot has the new version in it. It is green if the hub accepts a change, and blue
//!   if a leaf applies one or more.
//! - A refusal is a red dot. A restart is an orange square with the version that the bot found.
//! - An arrow goes from where a packet was sent to where it was delivered. It is dashed if the packet had been
//!   delivered before. A packet that is never delivered ends in a cross.
//! - Each call of a proc is named, with the code that it answered.
//!
//! A picture has at most 9 bots and 200 steps. It is text without scripts and without anything to fetch, in plain fonts
//! on a light background. What it shows is what the run's outcomes say; pictures that were looked at test this, and
//! nothing proves it. It is proved that each call returns, and that nothing is read or written out of bounds.
#![tactic(auto)]

mod canvas;
mod faults;
mod flights;
mod notes;
mod painting;
mod pictures;
mod places;
mod rows;
mod scripts;
mod statuses;
mod words;

pub use crate::faults::{PictureError, PictureFault};
pub use crate::painting::{MAX_LEAVES, MAX_STEPS, picture};
pub use crate::pictures::picture_script;
pub use crate::scripts::{replay_file, replay_input};
pub use crate::statuses::{FAULT, NO_MEMORY, STREAM_FAULT, USAGE, not_written, out_of_memory};
pub use crate::words::{unread, words_of};
