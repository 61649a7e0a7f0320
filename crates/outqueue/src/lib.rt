//! The lines that wait to be sent to an IRC server, and when each may go.
//!
//! A server drops a client that floods it. RFC 1459 section 8.10 says how it counts. The server keeps a timer that is
//! never earlier than the clock and grows by two seconds with each line, and it reads lines while the timer is less
//! than ten seconds ahead. [`Queues`] keeps the same timer and returns a line only when the server would read it: five
//! at once, then one every two seconds.
//!
//! There are three queues of at most 500 lines. A lower one is served only while the higher ones are empty. Answers to
//! PING wait apart, at most 500 too, and go before the lines of all queues: a server drops a client that answers late.
//!
//! [`Queues::put`] queues each line. [`Queues::put_once`] does so only where it is useful and fair: a line that waits in
//! the mode queue already is not put again, and at most [`SHARE`] lines of the other two queues wait for one nick or
//! channel.
//!
//! ```text
//! let mut queues = Queues::new(alloc);
//! queues.put(Queue::Help, Text::from_slice(alloc, b"PRIVMSG #egg :hi")?)?;
//! queues.put(Queue::Mode, Text::from_slice(alloc, b"MODE #egg +o ada")?)?;
//! queues.put_prompt(Text::from_slice(alloc, b"PONG irc.test")?)?;
//! queues.take(100)    // PONG irc.test
//! queues.take(100)    // MODE #egg +o ada
//! queues.take(100)    // PRIVMSG #egg :hi
//! ```
#![tactic(auto)]

mod fault;
mod joining;
mod joining_laws;
mod lane;
mod limits;
mod line;
mod mode_line;
mod pacing;
mod queue;
mod queues;
mod shares;
mod target;

pub use crate::fault::{PutError, QueueFault};
pub use crate::joining_laws::laws_of_joining;
pub use crate::limits::{AHEAD, COST, MAX_AT_ONCE, MAX_BYTES, MAX_JOINED, MAX_LINES, SHARE};
pub use crate::pacing::over_moments;
pub use crate::queue::{Queue, QueueSet};
pub use crate::queues::{Counts, Queues};
pub use crate::shares::laws_of_shares;
