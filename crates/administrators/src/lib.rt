//! The administrators of a running bot: their connections, the changes that they and others ask for, and what the answers
//! and the log say of them.
//!
//! - [`Admins`] is the door at the socket in the bot's folder, and the admins that it has let in. It gives their commands
//!   line by line, and takes the answers.
//! - [`Asks`] knows who asked for the changes that wait at a bot or are out: an admin, a person on IRC whose words made a
//!   proc ask, or nobody who waits for an answer. The oldest change is answered first.
//! - [`ChangeOutcome`] is what became of a change. [`answer_oldest`] says it to whoever asked: as the answer to a command
//!   ([`change_answer`]), or in a notice.
//! - [`tell_unanswered`] tells those whose changes nobody will answer.
//! - [`LogEntry`] is a line of the bot's log, except those about servers and other bots. [`log_changes`] writes who asked
//!   for which change, and [`changes_answer`] tells an admin of the changes that the journal holds.
//!
//! This crate knows no bot: it takes the calls of a step, its packets and the note of its link. [`control`] reads a command.
//!
//! ```text
//! let mut admins = Admins::open(&rt, watch.registry(), "/var/lib/eggnet/egg1/control")?;
//! admins.read(&rt, &mut log, &watch, &asks, seconds)?;
//! if let Some(command) = admins.take_command(alloc, 0)? {    // adduser alice
//!     admins.tell(command.number, b"accepted 1\n")?;         // accepted 1, and a line with a full stop
//! }
//! admins.send();
//! ```
#![tactic(auto)]

mod admins;
mod answers;
mod asks;
mod audit;
mod change_outcome;
mod change_words;
mod log_entry;
mod noticing;
mod requests;
mod seconds;
mod settling;
mod told_changes;
mod unanswered;

pub use crate::admins::{AdminLine, Admins, MAX_ADMINS, MAX_UNSENT};
pub use crate::answers::{
    advice_answer, asked_answer, change_answer, fault_answer, looseness_in, numbered_answer,
    refused_answer,
};
pub use crate::asks::{Asks, Recipient, asks_in, is_ask_fault};
pub use crate::audit::{IrcCaller, log_changes};
pub use crate::change_outcome::ChangeOutcome;
pub use crate::change_words::ChangeWords;
pub use crate::log_entry::LogEntry;
pub use crate::noticing::{ChangeWait, HubTakes, notice_callers};
pub use crate::requests::requests_in;
pub use crate::seconds::Seconds;
pub use crate::settling::answer_oldest;
pub use crate::told_changes::{MAX_TOLD, changes_answer};
pub use crate::unanswered::tell_unanswered;
