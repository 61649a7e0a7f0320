//! What an admin says to a bot, how the bot reads it, what it answers, and the client that asks.
//!
//! [`ask`] sends a command to the socket that a running bot has in its folder ([`botfolder`]), and returns the lines of
//! the answer. [`show`] returns a bot's version and records, whether it runs or not: if the bot is stopped, it reads
//! the journal and creates no file. The bot reads the command by [`AdminCommand::read`].
//!
//! ```text
//! ask(rt, "/var/lib/eggnet/egg1", b"adduser alice")?;    // accepted 1
//! show(rt, "/var/lib/eggnet/egg1")?;                     // 0 version 1 users 1 bans 0
//!                                                        // 0 user alice - -
//! ```
//!
//! # Commands
//!
//! A command is a line of at most [`MAX_COMMAND`] bytes: a word, and the words that belong to it, with one space
//! between. A last word that the table shows in capitals takes the rest of the line, and keeps its spaces.
//!
//! | Line | What the bot does |
//! |---|---|
//! | a change, such as `adduser alice` or `chan alice #egg o` | changes the userfile so ([`recordtext`]) |
//! | `show` | shows the version and the records; `show json` shows them as JSON |
//! | `status` | shows its status; `status json` shows it as JSON |
//! | `bind` type flags proc MASK | adds the bind, until the bot ends |
//! | `unbind` type proc MASK | removes the bind |
//! | `say LINE` | sends the server this line, of 1 to 510 bytes |
//! | `compact` | rewrites the journal |
//! | `jump` | leaves this server for the next |
//! | `renew` number | a hub: disconnects this leaf, and lets it come back from another folder |
//! | `handover` number | a hub: takes no change any more, and ends once this leaf has all that it accepted |
//! | `trust-this-copy` | a hub: counts its records as the net's, though a leaf has shown newer or other ones |
//! | `reload` | reads its configuration file again, and takes all of it or nothing |
//! | `reopen` | opens its log's file again |
//! | `backup FOLDER` | copies its journal into a new folder; FOLDER is a path from `/` |
//! | `+chan` channel key | joins the channel, until the bot ends; the key may be left out |
//! | `-chan` channel | leaves the channel, until the bot ends |
//! | `unignore` user@host | ignores this person no longer |
//! | `die TEXT` | ends, and sends the server the TEXT, which may be left out |
//!
//! [`AdminCommand::read`] returns what a line asks for, or what to say instead. Only the bot, when it is asked, decides
//! whether it accepts a change, a bind or a line of IRC.
//!
//! # Answers
//!
//! An answer is lines, and then a line with a full stop alone. [`body_of`] returns the lines of a whole answer, and
//! [`is_refusal`] whether they refuse the command.
//!
//! ```text
//! AdminCommand::read(alloc, b"adduser alice")?;    // AdminCommand::Change(Change { by: None, .. })
//! AdminCommand::read(alloc, b"chan alice #egg")    // say chan HANDLE CHANNEL FLAGS, as in chan alice #egg o
//! body_of(b"accepted 1\n.\n")                      // Some(b"accepted 1\n")
//! ```
//!
//! No contract can say what a socket gives, so it is not proved that the answer is the one that the bot gave. [`ask`]
//! and [`show`] return, whatever the bot does: they give up on a bot that says nothing for [`PATIENCE`] seconds.
#![tactic(auto)]

mod admin_command;
mod advice;
mod answer;
mod asking;
mod command_word;
mod fault;
mod reading;
mod showing;

pub use crate::admin_command::{AdminCommand, ChannelWords, UnbindWords};
pub use crate::advice::{CommandAdvice, CommandError};
pub use crate::answer::{body_of, is_refusal};
pub use crate::asking::{MAX_ANSWER, PATIENCE, ask};
pub use crate::command_word::CommandWord;
pub use crate::fault::{AskError, AskFault};
pub use crate::showing::{records_of, show};

/// The most bytes that a command has, without the line feed after it.
pub const MAX_COMMAND: usize = 600;

/// The most bytes of a line for the server, without its CR and LF (RFC 2812 section 2.3).
pub const MAX_LINE: usize = 510;

/// The most bytes of a channel's key.
pub const MAX_KEY: usize = 50;
