//! A bot's connection to its IRC server: connecting, registering, keeping the connection alive, the channels to be on,
//! and what is sent.
//!
//! An [`IrcConnection`] connects to the servers of a configuration in turn ([`net`]), reads what the connected one
//! says, and sends it lines. A [`Session`] is one connection of it. This crate does not look at what the bot itself
//! makes of the server's messages; the bot's lines come in by [`IrcConnection::tell`].
//!
//! ```text
//! let mut irc = IrcConnection::new(alloc, settings, account)?;
//! // each turn, at the second now of the bot's clock and the second steady of the monotonic clock
//! irc.wake(watch.tokens(), watch.endings(), steady);
//! let connected = irc.connect(rt, log, watch.registry(), settings, now)?;
//! irc.read()?;
//! let bytes = irc.take_heard(alloc);
//! irc.look(rt, log, settings, &line, logged, nick, now)?;   // each line of them, after the bot's step; a new nick or None
//! irc.tell(log, settings, b"PRIVMSG #chan :hi", now)?;      // each line of the bot's
//! irc.keep(rt, log, settings, now)?;
//! let derives = irc.derive(rt, log, settings, now)?;        // the next turn is to come at once
//! irc.send();
//! irc.let_go(log, now);
//! ```
//!
//! Besides the bot's lines, a connection sends:
//!
//! - the PASS of a registration;
//! - CAP LS 302 as its first line, and the other lines of a registration ([`registration`]), at once: the server waits for
//!   each of them. It asks for the capabilities account-notify, extended-join, multi-prefix, userhost-in-names and chghost,
//!   where the server offers them. If the bot has an account, it logs in; by PLAIN only through a tunnel;
//! - a PING after 90 seconds of silence;
//! - another nick, if the server rejects the bot's;
//! - the lines `perform`, once after each welcome;
//! - a JOIN for each channel, at once after each welcome, and then each minute while the bot is not on it; after a KICK
//!   or a PART in the bot's name, or if the server does not let the bot in, the JOIN comes after a growing wait instead,
//!   or five seconds after an invitation, if that is sooner ([`Seat`]);
//! - a WHO for the members of each channel, once after each JOIN of the bot's own, at a server that announces WHOX
//!   and says when somebody logs in or out ([`WhoQuestions`]);
//! - an ISON each minute while the bot has another nick than that of the configuration, and a MONITOR with it at a server
//!   that announces that; and a NICK once nobody has it ([`Regain`]);
//! - a PART for each channel on which the bot is no longer to be, and a NICK if the configuration has another one by now;
//! - lines that an operator has it send, and answers to a person ([`OwnLines`]).
//!
//! Tags before a line of the server are dropped ([`TagStage`]): the process asks for no capability that brings any.
//!
//! All that a server gets are lines of 1 to 510 bytes: a [`ServerWire`] sends nothing else.
//!
//! Names of channels and the bot's nick are compared by the casemapping that the connected server has announced before
//! the first JOIN ([`IrcConnection::casemapping`]).
//!
//! These decide what is due, and touch no socket and no clock:
//!
//! - [`Vigil`]: when to ping a silent server, and when to disconnect it. It goes by the monotonic clock.
//! - [`Pace`]: how many lines the process may add to the bot's. It counts all lines sent to a server as the server
//!   does.
//! - [`cue_of`]: what a message means for the bot's registration and its channels.
//! - [`Seat`]: a channel on which the bot is to be, and when the process asks to join it.
//! - [`Regain`]: when the process asks whether somebody has the bot's own nick, and when it takes it back.
//! - [`WhoQuestions`]: which channels the process still asks about.
//! - [`other_nick`]: the nick to try next when a server rejects the bot's own.
//! - [`is_base_due`]: when to rewrite a journal.
//!
//! ```text
//! let mut vigil = Vigil::new(1_000);
//! vigil.care(1_059, false);                 // Care::Wait
//! vigil.care(1_060, false);                 // Care::LetGo(Loss::Unwelcomed)
//! vigil.care(1_090, true);                  // Care::Ask: the server was silent for 90 seconds
//! other_nick(alloc, b"longeggbot", 0)?      // Some(longeggbo): nine bytes
//! ```
//!
//! A [`Log`](net::Log) gets one line for each event: the second of the bot's clock, and what happened.
#![tactic(auto)]

mod casing;
mod configured_channels;
mod cue;
mod entry;
mod hearing;
mod irc_connection;
mod keeping;
mod laws;
mod line;
mod login;
mod login_entry;
mod nicks;
mod own_lines;
mod pace;
mod questions;
mod regain;
mod registering;
mod reloading;
mod seat;
mod server_wire;
mod session;
mod shown;
mod tags;
mod vigil;
mod why;

pub use crate::configured_channels::ConfiguredChannels;
pub use crate::cue::{Cue, cue_of, param};
pub use crate::irc_connection::IrcConnection;
pub use crate::laws::{laws_of_tags, laws_of_the_questions};
pub use crate::line::{A_BASE, MAX_LINE, is_base_due};
pub use crate::nicks::{SHORT_NICK, other_nick};
pub use crate::own_lines::OwnLines;
pub use crate::pace::{AHEAD, COST, Pace};
pub use crate::questions::{WhoQuestions, who_line};
pub use crate::regain::{REGAIN, Regain, UNFIT};
pub use crate::seat::{ASK_AGAIN, INVITED, LONGEST_WAIT, Seat};
pub use crate::server_wire::ServerWire;
pub use crate::session::Session;
pub use crate::shown::{Shown, put};
pub use crate::tags::TagStage;
pub use crate::vigil::{Care, DEAD, GOOD, Loss, QUIET, UNWELCOMED, Vigil};
pub use crate::why::Why;
