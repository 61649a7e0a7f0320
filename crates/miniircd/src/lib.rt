//! A small IRC server for programs and tests: its clients, its channels and the lines between them (RFC 2812).
//!
//! An [`Ircd`] has no sockets. [`Ircd::connect`] returns the number of a new client. [`Ircd::line`] takes a line of a
//! client and returns the lines that the server sends, each with the client that gets it. [`Ircd::gone`] is called when
//! a connection has ended.
//!
//! The server knows NICK, USER, JOIN, PART, TOPIC, KICK, MODE, PRIVMSG, NOTICE, NAMES, WHO, PING and QUIT, and answers
//! CAP, INVITE, ISON, LIST, PONG, USERHOST and WHOIS, which change nothing. Its name is `irc.test`, and the host of
//! each client is `local`. A client that is on 20 channels can't join another. A channel with 60 bans accepts no other
//! ban. A client that a ban's mask matches can't join (`entrance_of` and `is_full` in `specs/Rooms.antt`).
//!
//! An `Ircd` has no clock. A [`Pulse`] says when the server sends a PING to a silent client, and when it disconnects
//! the client (`specs/Patience.antt`).
//!
//! Contracts see a server as its clients by their numbers and its channels in the order in which they were created
//! (`specs/Server.antt`). `after` in that file is the server after a line; `specs/Commands.antt` has a definition for
//! each command. For PING, JOIN, PRIVMSG and NOTICE of a registered client `letters` says which lines the server sends:
//! none is left out or changed, and each reads as a message. Every line goes to a client that is connected then, has 1
//! to 510 bytes, and no NUL, CR or LF. Each member of a channel is a connected client ([`Ircd::is_whole`]).
//!
//! If memory runs out, a call leaves the server as it was. A bad line allocates nothing. A JOIN copies the channels
//! that it names, and no others.
#![tactic(auto)]

mod answers;
mod bans;
mod channel_edit;
mod client;
mod client_command;
mod client_identity;
mod entrance;
mod fault;
mod inquiries;
mod invite;
mod ircd;
mod join;
mod laws;
mod lines;
mod member;
mod mode;
mod modes;
mod names;
mod people;
mod post;
mod pulse;
mod register;
mod replies;
mod rooms;
mod server_change;
mod standing;
mod talk;
mod texts;
mod turn;
mod undo_step;
mod who;
mod whois;

pub use crate::client::{Client, SentLine};
pub use crate::client_identity::ClientIdentity;
pub use crate::fault::{IrcdError, ServerFault};
pub use crate::ircd::{Ircd, MAX_CLIENTS};
pub use crate::laws::{cuts_are_the_longest, relays_are_canonical, relays_read_back};
pub use crate::member::{ServerChannel, ServerMember};
pub use crate::pulse::{Due, Pulse};
