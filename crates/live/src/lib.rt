//! A botnet over sockets, as a script says: a small IRC server, a hub and its leaves in one process and one thread.
//!
//! [`live`] reads a live script, opens the server and the hub's link listener on ports of 127.0.0.1 that the system
//! chooses, and does the commands. Each bot has its journal on two disks in memory and a connection to the server. Each
//! leaf has a connection to the hub that carries packets as frames.
//!
//! ```text
//! live(&rt, store, &mut Duplex::new(reader, writer))?;     // leaves 0, until 0, show 0: 0 version 0 users 0 bans 0
//! ```
//!
//! - [`live`] runs a script; a [`LiveScript`] reads its [`LiveCommand`]s, and a [`LiveError`] says what is wrong with
//!   one.
//! - [`House`] is the server of [`miniircd`] on a port, with its connections and with guests that are held in memory.
//! - [`LinkHouse`] is the hub's side of the link, with its listener, and a [`HubSocket`] is a leaf's side.
//! - A [`Peer`] is one side of a [`Connection`](net::Connection) over TCP. A [`FramePeer`] is a connection that
//!   carries packets as frames ([`peers`]).
//!
//! # Commands
//!
//! A live script has at most [`MAX_LEAVES`] leaves. It has the commands of a replay's script except `line`, `clock B N`
//! and `deliver`, and these besides:
//!
//! | Command | What it does |
//! |---|---|
//! | `until V` | makes turns until each bot is at version V or above, at most 100,000 turns |
//! | `turns N` | makes N turns, at most 100,000 |
//! | `guest NICK CHANNEL` | makes a client in memory register and join |
//! | `say NICK TARGET TEXT` | makes that guest say the text to TARGET |
//! | `heard NICK` | prints each line that the guest has received since the last time, as `NICK LINE` |
//! | `clock N` | sets the moment that each bot's clock shows from then on; it is 0 before |
//!
//! `connect B` gives a bot a new connection to the server, of which the bot hears in its next turn. A `say` or `heard`
//! of a nick that is no guest does nothing. Only `show` and `heard` print. Every other command for a bot is a step of
//! the bot, made at once.
//!
//! # Turns
//!
//! Nothing in a turn blocks: it accepts new connections, reads each socket until it would block, steps the server and
//! the bots, and writes. A socket that isn't connected yet counts as one that would block. A bot's steps in a turn are
//! those of one [`turns::take_turn`], as in a bot's process: a connection that began, the lines that its server sent,
//! the clock, the packets that arrived, and a pump in every 64th turn, starting with the first.
//!
//! After a turn that moved nothing, the next one would move nothing either until the system has carried something or a
//! pump is due. So while something is on its way between two sockets, one wait for all sockets comes before the next
//! turn: until one of them has something to do, or for 100 milliseconds. [`House::wait`] waits for all sockets of its
//! [`Watch`](net::Watch) at once, and nothing else waits. [`Peer::is_even_with`] returns whether nothing is on its way between
//! two sides of a connection. If nothing is on its way, or the wait timed out, the turns before the next pump count as
//! made. So an idle botnet makes one turn in 64.
//!
//! A peer that is slow, gone or sends garbage is disconnected, and the others go on. No contract says what sockets give
//! and take, since the system decides that. But each packet that arrives was read from a frame, so its records have a
//! good shape. Each call returns, and nothing is read or written out of bounds.
#![tactic(auto)]

mod addresses;
mod bot_sockets;
mod caller;
mod error;
mod fault;
mod frames;
mod guest;
mod house;
mod hub_socket;
mod link;
mod live_command;
mod moment;
mod network;
mod own_words;
mod peer;
mod reading;
mod reason;
mod running;
mod saying;
mod socket_fault;
mod turn;

pub use crate::addresses::local;
pub use crate::error::LiveError;
pub use crate::fault::{LiveFault, LiveScriptError};
pub use crate::frames::FramePeer;
pub use crate::house::House;
pub use crate::hub_socket::HubSocket;
pub use crate::link::LinkHouse;
pub use crate::live_command::{LiveCommand, LiveCommands, Speech};
pub use crate::moment::Moment;
pub use crate::peer::Peer;
pub use crate::reading::LiveScript;
pub use crate::reason::{LiveReason, LiveVerb};
pub use crate::running::live;
pub use crate::socket_fault::SocketFault;

/// The maximum number of leaves of a live script.
pub const MAX_LEAVES: u16 = 8;

/// The maximum number of turns of one command.
pub const MAX_TURNS: u32 = 100_000;
