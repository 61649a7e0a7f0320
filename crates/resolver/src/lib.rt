//! Names of hosts to addresses, without a socket: queries to a name server and its replies as bytes (RFC 1035), and the
//! two files of a machine that say whom to ask and what is known already.
//!
//! - A [`Query`] asks for the addresses of a name, and reads the reply to itself.
//! - [`name_servers`] reads the text of `/etc/resolv.conf`, and [`known_addresses`] that of `/etc/hosts`.
//!
//! ```text
//! let query = Query::new(7, b"irc.example.net", Family::V4)?;      // None: no such name can be asked for
//! socket.send(query.as_bytes());
//! query.answer(&datagram)                                          // Some(NameAnswer::Found(addresses))
//! ```
//!
//! Nothing here allocates. A query asks for one name and one [`Family`], and wants recursion. A reply counts only if it
//! has the number and the question of its query, so somebody who sees neither must guess a number of 16 bits.
#![tactic(auto)]

mod addresses;
mod family;
mod hosts;
mod names;
mod query;
mod records;
mod reply;
mod servers;
mod words;

pub use crate::addresses::{Addresses, MAX_ADDRESSES};
pub use crate::family::Family;
pub use crate::hosts::known_addresses;
pub use crate::names::is_host_name;
pub use crate::query::{MAX_QUERY, Query};
pub use crate::reply::NameAnswer;
pub use crate::servers::{MAX_SERVERS, name_servers};

/// The most bytes of `/etc/hosts` or `/etc/resolv.conf` that are to be read.
pub const MAX_FILE: usize = 1_048_576;

/// The most bytes of a reply (RFC 1035 section 4.2.1).
pub const MAX_REPLY: usize = 512;
