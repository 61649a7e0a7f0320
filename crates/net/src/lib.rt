//! Connections that never block, and when they are made again: sockets, their bounded buffers, the wait for them, the
//! server to try next, the seconds of this machine's clocks, and the log.
//!
//! - A [`TcpSocket`] is a connection over TCP, and a [`UnixSocket`] one at a path of this machine; each is a
//!   [`Stream`](streams::Stream). An [`AnySocket`] is either of them. A [`TcpDoor`] and a [`UnixDoor`] accept
//!   connections, and so does an [`AnyDoor`], which is either of them. A `TcpDoor` returns each as an [`Arrival`], with
//!   the address that it comes from. A [`Watch`] waits until one of them is ready, and names it by the token under
//!   which it was opened.
//! - A [`Connection`] holds a stream with the bytes heard from it and the bytes still to be sent, each within a bound.
//! - A [`Redial`] decides when a lost connection is tried again.
//! - A [`Dialling`] decides which server of a list is tried next, at which of its addresses, and when.
//! - A [`Timeline`] reads the clocks, and its readings never go back.
//! - A [`Log`] queues lines, and writes them while standard output takes them, or to a file.
//!
//! ```text
//! let mut watch = Watch::new(&rt, 256)?;
//! let mut dialling = Dialling::new(0, 300, servers.len());    // bot 0, which waits at most 300 seconds
//! let server = &servers[dialling.place()];
//! let tokens = DialTokens { connection: 1, lookup: 2 };
//! let dialled = dialling.connect(&rt, watch.registry(), tokens, server.host, server.port, steady)?;    // None: call again
//! let mut server = Connection::new(alloc, dialled.socket, Bounds { heard: 65_536, unsent: 65_536 });
//! watch.wait(1_000)?;                                         // at most a second
//! server.wake();                                              // if a token of the wait names it
//! server.read(16)?;                                           // true: bytes arrived
//! let bytes = server.take_heard(alloc);
//! server.tell(b"PONG :a", b"\r\n")?;                          // true: they fit
//! server.send();                                              // true: the stream took some
//! dialling.lost(now);                                         // it is over: the next server, in two seconds
//! ```
//!
//! # Sockets
//!
//! A call of a socket that would block returns [`Given::Stall`](streams::Given::Stall) or
//! [`Taken::Nothing`](streams::Taken::Nothing), and so does a call while the connection is still being made. An event
//! is a hint, and comes when something changes. So a program asks a socket until it stalls, or asks it again without a
//! wait. No contract says beforehand what a socket gives and takes; its account says what it gave and took. A dropped
//! socket is closed, and no wait names it any more.
//!
//! A read that returns fewer bytes than it asked for has read all that had arrived. A socket that is told to trust such
//! a read ([`trust_short_reads`](Socket::trust_short_reads)) stalls at the next call without a system call. It must not
//! trust it after an event that told of an end ([`Watch::endings`]): no later event is sure to announce the end.
//!
//! # Buffers
//!
//! A [`Connection`] stands between a stream and a bot. [`read`](Connection::read) hears pieces of what the stream
//! gives, and [`take_heard`](Connection::take_heard) hands on what was heard. [`tell`](Connection::tell) queues bytes
//! for the stream, and [`send`](Connection::send) offers it the unsent bytes. Neither side grows above its bound: if
//! the peer gives more, the connection is not read until the caller takes what was heard; if the peer takes too little,
//! the connection is over. A read that would block is not repeated until [`wake`](Connection::wake) says that the poll
//! has named the connection.
//!
//! Whatever the stream does, each byte that it gave is handed on once and in order, and what it took is a prefix of
//! what was queued.
//!
//! # Trying again
//!
//! The first wait is [`FIRST_WAIT`] seconds. Each failed try doubles the wait, up to a maximum that the owner chooses.
//! A bot asks a public server less often than it asks the hub of its botnet. After a good connection the wait is
//! [`FIRST_WAIT`] again. The owner decides which connection was good: one that held for some time, or one whose other
//! end has shown who it is. A bot's number shortens its wait by up to half, so that bots which lost the same peer don't
//! all come back in the same second.
//!
//! A [`Dialling`] tries each server of its list before it tries one again. If a server's name has several addresses,
//! each round through the list tries the next of them, of at most [`MAX_ADDRESSES`]. Only [`Dialling::connect`] looks a
//! name up, so only when a try is due. A host that is an address already needs no lookup ([`literal`]).
//!
//! # Names
//!
//! A lookup never blocks. It reads `/etc/hosts` first. If that file does not have the name, the lookup asks the first
//! three name servers that `/etc/resolv.conf` names, over UDP: for the addresses of IPv4, and then for those of IPv6. If
//! a server does not answer within about two seconds, the next one is asked, and each at most three times. A name is
//! looked up as it stands, so the files' other settings, such as `search`, mean nothing here.
//!
//! # Time
//!
//! A bot never accepts a reading below its last one. The wall clock of a machine can be set back, so a bot that read
//! only that clock would be deaf until the clock caught up. A [`Timeline`] reads two clocks. It returns the wall
//! clock's second; if that is below the last reading, it returns the last reading plus the seconds that the monotonic
//! clock has counted since. So readings never go back, and they don't stop. Each of them is a moment: seconds since
//! 1970-01-01 UTC, below [`MOMENTS_END`](bytetext::MOMENTS_END). At the last such second the readings stay. If the wall
//! clock is set ahead, the readings follow it.
//!
//! # The log
//!
//! A process that printed its log would block once nobody reads the pipe that it prints to, and hear nobody any more. So
//! [`note`](Log::note) only queues a line, and [`flush`](Log::flush) writes while the system says that standard output
//! takes bytes. At most [`MAX_LOG_WAITING`] bytes wait. A line that doesn't fit is dropped and counted, and so is one for
//! which no memory is left. Before the next line that it keeps, the log says how many were dropped, and why:
//!
//! ```text
//! 1700000000 up at version 7
//! 1700000060 log: too much waited to be written, so lines were dropped: 12
//! 1700000060 log: memory ran out, so lines were dropped: 1
//! 1700000060 ended
//! ```
//!
//! A log can go to a file instead ([`Log::open_file`]). A write to it that fails, as on a full disk, leaves what waits, and
//! the next [`flush`](Log::flush) tries it again. After the file was renamed, [`Log::reopen`] opens a new one at its path.
//! A line is text, or a JSON object ([`LogForm`]). In both, control characters are escaped
//! ([`law_of_shown_lines`]). A log that is asked to ([`Log::keep_tail`]) keeps its last lines in memory.
#![tactic(auto)]

mod address;
mod answer;
mod any_door;
mod any_socket;
mod connection;
mod dialling;
mod door;
mod log_file;
mod log_form;
mod log_lines;
mod log_piece;
mod log_tail;
mod logging;
mod lookup;
mod redial;
mod socket;
mod standard_output;
mod tcp;
mod timeline;
mod unix;
mod watch;

pub use crate::address::{DialFault, literal};
pub use crate::any_door::{AnyArrival, AnyDoor};
pub use crate::any_socket::{AnySocket, AnyStream, Way};
pub use crate::connection::{Bounds, Connection};
pub use crate::dialling::{DialTokens, Dialled, Dialling, law_of_turns};
pub use crate::door::DoorFault;
pub use crate::log_form::{LogForm, law_of_shown_lines};
pub use crate::log_lines::MAX_LOG_LINE;
pub use crate::log_tail::MAX_LOG_TAIL;
pub use crate::logging::{Log, MAX_LOG_WAITING};
pub use crate::redial::{FIRST_WAIT, Redial};
pub use crate::socket::Socket;
pub use crate::tcp::{Arrival, TcpDoor, TcpSocket};
pub use crate::timeline::Timeline;
pub use crate::unix::{UnixDoor, UnixSocket};
pub use crate::watch::Watch;
pub use mio::Registry;
pub use resolver::MAX_ADDRESSES;
