//! A bot as a process that runs until an admin ends it: a bot that is alone, a hub with its leaves, or a leaf.
//!
//! - [`run`] runs the bot of a folder.
//! - [`check`] finds what is wrong with a configuration before anything is opened.
//! - [`sum_of`] is a sum of a userfile's records, with which two bots compare their records without showing them.
//!
//! ```text
//! let settings = Settings::read(alloc, bytes)?;
//! check(alloc, &store, &settings)?;                  // what can be said before anything is opened
//! run(&rt, &store, &settings, &mut watcher)?;        // until an admin says die
//! ```
//!
//! [`run`] takes the bot's folder, opens or creates its journal, connects to the servers of its configuration in turn,
//! and listens for admins at the socket `control` in the folder. Then it makes turns. A turn waits for sockets,
//! reads the clocks, connects what is lost and due, reads, has the bot take the turn, executes up to 16 commands of
//! each admin, writes, and closes the connections that are over. Once such a turn has left nothing to do, a turn of the same
//! second is short if the server alone may have something to read: it does the rest only if the bot's steps say something.
//! If the server alone ends the wait for a turn within 10 ms, the process pauses until they have passed, so that lines which
//! come closely after one another share a turn ([`upkeep::wait`]).
//!
//! [`turns::take_turn`] does what the bot itself does, and a bind of an admin is one step of it: nothing is decided
//! here for the bot. [`serverlink`] keeps the connection to the server, and sends there what the process sends by
//! itself. This crate queues there what an admin has it say, and the outcome of a change that a person asked for.
//!
//! What needs no bot stands in crates of its own: [`administrators`] has the admins' connections and who asked for which
//! change, [`upkeep`] what the process opens and keeps beside the bot, and [`recordsums`] the sum of the records.
//!
//! A hub and its leaves are processes on any machines, connected over TCP ([`peers`]). A hub draws the number of its
//! net when it is created, before its journal gets its name, and a leaf keeps that number at its first handshake. A
//! change that an admin asks for at a leaf is `queued`; once the hub has answered, the leaf writes `accepted N` or
//! `refused ..` to the admin on the same connection. Changes are answered in the order in which they were asked for,
//! including those of procs.
//!
//! # Which folder is which leaf
//!
//! Each bot's folder has a number of its own, drawn before its journal gets its name. The hub keeps the number of each
//! leaf's folder in its book, the file `leaves`, and writes it there before it welcomes a new leaf. Another folder that
//! shows that leaf's number is refused, until an admin says `renew N` at the hub.
//!
//! A leaf that was made again has a new folder, and knows nothing of the requests of the earlier one. The hub tells it
//! how many of them it has replied to. The leaf then begins again in the same folder, with a journal whose requests are
//! numbered above them, so no reply of the past is taken for one of its own. Only a leaf that has no records yet does so.
//!
//! # A leaf that moves
//!
//! If the hub that a leaf finds is the heir of its net, and shows the right code, the leaf leaves its net: [`run`] returns
//! [`RunEnd::Moves`]. Put the leaf's journal aside then, and call [`run`] again: it begins as a new leaf of the heir's net.
//!
//! # A hub that is handed over
//!
//! If an admin says `handover N` at a hub, it takes no change any more: it refuses those of admins, takes no requests of
//! its leaves, and lets the changes of its own procs wait. Once leaf N has shown that it is at the hub's version, the hub
//! ends. If that takes longer than 50 seconds, the hub takes changes again.
//!
//! # A hub in doubt
//!
//! If a leaf has records that the hub lacks, or other records at the hub's version, the hub may be an older copy of
//! itself, such as one from a backup. It then accepts no change: it refuses those of admins, takes no requests of its
//! leaves, and lets the changes of its own procs wait. Either its newest journal is given back, or an admin says
//! `trust-this-copy`: then its records count, and the folders of those leaves never join again.
//!
//! # The log
//!
//! The log goes to standard output, one line for each event: seconds since 1970-01-01 UTC, and what happened. Each turn
//! ends by writing what waits, as far as standard output takes it. A log that cannot be written does not stop the bot,
//! and one that nobody reads does not block it ([`net::Log`]).
//!
//! The log shows the bot's version with the sum of its records at the start, when the version has changed and 5 seconds
//! have passed since the last time, and at the end. So the logs of two bots show whether their records were the same at
//! each version that both logs show.
//!
//! # The clocks
//!
//! The monotonic clock measures silences and time limits: of a server, of a handshake, of a lookup, and of admins. So
//! nobody is disconnected because somebody sets the machine's clock ahead. The wall clock, by its readings in a
//! [`net::Timeline`], gives the bot's time, the log's seconds, and when a hello or an attempt to connect is due.
//!
//! # A full disk
//!
//! A record that can't be written whole may count or not, and only a new start finds out. So the bot looks for room on
//! the disk of its folder ([`botfolder::Room`]) before it takes changes: once a second, and at rest once a minute. While
//! it finds none, it refuses changes and `compact` to admins, does not rewrite its journal by itself, and drops what
//! other bots send, which they send again. It still takes the server's lines: for the changes of procs, the journal has
//! the space that is set aside.
//!
//! # Who watches
//!
//! [`run`] tells a [`Watcher`](watching::Watcher) each act of the process with its bot, and proves each act lawful
//! before it. So at whatever moment somebody kills the process, it has opened its bot from what its disks held, or
//! created it, and has made only steps that the bot takes, one after another. What the process does on its connections
//! the watcher is not told. A program that nobody watches passes a [`NoWatcher`](watching::NoWatcher).
#![tactic(auto)]

mod answering;
mod binding;
mod bot_process;
mod deeds;
mod handing_over;
mod looking;
mod obeying;
mod others;
mod outcome;
mod own;
mod page_view;
mod passing;
mod proc_asks;
mod process;
mod quiet;
mod rebinding;
mod reloading;
mod starting;
mod steps;
mod sum_logging;
mod trusting;

pub use crate::bot_process::{RunEnd, run};
pub use administrators::{MAX_ADMINS, MAX_UNSENT};
pub use recordsums::sum_of;
pub use upkeep::{AccountFault, RunError, Subject, check, file_bytes};
