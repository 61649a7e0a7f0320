//! A bot's end of the sharing link, over a journal on two disks.
//!
//! Bot 0 is the hub, and the leaves are numbered from 1. The hub accepts changes of the userfile, numbers them, and
//! sends them to its leaves. A leaf applies the change numbered one above its version and no other, or installs all
//! records if it is too far behind. It sends its own changes to the hub as requests, up to eight at a time, and repeats
//! each until the hub replies. The hub keeps its last eight replies to each leaf, so it never accepts a request twice.
//!
//! - [`BotLink`] is either end. It is created on two disks or opened from them, and takes the calls that any bot may
//!   get.
//! - An [`Answer`] is what a call returns: a [`LinkNote`], which says what the call did, and the packets that the
//!   caller is to send ([`Outgoings`]).
//! - An [`AcceptedChange`] is a change that the hub accepted, and which bot asked for it.
//! - A [`HeldSnapshot`] says which parts of a snapshot a leaf holds.
//! - A [`LinkFault`] says why a link rejects a call; a [`LinkError`] is that, or out of memory.
//! - [`law_of_left_disks`]: a bot that was killed between two calls, or during a call of an open bot, is never rejected
//!   as `NotAJournal` when it is opened again.
//! - [`law_of_unopened_disks`]: nor is a bot that was killed while it was opened, however often.
//!
//! What a bot promised survives a restart: each change that it accepts or applies, and each request that it sends or
//! rejects, is in its journal before the bot reports or sends anything about it. A call makes at most one call of the
//! journal, and allocates everything before it, so a call that runs out of memory leaves the bot as it was. If a disk
//! fails while the journal is written, the bot is down: it shows what it showed before, and takes nothing but a
//! restart. The restart finds the record that was being written, or doesn't.
//!
//! ```text
//! let mut hub = BotLink::create(alloc, first, second, 0, 3)?;   // the hub of 3 leaves, on two disks
//! hub.ask(alloc, change)?;                                      // Queued
//! match hub.pump(alloc) {
//!     Ok(answer) => send(answer.packets.as_slice()),            // Accepted(1), and Change 1 to each leaf
//!     Err(Failure::Refused(fault)) => println!(rt; "{}", fault.code())?,
//!     Err(Failure::NoMemory) => {}                              // the hub is as it was
//! }
//! if hub.is_down() {
//!     hub.restart(alloc)?;                                      // Restarted(0) or Restarted(1)
//! }
//! ```
//!
//! The contracts use the words of [`protocol`], and those that are defined in `specs/`:
//!
//! - `BotLinks`, `BotOpening`: a bot's end as one value, how its calls match their rows in `protocol`, how it is
//!   created and opened, and what it leaves on its disks.
//! - `Telling`: what a bot tells others of its end: its last request, its last replies, and the parts that it holds.
//! - `Calls`, `Meets`, `Codes`, `Texts`, `Shapes`: what a call returns, and how that matches its row; an error's letter
//!   and number; when a text may be sent; which packets have records of good shape.
//! - `HubLinks`, `LeafLinks`, `BotEnds`, `StateEnds`: the hub's end and the leaf's.
//! - `Kept`, `StateOpening`, `Anew`: an end's state with its journal, how both are created and found, and how a journal
//!   of an older layout is rewritten before the end is opened.
//! - `States`, `Records`, `HubRecords`, `LeafRecords`, `Reading`, `EndLaws`: what an end keeps, what it journals, and
//!   what its journal means.
//! - `Parts`: a complete set of parts of a userfile.
#![tactic(auto)]

mod accepted;
mod answer;
mod bot_link;
mod end_state;
mod ends;
mod error;
mod fields;
mod held_snapshot;
mod hub_accepting;
mod hub_link;
mod hub_packets;
mod hub_receiving;
mod hub_record;
mod hub_state;
mod journaled;
mod kept;
mod laws;
mod leaf_link;
mod leaf_packets;
mod leaf_receiving;
mod leaf_record;
mod leaf_replies;
mod leaf_state;
mod moved;
mod next_change;
mod note;
mod parts;
mod records;
mod replies;
mod requests;
mod state_fault;
mod texts;
mod walk;

pub use crate::accepted::AcceptedChange;
pub use crate::answer::{Answer, Outgoing, Outgoings};
pub use crate::bot_link::BotLink;
pub use crate::error::{LinkError, LinkFault};
pub use crate::held_snapshot::HeldSnapshot;
pub use crate::laws::{law_of_left_disks, law_of_unopened_disks};
pub use crate::note::LinkNote;
pub use sharewire::Packet;

/// The most leaves that a hub has.
pub const MAX_LEAVES: u16 = 1000;

/// The most asks that can wait at a bot.
pub const MAX_ASKS: usize = 64;

/// The most changes that a hub sends on one hello.
pub const HELLO_CHANGES: usize = 16;

/// The most texts that a bot sends in one step.
pub const MAX_TEXTS: usize = 64;
