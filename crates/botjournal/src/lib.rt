//! The journal of a bot: its base and entries as values, over the journal of byte texts on two disks.
//!
//! A [`Base`] is a bot's state at a version: the userfile's records, and what is kept of requests. An [`Entry`] is what
//! happened since. Each has one spelling as bytes ([`write_base`], [`write_entry`]); the readers accept that spelling
//! and nothing else. A [`BotJournal`] keeps them on two disks. After any crash it holds the entries from before a call, or
//! those and the one being written.
//!
//! ```text
//! let mut journal = Journal::create(alloc, first, second, &base)?;
//! journal.append(alloc, &entry)?;         // acknowledged: each crash from now on leaves it
//! journal.rebase(alloc, &other_base)?;    // the new base alone
//! let opened = journal.restart(alloc)?;   // what stands on the disks after a crash
//! if opened.whole { /* opened.base, opened.entries, and opened.journal to go on with */ }
//! ```
//!
//! Each disk names the layout in which its texts are spelled. [`LAYOUT`] is written. The three layouts before it are read
//! too, but their journals take no entry until `rebase` writes another base in the new layout. Whatever an older layout
//! spelled may be written in the new one.
//!
//! In [`LAYOUT`] each text ends with a sum of eight bytes: the first ones of the SHA-256 of the sum before it, its place,
//! its length and its bytes. Before the base stand its layout and generation. So a text that a device changed, lost,
//! repeated or moved is noticed, on the disk that counts and on the other one.
//!
//! `NotAJournal` comes from disks that hold no journal of texts. It also comes when the disk that counts, or the other
//! one if its gate is open, has a layout that isn't read, or holds a text that spells no base or entry or doesn't end
//! with its sum. Then restore both disks from a copy; a leaf may also start over on empty disks. It never comes
//! from disks that `create` made and only this journal wrote, whatever crashes came: [`laws_of_journals`] states this
//! for any number of calls. After a disk's fault the journal is spent: what was being written may count or not, and
//! opening the journal again shows which.
//!
//! A [`Ledger`] is a journal that stays with its owner through such faults. It holds the disks at all times: in a
//! journal, or without one if a restart could not open it. Contracts see of it what is kept, what is in doubt, whether
//! it is down, and how often its disks have failed.
//!
//! ```text
//! let mut ledger = Ledger::create(alloc, first, second, &base)?;
//! if ledger.append(alloc, &entry).is_err() && ledger.is_down() {
//!     let found = ledger.restart(alloc)?;  // found.base and found.entries: with the entry, or without it
//! }
//! ```
#![tactic(auto)]

mod base;
mod bases;
mod cut_short;
mod entries;
mod entry;
mod found;
mod journal;
mod laws;
mod layouts;
mod ledger;
mod lists;
mod opening;
mod reply;
mod request;
mod requests;
mod store;
mod sums;

pub use crate::base::Base;
pub use crate::bases::{read_base, write_base};
pub use crate::cut_short::{are_cut_short, is_cut_short};
pub use crate::entries::{read_entry, write_entry};
pub use crate::entry::Entry;
pub use crate::found::{Found, LedgerError, RebaseError, RebaseFault};
pub use crate::journal::BotJournal;
pub use crate::laws::{
    laws_of_bases, laws_of_cuts, laws_of_entries, laws_of_journals, laws_of_sums,
};
pub use crate::ledger::Ledger;
pub use crate::opening::OpenedJournal;
pub use crate::reply::{Reply, Verdict};
pub use crate::request::Request;

/// The layout in which a journal is written: the byte after the letters on its disks. Three older layouts are read too:
/// layout 3, whose texts carry no sums and whose changes name nobody who asked; layout 2, whose bases also have at most
/// one outstanding request and one reply to each leaf; and layout 1, which also has no info texts and no sticky bans.
/// Nothing is appended to a journal in an older layout.
pub const LAYOUT: u8 = 4;

/// How many outstanding requests a leaf has at most, and how many replies to a leaf are kept.
pub const WINDOW: usize = 8;
