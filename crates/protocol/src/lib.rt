//! What the ends of the sharing link promise each other, as definitions and laws. This crate has no code of a bot.
//!
//! A net is a hub, which is bot 0, its leaves, which are numbered from 1, and every packet that was ever sent. The hub
//! accepts changes of the userfile and numbers them; a leaf applies the change that is numbered one above its version,
//! and no other. A leaf sends its own changes to the hub as requests, each under the next request number. At most eight
//! of them are outstanding, and the hub keeps its last eight replies to each leaf, so that it can answer a request that
//! comes again. Each bot journals on a device that may fail at any time: what was being journaled then is in doubt
//! until a restart finds it or doesn't. The caller chooses which bot acts next, which packet is delivered, how often,
//! and when a device fails or memory runs out.
//!
//! - [`laws_of_the_link`] says what holds of every such run: bots at one version hold the same records, no version goes
//!   back, a request is accepted at most once, and the hub reports its true outcome.
//! - [`laws_of_link_journals`] says that what a link wrote into its journal reads back.
//! - [`laws_of_ends`] says the same of a net whose ends stand in one list, the hub's first. A caller that holds all
//!   bots of a net in one list needs the statements about one kind of end, not about a hub and a list of leaves beside
//!   it.
//! - [`laws_of_rights`] says that each accepted change for which a person asked was that person's right, by the records
//!   just before it. It says that nobody climbs: as long as only persons ask whom no owner's hostmask matches, the owners
//!   and masters stay as they are.
//!
//! A caller states that its calls are the steps of a net, and takes what follows from a law:
//!
//! ```text
//! laws_of_ends();      // now the contract may use: a moment of history, a call, and the moment after it
//! ```
//!
//! The words are defined in `specs/`:
//!
//! - `Packets`, `Notes`: what bots send each other, and what a call reports.
//! - `Bots`: what survives a restart, what doesn't, and the record in doubt.
//! - `HubRules`, `LeafRules`: each call as a function of the bot before it and of what the device did. A call journals
//!   at most one record. One function folds it in for the call, for the restart that finds it and for the reading of
//!   the journal.
//! - `Snapshots`: the records at a version cut into parts, for a leaf that is too far behind.
//! - `Network`: the net and its steps.
//! - `Numbers`: numbers that go from 1, and the items of lists by them.
//! - `History`, `Truth`, `Soundness`: all that ever happened, when a packet is true of it, and what holds at each
//!   moment.
//! - `Standing`: how what the bots hold follows from history.
//! - `Claims`: what the link promises of each moment, each step and each run.
//! - `Rights`: whose right each accepted change was, and what owners and masters may rely on.
//! - `Journals`: what a journal means as a link's state, and what a link writes into it.
//! - `Ends`: an end is the hub's or a leaf's, what it shows, and its calls as rows of one kind.
//! - `Nets`: when ends and packets are a moment of history, what each moment shows, and what a call leaves.
#![tactic(auto)]

mod laws;
mod net_laws;
mod rights_laws;

pub use crate::laws::{laws_of_link_journals, laws_of_the_link};
pub use crate::net_laws::laws_of_ends;
pub use crate::rights_laws::laws_of_rights;
