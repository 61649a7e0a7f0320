//! Bots in processes of their own: what holds of them, whatever they do and whenever one of them dies.
//!
//! The bots of a world are one value, and each step is known to be over before the next begins. Bots in processes
//! share nothing but packets. What they do is a list of *deeds*, in the order in which the deeds were over:
//!
//! - a bot makes a step;
//! - the process of a bot ends, in a call or between two calls, and leaves bytes on the bot's two disks;
//! - another process opens the bot from the bytes on its disks;
//! - that process ends before it has opened the bot;
//! - a new bot replaces a leaf, whose process runs or has ended: it has the leaf's number, and begins in a new folder, at
//!   version 0, without records and without requests.
//!
//! [`laws_of_processes`] states for every such list what a world promises of a run. Bots at version v hold the same
//! records, at any two moments: those after the hub's first v accepted changes. That list grows as the hub's steps
//! report, and by the change in doubt when the hub's process ended. No version goes back, even over deaths and
//! openings; only a leaf that is replaced begins again. A request is accepted at most once, and is reported so. A leaf
//! that was replaced takes no reply from before as the reply to a request of its own. Bots that are alike call the same
//! procs.
//!
//! The laws rest on premises, which are definitions in `specs/Deeds` (`Happens`, `IsFirst`):
//!
//! - each bot is made before the first deed, or replaces a leaf, and all of them with one number of leaves;
//! - a step is one that `botcore::Bot::step` allows, over a store that keeps one promise;
//! - a bot takes only packets from the report of another bot: whole, but as often and as late as may be;
//! - a process that dies in a call leaves on the disks what they meant before it, or the same with the record that the
//!   call was journaling (`LeavesIn`). Of a step of a bot the clause `died` proves it, from what `Bot::step` and
//!   `Bot::know_disks` say;
//! - a bot that replaces a leaf gives its first request the number after that of the leaf's last request that the hub
//!   has replied to: as the hub's bot says while it runs and isn't down, or as its disks say if its process has ended
//!   (`IsReplaced`). From then on no bot takes a request of the earlier process that the hub had not replied to
//!   (`answered`): the hub has closed its connection, and refuses its folder. The other packets from and to the leaf may
//!   still arrive.
//!
//! For the other deeds a bot's own calls say enough. A bot of the first moment is one that `Bot::create` made (`made`).
//! A bot that replaces a leaf is one that `Bot::create_after` made (`replaced`). The steps that `take_turn` of the crate
//! `turns` makes are deeds (`turned`). An opening is one that `Bot::open` found (`opened`). An opening in which the
//! process dies leaves what `Bot::open` says of each of its moments (`unopened`). A process that ends between two calls
//! leaves what `Bot::into_disks` says (`stopped`). The opening of a journal with an older layout is two steps of history:
//! the restart that finds what was kept, and the compaction that rewrites it.
#![tactic(auto)]

mod laws;

pub use crate::laws::laws_of_processes;
