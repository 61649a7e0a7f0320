//! What a process does with its bot, whenever it is killed: a trait for whoever watches it.
//!
//! A process opens its bot or creates it, and then makes steps. Somebody may kill it at any moment, even in the middle
//! of a step. So a promise about all that it does can't stand in what its calls ensure: a call that never returns
//! ensures nothing.
//!
//! A [`Watcher`] is told each act of the process: before the act, that it begins, and after it, what came of it. Each
//! method requires that the watcher allows the act. A process that takes any watcher, and knows only that lawful acts
//! are allowed, must therefore prove each act lawful before it tells the watcher. So at each moment all that it has done
//! is lawful.
//!
//! The packets of other bots come from a [`Mailbox`]. The watcher itself takes them there for the process, and a step of a
//! packet is lawful only if the packet was taken so. So no process can have its bot take a packet that it made up. The
//! watcher also queues the packets for other bots there: those that the bot has reported, in order, each once and to the bot
//! that the report names. A mailbox accounts for all that it was told, so no process can tell another bot a packet that its
//! own bot did not report.
//!
//! A process that waits says so, and may do it once all packets are queued and its bot was told the time.
//!
//! In `specs/`, `Acts` defines the acts and which of them are lawful (`May`). `Openings` says what a bot that was opened
//! has to do with the bytes of its disks, and what a crash leaves there. `Following` has the words of contracts: a past
//! that `Follows` another one by lawful acts, a watcher that `Lets` lawful acts happen, and a bot that `IsAt` where its
//! past has led.
//!
//! [`NoWatcher`] is the watcher of a program that nobody watches. It allows everything and does nothing.
//!
//! ```text
//! watcher.tells(&bot, &event);
//! let report = bot.step(alloc, &store, event);
//! bot.know_disks();
//! watcher.made(&report, &bot);
//! ```
#![tactic(auto)]

mod mailbox;
mod no_watcher;
mod watcher;

pub use crate::mailbox::Mailbox;
pub use crate::no_watcher::NoWatcher;
pub use crate::watcher::Watcher;
