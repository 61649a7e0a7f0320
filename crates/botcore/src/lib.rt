//! One bot: the events that it handles, the procs that they call, and what it does with the answers.
//!
//! A [`Config`] says who a bot is. [`Bot::create`] makes a bot over a new journal on two disks, [`Bot::open`] opens it
//! from its disks again, and [`Bot::step`] makes one step: it takes a [`BotEvent`] and returns a [`Report`]. A message
//! of the server, a text of another bot and a reading of the clock call procs of the store that the caller lends. No
//! other event calls procs.
//!
//! Procs see their bot as it was before the event: its userfile, its channels, and the second of its clock. Procs that
//! a reading calls see the second of that reading, from which their timers count.
//!
//! `specs/Steps.antt` states in full what a step may report and leave. `specs/Happenings.antt` defines what happens in
//! an event. Its calls are those of `procs`, each with a reply that keeps its proc's promise, and
//! `specs/Acting.antt` defines what their actions do. Lines for the server wait in queues: the lines that procs queue,
//! and the lines that the bot queues by itself (`specs/Automatic.antt`). A reading of the clock reports the lines that
//! may go. A step that runs out of memory leaves the bot as it was. A restart that runs out of memory leaves its end
//! of the link down.
//!
//! ```text
//! let mut bot = Bot::create(alloc, config, first, second)?;
//! let asked = NewBind { kind: BindKind::Msg, flags, mask, proc };
//! bot.step(alloc, &store, BotEvent::Bind(asked));            // Done, Bound(1)
//! let line = read_line(alloc, b":a!b@c PRIVMSG egg0 :hi dave")?;
//! let report = bot.step(alloc, &store, BotEvent::Line(line));
//! report.calls.as_slice()                                  // the calls that were made, each with its reply
//! ```
#![tactic(auto)]

mod acting;
mod automatic;
mod automatic_laws;
mod bot;
mod calls;
mod config;
mod event;
mod fault;
mod joining;
mod limits;
mod line;
mod making;
mod manner;
mod marks;
mod presence;
mod putting;
mod quiet;
mod reading;
mod report;
mod running;
mod server_lines;
mod sharing;
mod step;
mod sticky;
mod unheard;
mod user;
mod watched_command;
mod wish;

pub use crate::automatic_laws::{laws_of_answers, laws_of_automatic_lines};
pub use crate::bot::Bot;
pub use crate::config::Config;
pub use crate::event::{BotEvent, NewBind, OldBind};
pub use crate::fault::{ActionFault, BotError, BotFault, Refusal, StepFault};
pub use crate::limits::MAX_NICK;
pub use crate::making::UnopenedBot;
pub use crate::report::{End, Faults, Note, Report};
pub use crate::sharing::laws_of_sharing;
