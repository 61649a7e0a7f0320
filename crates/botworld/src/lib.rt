//! A whole botnet in memory: the hub, its leaves, the procs that their binds call, and every packet ever sent.
//!
//! A [`World`] makes any list of [`Step`]s: a bot handles an [`Event`](botcore::BotEvent), or a packet is delivered. A
//! packet may be delivered never, once or often, and in any order, which is all that a network can do. A bot's disks
//! may fail at any call. The record that was being written is then in the journal or not, as the next restart finds.
//! Each step has an [`Outcome`].
//!
//! [`World::run`] promises for every list of steps:
//!
//! - Two bots at the same version hold the same records: those that the hub's first accepted changes make, as many as
//!   the version says.
//! - No bot's version goes back, restarts included.
//! - Two bots equal in version, binds, `exclusive` and channels call the same procs in the same order for the same
//!   events, also at two different moments. A proc that looks at its bot sees its records, which are those of the
//!   version, and its channels. If no promised code depends on the channels, they need not be equal.
//!
//! These promises are stated of a history that no bot holds: every change that was accepted, every request and every
//! answer. A world stands for such a history by its bots' ends of the link and by the packets that were sent
//! (`specs/Network`). Each step leads to a history for which the world then stands.
//!
//! ```text
//! let hub = Bot::create(alloc, config(0), disk(), disk())?;      // each with `leaves: 1`
//! let leaf = Bot::create(alloc, config(1), disk(), disk())?;
//! let mut world = World::new(alloc, vec![in alloc; hub, leaf]?, store)?;
//! let ask = Step::At { bot: 0, event: BotEvent::Ask(change) };
//! let pump = Step::At { bot: 0, event: BotEvent::Pump };
//! let transcript = world.run(alloc, &[ask, pump, Step::Deliver { packet: 1 }]);
//! assert!(world.version(1) == world.version(0));
//! ```
#![tactic(auto)]

mod error;
mod outcome;
mod sent;
mod step;
mod world;

pub use crate::error::{RefusedWorld, WorldFault};
pub use crate::outcome::{Outcome, Outcomes, Transcript, WorldReport};
pub use crate::sent::Sent;
pub use crate::step::Step;
pub use crate::world::World;
