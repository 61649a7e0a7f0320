//! Replay of scripts: a botnet in memory does a script's commands, and a transcript says what came of each.
//!
//! [`transcript`] does all of this without a stream: it turns a script's bytes into the bytes of its transcript. The
//! transcript has a line for each call that a step makes, for each packet that it sends, for each fault, and for how it
//! ended, and the records that a `show` asks for. The caller passes the procs, and only their promise binds what they
//! answer. So if memory suffices, the text is that of a run of the network with exactly the script's steps. [`replay`]
//! reads the script from a stream and writes the transcript to it.
//!
//! ```text
//! let text = transcript(alloc, store, b"leaves 0\nshow 0\n")?;          // 0 version 0 users 0 bans 0
//! replay(alloc, store, &mut Duplex::new(reader, writer))?;             // the same, from a reader to a writer
//! ```
//!
//! A caller that runs scripts in another way can use the same functions:
//!
//! - [`script_bytes`] reads the bytes of a script.
//! - [`new_bots`] creates its bots, each with its journal on two [`SteadyDisk`]s, and [`new_world`] creates them in a
//!   world. [`zone_or_utc`] is the zone of their clocks, also if the script gives none.
//! - [`recordtext::put_records`] appends what a `show` prints, [`put_note`] what came of a step, and [`put_packet`]
//!   what a packet is.
//! - [`write_text`] writes a text to a stream.
#![tactic(auto)]

mod ends;
mod error;
mod input;
mod outcomes;
mod output;
mod packets;
mod replaying;
mod shows;
mod starting;
mod steady_disk;
mod transcripts;

pub use crate::ends::put_note;
pub use crate::error::ReplayError;
pub use crate::input::script_bytes;
pub use crate::output::write_text;
pub use crate::packets::put_packet;
pub use crate::replaying::replay;
pub use crate::starting::{new_bots, new_world, zone_or_utc};
pub use crate::steady_disk::SteadyDisk;
pub use crate::transcripts::transcript;
