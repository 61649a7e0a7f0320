//! Streams as this repository uses them: sources and sinks of bytes, with an account of each call and its answer.
//!
//! The contract of each [`Stream`] call says exactly what the call adds to what the stream has given and taken. A
//! caller can therefore prove that it asked, how often, what the stream answered, and that everything taken was
//! flushed. This holds for every stream, even for a socket, whose bytes no contract can know beforehand.
//!
//! [`Duplex`] makes a stream of any reader and any writer, and [`Memory`] makes one of bytes that are all in memory.
//! [`write_all`], [`write_out`] and [`read_up_to`] are the loops over them.
//!
//! ```text
//! let mut stream = Duplex::new(reader, writer);
//! let bytes = read_up_to(alloc, &mut stream, 4_096)?;     // to the end, or 4,096 bytes
//! write_out(&mut stream, bytes.as_slice())?;              // and flushed
//! ```
#![tactic(auto)]

mod account;
mod answers;
mod duplex;
mod memory;
mod obstacle;
mod reading;
mod stream;
mod writing;

pub use crate::account::Account;
pub use crate::answers::{ask, offer};
pub use crate::duplex::Duplex;
pub use crate::memory::Memory;
pub use crate::obstacle::{Obstacle, obstacle_of};
pub use crate::reading::{ReadError, read_up_to};
pub use crate::stream::{Given, Stream, Taken, WriteFault};
pub use crate::writing::{write_all, write_out};
