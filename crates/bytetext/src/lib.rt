//! Text as bytes, and the out-of-memory error that every crate of this repository uses.
//!
//! IRC text is bytes without a stated encoding (RFC 2812 section 2.3), so nothing here is a `str`.
//! Contracts see a [`Text`] as the list of its bytes, and a [`Texts`] as the list of those lists: a record
//! that holds them reads as plain data in a clause, and no capacity gets into an equation. Both are made from a
//! `Vec` and turn back into it without allocating.
//!
//! [`NoMemory`] is the one error of a failed allocation. `?` converts either of the allocator's errors into it.
//! [`MOMENTS_END`] bounds the seconds that clocks, queues and bans count. [`first_word`] and [`after_word`] cut a text
//! at its spaces.
//!
//! ```text
//! let name = Text::from_slice(alloc, b"egg0")?;
//! let twin = name.copy(alloc)?;
//! ```
#![tactic(auto)]

mod failure;
mod memory;
mod moment;
mod seq;
mod text;
mod words;

pub use crate::failure::{Failure, refuse};
pub use crate::memory::NoMemory;
pub use crate::moment::MOMENTS_END;
pub use crate::seq::{Seq, TryCopy, copies_of};
pub use crate::text::{Text, Texts, bytes_of};
pub use crate::words::{after_word, first_word};
