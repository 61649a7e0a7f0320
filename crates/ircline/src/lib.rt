//! IRC lines: a stream of bytes to messages, and messages to lines (RFC 2812 sections 2.3 and 2.3.1).
//!
//! A [`LineReader`] takes the pieces of a stream, cut anywhere, and returns each line once, in order, when its end has
//! arrived: a [`Message`], or the first [`LineFault`] that keeps it from being one. [`read_line`] reads one line, [`print`]
//! writes the canonical line of a message or reports that no line could carry it, [`source`] splits a prefix, and
//! [`numeric_of`] names the numbers that answer a registration.
//!
//! Beyond the RFC, CR alone and LF alone end a line, empty lines are skipped, there may be several spaces between words
//! and before the first, and a line of more than 510 bytes is dropped as a whole without being kept.
//!
//! ```text
//! let mut reader = LineReader::new(alloc);
//! reader.feed(alloc, b":ann!a@host PRIV")?;              // no line yet
//! reader.feed(alloc, b"MSG #egg :hi there\r")?;          // PRIVMSG, with the parameters #egg and "hi there"
//! reader.feed(alloc, b"\nQUIT")?;                        // the LF ends nothing more
//! reader.finish(alloc)?;                                 // QUIT
//! ```
//!
//! `line_of` in `specs/Reading.antt` defines what a line reads as; the law [`reading_is_the_grammar`] says that this is
//! the RFC's grammar, `specs/Grammar.antt`. `specs/Stream.antt` defines the lines of a stream, with the law
//! [`runs_are_the_longest`].
#![tactic(auto)]

mod classes;
mod fault;
mod laws;
mod line;
mod message;
mod numeric;
mod person;
mod pieces;
mod prefix;
mod printer;
mod read;
mod reader;
mod sources;
mod words;

pub use crate::fault::{LineFault, NotPrintable, PrintError};
pub use crate::laws::{reading_is_the_grammar, runs_are_the_longest};
pub use crate::line::Line;
pub use crate::message::Message;
pub use crate::numeric::{Numeric, numeric_of};
pub use crate::person::Person;
pub use crate::pieces::read_pieces;
pub use crate::prefix::source;
pub use crate::printer::print;
pub use crate::read::{first_end, read_line};
pub use crate::reader::LineReader;
pub use crate::sources::Source;
