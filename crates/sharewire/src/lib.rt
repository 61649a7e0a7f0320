//! The sharing link as bytes: packets to frames, and a stream of bytes to packets.
//!
//! A frame is two bytes of length, a byte of kind and a body; the length is that of kind and body, 1 to 40,000. Numbers
//! have their most significant byte first, and changes and records are spelled as [`usercodec`]
//! spells them. The format is our own.
//!
//! | kind | packet | body |
//! |---|---|---|
//! | 1 | [`Packet::Hello`] of layout 1 | leaf (2 bytes), version (4) |
//! | 2 | [`Packet::Change`] | number (4), origin (2), request (4), change |
//! | 3 | [`Packet::Part`] | version (4), the part's number (1), how many parts (1), count (1, 0 to 8), records |
//! | 4 | [`Packet::Request`] | leaf (2), request (4), change |
//! | 5 | [`Packet::Accepted`] | leaf (2), request (4), number (4) |
//! | 6 | [`Packet::Refused`] | leaf (2), request (4), the number of the fault's letter U (1) |
//! | 7 | [`Packet::BotText`] | from (2), to (2), the text's length (2), the text |
//! | 8 | [`Packet::Hello`] of a later layout | layout (1, at least 2), leaf (2), version (4) |
//!
//! [`write_packet`] writes a packet's one frame. A [`WireReader`] takes the pieces of a stream, cut anywhere, and
//! returns each packet once, in order, as soon as its frame is whole. It keeps no more than one incomplete frame. The
//! first [`WireFault`] ends the stream: with the second byte of a frame if its length is bad, with the third if its
//! kind is, with the last if its body is. The reader returns the packets before it.
//!
//! ```text
//! let frame = write_packet(alloc, &Packet::Hello { layout: 4, leaf: 1, version: 2 })?;    // 0008 08 04 0001 00000002
//! let mut reader = WireReader::new(alloc);
//! reader.feed(alloc, &frame[..7])?;              // no packet yet
//! reader.feed(alloc, &frame[7..])?;              // the hello
//! reader.feed(alloc, b"\x00\x00")?;              // K3: a length of 0
//! ```
//!
//! `Tells` in `specs/Streams.antt` defines what a stream holds, by its frames alone; [`a_stream_tells_one_thing`]
//! states that this is unique. [`read_pieces`] goes all the way from pieces to packets.
#![tactic(auto)]

mod body;
mod fault;
mod feed;
mod frames;
mod front;
mod kind;
mod laws;
mod limits;
mod long_text;
mod packet;
mod part_records;
mod pieces;
mod reader;
mod texts;
mod writer;

pub use crate::fault::WireFault;
pub use crate::feed::Feed;
pub use crate::laws::{a_stream_tells_one_thing, frames_are_apart, written_is_told};
pub use crate::limits::{MAX_LENGTH, MAX_PART_RECORDS};
pub use crate::packet::Packet;
pub use crate::pieces::read_pieces;
pub use crate::reader::WireReader;
pub use crate::texts::{MAX_BOT_TEXT, is_bot_text};
pub use crate::writer::write_packet;
