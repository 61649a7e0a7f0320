//! Sealed records: one end of a connection reads what the other end wrote, whole and in order, whatever an attacker
//! between them does to the bytes.
//!
//! After a handshake both ends know a [`Key`] for each direction, and send nothing but records. The attacker can delay
//! the stream, cut it off and read it. If they change, repeat, reorder, insert or remove bytes, the reader returns
//! nothing from the first record that isn't the one written there. Nothing is encrypted.
//!
//! ```text
//! record    length of the body (2 bytes, 1 to 16,384) | body | tag (16 bytes)
//! body      kind (1 byte: 1 frames, 2 a beat) | content
//! tag       the first 16 bytes of HMAC-SHA256(key, count (8 bytes) | body)
//! ```
//!
//! Numbers have their most significant byte first. The count of the first record of a direction is 0, and that of each
//! further record is one more. So a record is valid only at its place in its direction.
//!
//! - A [`Key`] is made from a secret. Its [`code`](Key::code) of a text shows in a handshake who knows the secret.
//! - A [`Sealer`] appends records to the bytes to be sent: [`seal`](Sealer::seal) one record, and
//!   [`seal_all`](Sealer::seal_all) as many records of frames as the frames need.
//! - An [`Opener`] takes what was read in pieces of any size, and returns the frames and the beats of the records that
//!   end in each piece. It checks a record before it hands on any byte of it, and keeps no more than one incomplete
//!   record.
//!
//! The frames of all records, one after the other, are the stream of frames. A frame may span several records, and a
//! record may hold several frames. A beat shows that its sender is alive; its content has [`BEAT_LEN`] bytes. An
//! `Opener` checks a record of any other kind too, and drops its content.
//!
//! ```text
//! let mut sealer = Sealer::new(Key::new(b"kkkkkkkkkkkkkkkkkkkk"));
//! sealer.seal_all(&mut out, b"hello")?;                  // out: 0006 01 68656c6c6f and 16 bytes of tag
//!
//! let mut opener = Opener::new(alloc, Key::new(b"kkkkkkkkkkkkkkkkkkkk"));
//! opener.feed(alloc, &out[..20])?                        // no frames yet
//! opener.feed(alloc, &out[20..])?                        // the frames `hello`
//! opener.feed(alloc, &out)?                              // BadTag: the record of count 0 again, in the place of count 1
//! opener.feed(alloc, b"\x00")?                           // Failed
//! ```
//!
//! A reader acts on a length before it can check the tag. So a changed length can make it wait for bytes that never
//! come, and the caller must limit how long it waits for a record.
//!
//! In `specs/`, `Records` defines the records, `Streams` what a stream of records holds, and `Unforged` what
//! [`only_what_was_sealed_opens`] assumes of the attacker: they forge no tag.
#![tactic(auto)]

mod fault;
mod key;
mod kind;
mod laws;
mod limits;
mod opener;
mod record;
mod sealer;
mod tags;

pub use crate::fault::SealFault;
pub use crate::key::Key;
pub use crate::kind::Kind;
pub use crate::laws::{
    a_stream_opens_one_way, each_count_is_used_once, only_what_was_sealed_opens,
    what_is_sealed_opens,
};
pub use crate::limits::{BEAT_LEN, MAX_BODY, MAX_CONTENT, OVERHEAD, TAG};
pub use crate::opener::{OpenedPiece, Opener};
pub use crate::sealer::Sealer;
