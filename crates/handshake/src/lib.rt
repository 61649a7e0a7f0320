//! What a hub and a leaf of a net say to each other before their first packet, and what a hub knows of its leaves.
//!
//! - [`HubSide`] and [`LeafSide`] are the two sides of the handshake, and [`LinkKeys`] the keys that it gives them.
//! - A [`Secret`] is that of a whole net, or the key of one leaf.
//! - A [`Book`] is what a hub knows of its leaves: which folder is which leaf.
//! - [`Own`] is what a process knows of its own bot, and [`Progress`] what it says of that.
//!
//! No socket and no packet stands here: the caller passes what was read, and sends what is returned.
//!
//! # The handshake
//!
//! The hub and a leaf exchange three lines before their first record. The hub knows the net's secret, and the leaf its
//! own key, which is made of that secret ([`leaf_key`]). Each side draws a nonce, a new random text. A side that shows a
//! code of both nonces knows the leaf's key; an old code is worth nothing on a new connection.
//!
//! ```text
//! hub     eggnet 2 NONCE
//! leaf    leaf N COUNT NET MADE VERSION SUM LAST NONCE CODE
//! hub     hub NET VERSION SUM LAST MAY CODE       or     no WORD CODE
//! ```
//!
//! A line ends with a line feed, and has at most [`MAX_LINE`] bytes with it. Numbers are decimal, without leading zeros;
//! digits are hexadecimal, `0` to `9` and `a` to `f`.
//!
//! | Word | Meaning |
//! |---|---|
//! | N | the leaf's number, from 1 |
//! | COUNT | the leaf's number of leaves |
//! | NET | the number of the net, 16 digits, drawn when the hub is created; a leaf sends `-` until it keeps one |
//! | MADE | the number of the leaf's folder, 16 digits, drawn when the folder is created |
//! | VERSION, SUM | the version of the side's records, and their sum as 16 digits |
//! | LAST | of a leaf its last request, of the hub the last request of this leaf that it replied to, 0 if none |
//! | MAY | `asks`, `reads` or `persons`: what the leaf may do ([`LeafRights`]) |
//! | NONCE | 16 random bytes, as 32 digits |
//! | WORD | why the hub refuses the leaf ([`HandshakeRefusal`]): `heir`, `net`, `count`, `other`, `ahead`, `records` or `older` |
//! | CODE | the HMAC with SHA-256 (RFC 2104, FIPS 180-4) under the leaf's key, as 64 digits |
//!
//! The leaf's CODE is that of its line up to its NONCE, then a space and the hub's NONCE. The hub's is that of its line
//! up to its CODE, then a space, the leaf's NONCE, a space, and the hub's.
//!
//! The leaf's key is the HMAC of `eggnet leaf N` under the net's secret: its 32 bytes. The key of the records from the
//! hub to the leaf is the HMAC, under the leaf's key, of `hub to leaf`, a space, the leaf's CODE, a space and the hub's.
//! That of the other direction begins with `leaf to hub`. So both keys are new on each connection, and stand for all
//! that both sides said.
//!
//! ## Who may join
//!
//! [`HubSide::hear`] only finds out that a leaf knows its key. [`HubSide::judge`] then compares what both sides say of
//! themselves, and what the hub's [`Book`] says of the leaf's folder. A leaf is refused if another folder is that leaf,
//! if it is an older copy of itself, or if its records cannot come from this hub. The line of a refusal has a code, so
//! the leaf can believe it.
//!
//! A hub whose net is the heir of another one tells a leaf of that net so ([`HandshakeFault::is_heir`]): it is to move. It
//! then begins as a new leaf of the heir, by the same number and key.
//!
//! The caller passes [`HubSide`] and [`LeafSide`] all bytes that were read and not used. They return what to do: read
//! more, send a line, or disconnect with a [`HandshakeFault`]. The bytes after a side's last line are its first records,
//! which the caller reads. The caller also watches the time: [`is_late`] decides from two readings of the monotonic
//! clock whether to wait any longer. The handshake allocates nothing.
//!
//! The handshake encrypts nothing. Who knows a leaf's key can speak as that leaf, and as the hub to that leaf.
//!
//! ```text
//! let hub = HubSide { key: Key::new(secret), net, parent: None, leaves: 40, nonce: Nonce::draw(rt)? };
//! say(hub.greeting());
//! match hub.hear(&heard) {
//!     HubHears::More => {}
//!     HubHears::Asks { used, ask } => match hub.judge(&ask, book.place(ask.words.leaf, &ask.words.made), &own) {
//!         None => ..                            // say hub.welcome(&ask, &own, may); &heard[used..] is of the records
//!         Some(refusal) => ..                   // say hub.refuse(&ask, refusal), and disconnect
//!     },
//!     HubHears::Refused(fault) => ..            // log the fault, and disconnect
//! }
//! ```
#![tactic(auto)]

mod book;
mod book_laws;
mod book_line;
mod codes;
mod digits;
mod drawn_number;
mod fault;
mod hub_side;
mod keys;
mod late;
mod laws;
mod leaf_side;
mod line;
mod nonce;
mod own;
mod parent_line;
mod places;
mod progress;
mod reading;
mod refusal;
mod secret;
mod sides;
mod words;

pub use crate::book::{Book, BookFault, Place};
pub use crate::book_laws::laws_of_the_book;
pub use crate::book_line::{BookLine, FirstLine, bar_line, entry_line, first_line, free_line};
pub use crate::drawn_number::DrawnNumber;
pub use crate::fault::HandshakeFault;
pub use crate::hub_side::{HubHears, HubSide};
pub use crate::keys::{LinkKeys, leaf_key};
pub use crate::late::{TIME_LIMIT, is_late};
pub use crate::laws::{laws_of_texts, laws_of_the_handshake};
pub use crate::leaf_side::{LeafHears, LeafSide};
pub use crate::line::HandshakeLine;
pub use crate::nonce::Nonce;
pub use crate::own::{HeldParts, Own};
pub use crate::parent_line::parent_in;
pub use crate::places::empty_places;
pub use crate::progress::{LeafRights, Progress};
pub use crate::reading::Ask;
pub use crate::refusal::HandshakeRefusal;
pub use crate::secret::{Secret, SecretFault, key_of, leaf_file_line, secret_in, tunnel_key_line};
pub use crate::sides::{HubAnswer, LeafWords};

/// The most bytes of a line, with its line feed.
pub const MAX_LINE: usize = 200;
