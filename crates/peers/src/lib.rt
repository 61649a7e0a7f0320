//! The connections between the bots of a net: the hub's to its leaves, and a leaf's to its hub.
//!
//! A hub listens, and each leaf connects to it. First both show that they know the leaf's key, and say how far they have
//! come. Then packets go both ways as frames, and the frames in sealed records: somebody between the bots can delay them,
//! cut them and read them, and nothing else.
//!
//! - [`HubLinks`] has a seat for each leaf. A second connection of the same folder takes the seat of the first. A leaf
//!   speaks for itself alone: a packet that names another ends its connection ([`is_said_by`]).
//! - A [`HubConnection`] reconnects whenever its connection is lost, and knows when the leaf is to say hello
//!   ([`Pumps`]).
//! - [`Links`] is either of them, or neither if a bot is alone, and [`Mail`] has them with an account of what they were
//!   told.
//! - [`Dice`] roll the nonces of the handshakes. Contracts see which nonces they rolled: each handshake that begins in
//!   [`Links::connect`] says one that was rolled for it, and no two say the same one.
//! - A [`FrameReader`] reads the frames of a connection from its first byte on, in pieces of any size, and [`frame_of`]
//!   returns the frame of a packet. Each packet that the reader returns was read from a frame, so its records are of
//!   good shape, which a bot's step requires.
//! - An [`Inbox`] holds the packets of many streams until a turn takes them. It bounds how many a turn takes, and goes
//!   round from stream to stream.
//!
//! ```text
//! links.wake(watch.tokens(), steady);            // each turn, at the monotonic clock's second steady
//! links.connect(rt, &mut Dice::new(), log, registry, settings, now)?;
//! if links.wants_own() {
//!     links.tell_own(own);                       // the version and the sum of the bot's records, and what it holds
//! }
//! links.read(rt, log, now)?;
//! let lines = links.to_enter(alloc)?;            // at a hub: append them to the book on the disk, if there are any
//! links.entered(rt, log, now)?;
//! let packets = links.take_packets(alloc)?;      // for take_turn
//! mail.tell(alloc, &outgoing, now)?;             // each of the turn's packets; one whose peer is not linked is lost
//! links.send()?;
//! links.let_go(log, now);
//! ```
//!
//! A lost packet does no harm: after a leaf's next hello the hub sends what it lacks. No contract can state what a
//! socket gives and takes.
//!
//! | Peer | Limit on what is read | Limit on what waits | Beyond the limit |
//! |---|---|---|---|
//! | a guest, which is not welcomed yet | 200 bytes, 10 seconds, 1,024 guests at once, 16 of one address | | disconnected, the oldest first |
//! | a linked leaf | 4,096 bytes a turn if its queue is empty | 4 MiB | not read above 64 KiB, then disconnected |
//! | all linked leaves | | 16 MiB | none is read |
//!
//! A bot sends a beat when it has sealed no record for 10 seconds: the version and the sum of its records, and which
//! parts of a snapshot it holds. A link ends if no record comes for 35 seconds, and a leaf is disconnected if it takes no
//! byte for 35 seconds although some wait for it.
//!
//! Of the hellos that one piece brings, a hub hands on the last alone, since each is answered by all that the leaf
//! lacks. It does not send a part of a snapshot that the leaf says it holds.
//!
//! A hub hands on no request that the leaf may not make ([`LeafRights`](handshake::LeafRights)). Nor does it hand on a
//! request before the leaf has said a hello of the layout of the hub's journal on the same connection, or after one of
//! another layout.
//!
//! A leaf that is ahead of the hub, or has other records at the same version, shows that the hub may be an older copy of
//! itself. The hub is then in doubt ([`Links::doubt`]): until an operator decides, it takes no request.
//!
//! Before the first record both go through the [`handshake`], by [`HubSide`](handshake::HubSide) and
//! [`LeafSide`](handshake::LeafSide). A hub whose net is the heir of another one tells a leaf of that net so: it is to move
//! ([`Links::is_to_move`]). It then begins as a new leaf of the heir, by the same number and key.
//!
//! In `specs/`, `Waiting` states in full which packets a turn takes, and `Speakers` which leaf sends a packet.
#![tactic(auto)]

mod account;
mod beat;
mod dice;
mod door;
mod doubt;
mod doubts;
mod entering;
mod entry;
mod frame_reader;
mod frame_writing;
mod gone;
mod guest;
mod guest_stage;
mod guests;
mod home;
mod hub_connection;
mod hub_link;
mod hub_links;
mod hub_net;
mod hub_turn;
mod inbox;
mod link_facts;
mod link_wire;
mod linked_leaf;
mod links;
mod listening;
mod mail;
mod meeting;
mod outbox;
mod picking;
mod pulse;
mod pumps;
mod queue;
mod seat;
mod seating;
mod speaker;
mod stations;
mod status;
mod status_json;
mod turn_time;
mod verdict;
mod welcome;

pub use crate::account::MailAccount;
pub use crate::dice::Dice;
pub use crate::door::MAX_OF_ADDRESS;
pub use crate::doubt::{Doubt, Doubted, doubt_in, doubt_line};
pub use crate::frame_reader::FrameReader;
pub use crate::frame_writing::frame_of;
pub use crate::hub_connection::{HubConnection, LONGEST_WAIT, LONGEST_WAIT_IN_TURN};
pub use crate::hub_links::{HubLinks, ListenFault, MAX_GUESTS};
pub use crate::inbox::Inbox;
pub use crate::link_facts::LinkFacts;
pub use crate::link_wire::MAX_UNSENT;
pub use crate::links::{FIRST_TOKEN, Links};
pub use crate::listening::ListenPlace;
pub use crate::mail::Mail;
pub use crate::pulse::{BEAT_EVERY, SILENCE};
pub use crate::pumps::{AGAIN, Pumps, REST};
pub use crate::queue::{MAX_OF_STREAM, MAX_PACKETS};
pub use crate::seating::MAX_WAITING;
pub use crate::speaker::is_said_by;
pub use crate::stations::{HubStation, LeafLimit, LeafStation};
pub use crate::status::put_status;
pub use crate::status_json::put_status_json;
