//! What a bot knows of the channels that it is on, and the events of a message.
//!
//! A [`ChanState`] begins with the nick under which the bot connects. [`ChanState::apply`] takes in each message. Then
//! callers can look up the channels that the bot is on, in the order in which it joined them, and for each channel its
//! topic and its members, in the order in which they came, with their marks and addresses. A message that lacks a
//! needed parameter changes nothing, and if memory runs out the state stays as it was.
//!
//! Nicks and names of channels compare by the casemapping that the server announces (RPL_ISUPPORT, numeric 005, its
//! token CASEMAPPING), and by RFC 1459 until it does. [`ChanState::casemapping`] returns it. Servers announce it before
//! the bot can join a channel. Once a JOIN has been read, another casemapping is ignored until the next welcome, which
//! sets it back to RFC 1459: two people who are held never become one by an announcement.
//!
//! The server also announces with which bytes the names of its channels begin (CHANTYPES). Until it does, these are
//! `&`, `#`, `+` and `!`. A JOIN of any other name says nothing. As with the casemapping, what it announces after a
//! JOIN is ignored until the next welcome, so that a channel that is held stays one. A sign that it announces by
//! STATUSMSG may stand before the name of a channel to which a text is sent, as in `@#a`: the text is for the members
//! with that status, and has the events of a text on the channel.
//!
//! A member may be logged in to an account of the network's services. The state learns the account from servers with
//! IRCv3 capabilities: from ACCOUNT (account-notify), from the second parameter of a JOIN if the server has acknowledged
//! the capability extended-join, and from reply 354 to `WHO #channel %tcuhna,152`. What a line says of a person's
//! account holds on every channel. [`ChanState::account_of`] returns it, and each event has the account of the person
//! behind it. Someone who joins or is listed has none until a line tells it. CHGHOST gives a new address on every
//! channel, and a list of names may have an address after each nick (userhost-in-names).
//!
//! Members are looked up by their nicks. A message costs a walk over the names of the held channels, and a look-up on
//! each channel that it concerns (for QUIT and NICK on every held channel). A look-up on a channel of few members walks
//! over its seats, at most 64. On a larger channel it uses an index of the nicks: there the cost doesn't grow with the
//! number of members, even when people leave and come back. Only making room for more members visits all seats of a
//! larger channel, and it then makes room for as many again.
//!
//! The server announces which modes have an argument, and which signs stand before a nick in a list of names
//! (numeric 005, its tokens PREFIX and CHANMODES). Until it does, RFC 2812 applies. The state keeps this
//! in tables of a fixed size, and a welcome resets them. Code that reads a mode string byte by byte asks [`modes`]
//! whether a byte is a single mode (`is_mode`), which argument it has (`argument`), and what is left for the bytes
//! after it (`next_sign`, `next_arguments`). At the start of the string modes are set, and all arguments are left.
//!
//! The server also announces how many modes with an argument one MODE line may set or clear (MODES). Until it does, the
//! limit is three (RFC 2812 section 3.2.3). [`Support::mode_limit`] returns it: at most 20, even if the server announces
//! more or says that it has no limit. A welcome sets it back to three.
//!
//! `apply` either takes in a message as a whole or leaves the state as it was. A caller that must allocate more for a
//! message calls the two halves of `apply`. [`ChanState::ready`] allocates all that the message needs, or fails. Then
//! [`StateUpdate::commit`] takes the message in and allocates nothing, or [`StateUpdate::cancel`] gives it up, because another
//! allocation failed.
//!
//! [`events`] returns what a message means to bound procs. Every message has a raw event. A message has others when a
//! person says something to the bot or on a channel that the bot is on, when someone joins, leaves or changes nick
//! there, and when someone is kicked or a mode or topic is set there. They are computed from the state before the
//! message.
//!
//! The state after some messages is specified twice. `apply` is one step of the table in `specs/Steps.antt`. The law
//! [`history_says`] states that these steps give exactly what one learns by looking back over the history, from its
//! newest line: the last line that concerns a question answers it (`specs/History.antt`).
//!
//! ```text
//! let mut state = ChanState::new(alloc, b"Egg")?;
//! state.apply(alloc, &message)?;                 // :Egg!e@h JOIN #a
//! state.members(alloc, b"#A")?.len()             // 1
//! state.is_op(b"#a", b"egg")                     // false; allocates nothing, nor do `member`, `is_on` and `is_voice`
//! events(alloc, &message, &state)?               // :a!b@c PRIVMSG egg :hi you gives raw, msgm and msg
//!
//! let update = state.ready(alloc, &message)?;    // allocates all that the message needs
//! if let Err(refused) = notes.reserve(1) {       // what else must be allocated
//!     update.cancel();                           // the state is as before
//!     return Err(refused.into());
//! }
//! update.commit(&message);                       // allocates nothing
//! ```
#![tactic(auto)]

mod accounts;
mod capabilities;
mod channel;
mod channel_command;
mod channels;
mod comings;
mod copies;
mod deed;
mod detail;
mod detail_parts;
mod event;
mod history;
mod joins;
mod leavings;
mod letters;
mod listings;
mod marks;
mod meaning;
mod member;
mod member_edit;
mod members;
mod message_parts;
mod message_plan;
pub mod modes;
mod names;
mod newcomers;
mod operations;
mod renames;
mod room;
mod roster;
mod seating;
mod seats;
mod speech;
mod state;
mod state_update;
mod support;
mod take;
mod task;
mod telling;
mod topics;
mod words;

pub use crate::event::{EventKind, IrcEvent};
pub use crate::history::history_says;
pub use crate::meaning::events;
pub use crate::member::{Mark, Member};
pub use crate::members::Members;
pub use crate::speech::is_for_programs;
pub use crate::state::ChanState;
pub use crate::state_update::{Made, StateUpdate};
pub use crate::support::Support;
