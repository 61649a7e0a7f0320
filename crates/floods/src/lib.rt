//! Who floods a bot is ignored, as by Eggdrop: the lines of an ignored person are dropped before the bot hears them.
//!
//! A [`Sieve`] stands between a connection to a server and a bot. It counts the lines of each `user@host` by their
//! [`FloodKind`]: PRIVMSG and NOTICE, JOIN, NICK, KICK, and MODE that takes op. A JOIN, KICK or MODE is counted for each
//! channel apart, so a person who joins six channels floods none. A person who sends more lines of one kind within a
//! window than its [`Limit`] allows is ignored for some time. Each PRIVMSG and NOTICE of that `user@host` is dropped until
//! the ignore ends, and so is such a line that passes a limit. Every other line passes, in order and byte for byte. A
//! person whom the caller [trusts](Trusts) is never ignored.
//!
//! ```text
//! let mut sieve = Sieve::new(alloc, Limits::eggdrop())?;
//! let sifted = sieve.sift(alloc, heard.as_slice(), now, &userfile)?;     // what the bot hears, and how many lines it does not
//! for ignore in sieve.last_ignores(sifted.begun) { .. }                   // who is ignored from now on, and why
//! for ignore in sieve.ignores() { .. }                                    // who is ignored, and until when
//! sieve.forgive(b"ann@host.example");                                     // true: that ignore is over
//! sieve.restart();                                                        // a new connection: its first line begins
//! ```
//!
//! `sifted` in `specs/Sifting.antt` defines what passes, as a function of what the sieve holds, the bytes, the time
//! and whom the caller trusts. The laws of [`laws`](ignores_end) say what that means.
#![tactic(auto)]

mod act;
mod command;
mod counts;
mod deed;
mod floods;
mod ignores;
mod key;
mod kind;
mod laws;
mod limits;
mod place;
mod sieve;
mod trusts;

pub use crate::ignores::Ignore;
pub use crate::key::FloodKey;
pub use crate::kind::FloodKind;
pub use crate::laws::{
    channels_count_apart, ignores_end, nothing_else_is_dropped, the_trusted_pass, without_limits,
};
pub use crate::limits::{Limit, Limits};
pub use crate::place::FloodPlace;
pub use crate::sieve::{Sieve, Sifted};
pub use crate::trusts::Trusts;
