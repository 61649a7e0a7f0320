//! Masks: texts with wildcards, for matching in binds and hostmasks.
//!
//! A mask is a list of items, and each item takes some texts:
//!
//! | in the mask | in a bind | in a hostmask |
//! |---|---|---|
//! | `?` | any one byte | any one byte |
//! | `*` | any bytes | any bytes |
//! | `%` | any bytes without a space | the byte `%` |
//! | `~` | one or more spaces | the byte `~` |
//! | `\` before one of `? * % ~ \` | that byte | that byte |
//! | any other byte, including any other `\` | that byte, in either case | that byte, in either case |
//!
//! A mask matches a text if the text can be cut so that each item takes its piece, in order. Cases are those of
//! RFC 2812 section 2.2 ([`Mask::matches`]), or those of a server's casemapping ([`Mask::matches_by`]); what matches by
//! a server's matches by RFC 2812 too. The wildcards are Eggdrop's (its Tcl commands document, "bind"); the escape is
//! this crate's own. [`Mask::bind`] and [`Mask::host`] make a [`Mask`], and reject a text that is not a mask.
//! [`bind_fault`] and [`host_fault`] return the reason without allocating. A hostmask is a mask of texts
//! `nick!user@host`, or `$a:NAME`: the account `NAME` of the IRC network, as some servers write it, which matches none
//! of those texts.
//!
//! ```text
//! let mask = Mask::host(alloc, b"*!bo?@*.net")?;
//! mask.matches(b"x!Bob@a.net")             // true
//! mask.literals()                          // 8: of two masks that match, the one with more decides
//! ```
//!
//! A match goes over the text once, so that no mask from a stranger takes long: [`Mask::matches_counted`] says how many
//! comparisons it takes at most. A caller with many masks need not try each of them: a mask that matches a text has a
//! [`Tail`] that the text ends with, and its [`Signature`] is within that of the text. For texts as long as a line of
//! talk there is a [`WideSignature`].
#![tactic(auto)]

mod checks;
mod codes;
mod counts;
mod faults;
mod items;
mod masks;
mod needs;
mod pattern;
mod places;
mod runs;
mod signatures;
mod tails;
mod walks;
mod wide_signatures;

pub use crate::checks::{bind_fault, host_fault};
pub use crate::counts::Count;
pub use crate::faults::{MaskError, MaskFault};
pub use crate::masks::Mask;
pub use crate::signatures::Signature;
pub use crate::tails::Tail;
pub use crate::wide_signatures::WideSignature;
