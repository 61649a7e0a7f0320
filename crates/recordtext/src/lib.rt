//! Records and changes as text: the lines that show a bot's records, and the words that spell a change.
//!
//! - [`put_records`] adds a bot's version and records as a transcript has them. A caller that prints other lines beside
//!   these uses the same functions: [`put`] adds bytes, [`put_number`] a number, and [`put_counted`] a word with a
//!   number.
//! - [`pieces_of`], [`first_word`] and [`rest_of`] cut a line into words; [`number`] and [`bot_number`] read a number.
//! - [`change_of`] reads a change from the words of a line, and [`change_named`] one whose name was read already.
//!   [`edit_named`] reads an edit alone, and [`mapping_of`] the name of a casemapping.
//!
//! ```text
//! let change = change_of(alloc, b"adduser alice")?;              // Some(Change { by: None, edit: Edit::AddUser { .. } })
//! let words = pieces_of(alloc, b"chan alice #egg o", b' ')?;     // four words
//! number(b"007")                                                 // Some(7)
//! put_records(alloc, &mut text, 0, Some(2), Some(&userfile))?;
//! // 0 version 2 users 1 bans 0
//! // 0 user alice o -
//! // 0 host alice *!alice@*.example
//! ```
//!
//! # Records
//!
//! [`put_records`] adds a line with the version and the counts of users and bans, then the lines of each user, and then
//! those of each ban, in order. A user's lines give the flags, the info if there is one, the hostmasks and the flags on
//! channels. A ban's lines give its fields, and say so if it is sticky. Each line begins with the bot's number. If no
//! such bot exists, the only line is `world O2`.
//!
//! # Words
//!
//! One space separates two words, so two spaces have an empty word between them. A number is one or more digits.
//!
//! A CHANGE is an EDIT, which is asked for in nobody's name, or `as PERSON EDIT`, or `as PERSON CASEMAPPING EDIT`:
//!
//! - PERSON is who asks for the edit, as `nick!user@host`.
//! - CASEMAPPING is `ascii`, `strict-rfc1459` or `rfc1459`: how the server of the bot that was asked compares names. Without
//!   it the change has `rfc1459`.
//!
//! An EDIT is `adduser H`, `deluser H`, `addhost H M`, `delhost H M`, `global H F`, `bot H F`, `chan H C F`, `addban C
//! M H E COMMENT`, `delban C M`, `info H TEXT` or `sticky C M N`:
//!
//! - F is letters, or `-` for no flags.
//! - A ban on all channels has the channel `*`. A ban that never ends has the expiry E 0.
//! - COMMENT and TEXT take the rest of the line, spaces and all. Each may be left out together with its space; `info`
//!   without a TEXT empties the info.
//! - N is 1 to make a ban sticky, and 0 to make it not sticky.
//!
//! These functions don't check the shape of persons, handles, masks, channels, comments and infos; that happens when the
//! change is requested.
#![tactic(auto)]

mod asking;
mod editing;
mod numeral;
mod pieces;
mod print;
mod records;
mod rest;
mod shows;

pub use crate::asking::{change_named, change_of, mapping_of};
pub use crate::editing::edit_named;
pub use crate::numeral::{bot_number, number};
pub use crate::pieces::{first_word, pieces_of};
pub use crate::print::{put, put_counted, put_number};
pub use crate::rest::rest_of;
pub use crate::shows::put_records;
