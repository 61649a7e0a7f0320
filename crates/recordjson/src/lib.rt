//! A bot's version and records as one JSON object on one line.
//!
//! - [`json_of`] returns the line of a version and a [`Userfile`](userfile::Userfile).
//! - [`JsonLine`] is a line of JSON that is being written. A caller that writes other facts as JSON uses it too:
//!   [`put_words`](JsonLine::put_words) adds brackets, commas and names, [`put_text`](JsonLine::put_text) a string,
//!   [`put_number`](JsonLine::put_number) a number, [`put_truth`](JsonLine::put_truth) `true` or `false`, and
//!   [`put_comma`](JsonLine::put_comma) a comma before each member of a list but the first.
//!
//! ```text
//! let line = json_of(alloc, 0, 2, &userfile)?;
//! // {"bot":0,"version":2,"users":[{"handle":"alice","flags":"o","bot":"-","info":null,
//! // "masks":["*!alice@*.example"],"channels":[{"channel":"#egg","flags":"o"}]}],"bans":[]}
//! ```
//!
//! # Texts
//!
//! The texts of records are bytes, which need not be UTF-8. A string has one character for each byte, with the byte's
//! number: U+0000 to U+00FF. So the bytes read back exactly, as by `text.encode('latin-1')` in Python. Every byte but
//! a space to `~`, and also `"` and `\`, is spelled `\u00XX`. A line therefore has no byte but a space to `~`, whatever
//! the records hold, and then a line feed.
//!
//! Where the records have no channel, info, expiry or comment, the line has `null`. Flags are the letters that
//! [`recordtext`](../recordtext) prints, and `-` if there are none.
#![tactic(auto)]

mod bans;
mod line;
mod lists;
mod records;
mod users;

pub use crate::line::JsonLine;
pub use crate::records::json_of;
