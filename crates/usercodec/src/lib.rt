//! Changes and records of a userfile as bytes, one spelling for each.
//!
//! A spelling is the value's tag, one byte, and then the value's fields, one after the other. The format is our own.
//!
//! | field | bytes |
//! |---|---|
//! | a text (handle, mask, channel, comment, info text, person) | its length in one byte, and its bytes |
//! | flags | eight bytes, the most significant first: bits 0 to 25 are `a` to `z`, bits 26 to 51 are `A` to `Z` |
//! | a moment | eight bytes, the most significant first |
//! | a mark | a byte: 1 if it is set, else 0 |
//! | a casemapping | a byte: 0 for `ascii`, 1 for `strict-rfc1459`, 2 for `rfc1459` |
//! | a list | its count in one byte, and its items |
//!
//! | tag | change | fields |
//! |---|---|---|
//! | 1, 2 | adds, deletes a user | handle |
//! | 3, 4 | adds, deletes a hostmask | handle, mask |
//! | 5 | sets the flags that a user has everywhere | handle, flags |
//! | 6 | sets the flags on a channel | handle, channel, flags |
//! | 7 | sets the flags as a bot | handle, flags |
//! | 8 | adds a ban | channel (the empty text for all), mask, creator, moment of the end, comment |
//! | 9 | deletes a ban | channel, mask |
//! | 10 | sets a user's info text | handle, info text |
//! | 11 | makes a ban sticky, or no longer sticky | channel, mask, mark |
//! | 12 | one of these in a person's name | person (`nick!user@host` or `$a:NAME`), casemapping, and the change in nobody's name |
//!
//! | tag | record | fields |
//! |---|---|---|
//! | 3 | a user | handle, list of masks, flags everywhere, list of channels with their flags, bot flags, info text |
//! | 4 | a ban | those of a change that adds one, and a mark that says whether it is sticky |
//!
//! The layouts 2 and 3 had no changes in a person's name: [`read_nameless_change`] reads theirs, with the tags 1 to 11.
//! Layout 1 had neither info texts nor sticky bans. Its changes have only the tags 1 to 9, and its records the tags 1
//! and 2, which end before the info text and the mark. [`read_change_old`] and [`read_record_old`] read these.
//!
//! A read takes a value from the front of some bytes and returns how many bytes it used. It accepts only the one
//! spelling of a value that a userfile may hold, so writing the value again gives the same bytes. [`laws_of_changes`]
//! and [`laws_of_records`] say what follows for code that frames or stores values: no spelling begins another. Code
//! that puts values of its own around these reads its fields with a [`Reader`].
//!
//! ```text
//! let change = Change::by_nobody(Edit::AddUser { handle });
//! let bytes = write_change(alloc, &change)?;    // 01 05 a l i c e
//! let read = read_change(alloc, &bytes)?;       // the change, and 7 bytes used
//! read_change(alloc, &bytes[..4])               // X1: read the rest and try again
//! ```
#![tactic(auto)]

mod bans;
mod casemapping_byte;
mod change_fields;
mod changes;
mod decoded;
mod edit_fields;
mod edits;
mod fault;
mod fault_byte;
mod laws;
mod old;
mod reader;
mod record_lists;
mod records;
mod user_fields;
mod users;
mod writer;

pub use crate::bans::put_ban;
pub use crate::changes::{put_change, read_change, write_change};
pub use crate::decoded::Decoded;
pub use crate::fault::{CodecError, CodecFault};
pub use crate::fault_byte::{byte_of_fault, fault_of_byte};
pub use crate::laws::{
    laws_of_changes, laws_of_changes_old, laws_of_nameless_changes, laws_of_records,
    laws_of_records_old,
};
pub use crate::old::{read_change_old, read_nameless_change, read_record_old};
pub use crate::reader::Reader;
pub use crate::record_lists::put_records;
pub use crate::records::{Record, put_record, read_record, write_record};
pub use crate::users::put_user;
pub use crate::writer::{put_u16, put_u32};
