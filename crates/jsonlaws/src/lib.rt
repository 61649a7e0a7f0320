//! What a reader of JSON makes of the lines that [`recordjson`] writes: laws, without code.
//!
//! Their clauses speak of [`json`]'s definition of a document (RFC 8259), which is not ours. [`laws_of_records`] says
//! that a line is one document, whose value is the object of the records. [`laws_of_strings`] says that the characters of
//! its strings have the numbers of the bytes that were written.
#![tactic(auto)]

mod records;
mod strings;

pub use crate::records::laws_of_records;
pub use crate::strings::laws_of_strings;
