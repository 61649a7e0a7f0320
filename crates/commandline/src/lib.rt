//! The command line of `eggnet`: its words, what each asks for, and how an answer is shown.
//!
//! [`task_of`] reads the words into a [`ProgramTask`], and [`refused`] prints what clap says of words that it rejects, its help,
//! or the version ([`version_of`]). [`escaped`] keeps control bytes of an answer from a terminal.
//!
//! ```text
//! let version = version_of(alloc)?;
//! match task_of(alloc, words.as_slice(), version.as_str()) {
//!     Ok(task) => ..                        // do it
//!     Err(error) => refused(&rt, &error),   // the exit status
//! }
//! ```
#![tactic(auto)]

mod escaping;
mod words;

pub use crate::escaping::escaped;
pub use crate::words::{ProgramTask, refused, task_of, version_of};
