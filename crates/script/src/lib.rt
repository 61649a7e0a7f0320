//! Scripts: a text of commands for a botnet, read whole before the first command is done.
//!
//! A script has one command per line, and one space between words. Its first command is `leaves N`. The second may be
//! `zone RULE`, the zone of all bots' clocks (a POSIX rule of 1 to 100 bytes: [`Zone`](bottimers::Zone)). Then come
//! `ask B CHANGE`, `pump B`, `compact B`, `restart B`, `connect B`, `line B TEXT`, `clock B N`,
//! `bind B TYPE FLAGS PROC MASK`, `unbind B TYPE PROC MASK`, `deliver K` and `show B`, in any order. Empty lines and
//! lines that begin with `#` are no commands. [`Script::read`] returns the number of leaves, the zone and the commands,
//! or the first line that breaks a rule, with the [`Reason`].
//!
//! - A TEXT takes the rest of the line, spaces and all. The bot reads it as it would from a server: a carriage return
//!   in it ends a line, so a `line` has a step for each line that its text holds.
//! - `clock` makes the bot read its clock, which shows N, in seconds since 1970-01-01 UTC.
//! - A TYPE is the word of a kind of binds ([`BindKind`](procs::BindKind)): `raw`, `msg`, `msgm`, `notc`, `pub`,
//!   `pubm`, `join`, `part`, `sign`, `kick`, `nick`, `mode`, `topc`, `account`, `bot`, `time` or
//!   `cron`.
//! - A MASK takes the rest of the line.
//! - A CHANGE is one that `recordtext` reads, such as `adduser H` in nobody's name, or `as NICK!USER@HOST adduser H` or
//!   `as $a:NAME adduser H` in a person's.
//!
//! Reading a script doesn't check everything. The bot checks, when the command is done, whether N is a moment that its
//! clock can show, whether a bind exists, and whether flags and masks of binds have a good shape. Persons, handles,
//! masks, channels and comments are checked when the change is requested.
//!
//! ```text
//! let script = Script::read(alloc, b"leaves 1\nask 0 adduser alice\npump 0\n")?;
//! assert!(script.leaves == 1 && script.commands.len() == 2);
//! let change = change_of(alloc, b"adduser alice")?;      // as after `ask 0 `
//! ```
//!
//! [`line_reason`] returns why a line is wrong by itself, or `None` if it is right or says nothing. A [`Reason`] prints
//! as a sentence that names the word by its place and says what was expected there. If a wrong line ends in a carriage
//! return or begins with a byte order mark, the reason is that. A space or a tab too many is the reason if it spoils a
//! word or the number of words.
//!
//! ```text
//! line_reason(alloc, b"pump 0")?;        // None
//! line_reason(alloc, b"fly 1")?;         // word 1 is no command: say leaves, zone, ask, ..
//! line_reason(alloc, b"pump 0 ")?;       // the line ends in a space: ..
//! line_reason(alloc, b"pump x")?;        // word 2 is no number of a bot: ..
//! ```
//!
//! A reader of other scripts can use the same functions: [`pieces_of`] for the words of a line, [`number`] for a
//! number, [`rest_of`] for a last word that takes the rest of the line, and [`saying_of`] for what a line says.
#![tactic(auto)]

mod binding;
mod change_doubts;
mod change_word;
mod command;
mod doubts;
mod error;
mod lines;
mod reading;
mod reason;
mod saying;
mod spacing;
mod verb;
mod wrong_line;

pub use crate::change_word::ChangeWord;
pub use crate::command::{Command, Commands, Steps};
pub use crate::error::{ScriptError, ScriptFault};
pub use crate::reading::Script;
pub use crate::reason::Reason;
pub use crate::saying::{Saying, saying_of};
pub use crate::spacing::spacing_reason;
pub use crate::verb::Verb;
pub use crate::wrong_line::line_reason;
pub use recordtext::{change_of, number, pieces_of, rest_of};

/// The maximum size of a script in bytes.
pub const MAX_SCRIPT: usize = 1_048_576;
