//! The configuration file of a bot.
//!
//! Each line has one setting: a word, and the words that belong to it, with one space or more between. A last word that
//! the table shows in capitals takes the rest of the line, and keeps its spaces. Spaces before the first word are
//! skipped. Empty lines and lines that begin with `#` are ignored. Lines end with a line feed alone.
//!
//! | Line | Times | Meaning |
//! |---|---|---|
//! | `data FOLDER` | once | the bot's own folder |
//! | `nick` nick | once | the nick under which it connects |
//! | `server` host port PASS | once or more | a server to try, in turn; the PASS may be left out |
//! | `bot` number `of` leaves | once or not at all | which bot it is; 0 is the hub; by default `bot 0 of 0` |
//! | `hub` host port | a leaf: 1 to 8, each once | a hub to try, in turn |
//! | `listen` address port | a hub with leaves: once | where it listens, such as `0.0.0.0 7100` |
//! | `leaf` number `reads` | a hub: any, each leaf once | this leaf may only read |
//! | `leaf` number `persons` | a hub: any, each leaf once | this leaf may ask for no change in nobody's name |
//! | `secret FILE` | once if there are leaves | the file of the secret that both ends of the link know |
//! | `channel` name key | any | a channel to join, in order; the key may be left out |
//! | `bind` type flags proc MASK | any | a bind, in order |
//! | `perform LINE` | any | a line of 1 to 510 bytes for the server, once after each registration |
//! | `account` name FILE | once or not at all | the account that it authenticates as, and the file of the password |
//! | `zone` rule | once or not at all | its clock, by a rule of POSIX; UTC without such a line |
//! | `exclusive` | once or not at all | `msg` and `pub` binds ignore a text that a `msgm` or `pubm` proc got |
//! | `log lines` | once or not at all | each line from and to the server is logged |
//! | `log json` | once or not at all | each line of the log is a JSON object |
//! | `log file PATH` | once or not at all | the log is appended to this file, instead of standard output |
//! | `flood-msg` lines`:`seconds | once or not at all | how many lines a person may send to the bot; by default `5:60` |
//! | `flood-ctcp` lines`:`seconds | once or not at all | how many CTCPs; by default `3:60` |
//! | `flood-chan` lines`:`seconds | once or not at all | how many lines to channels; by default `15:60` |
//! | `flood-join` lines`:`seconds | once or not at all | how many JOINs of one channel; by default `5:60` |
//! | `flood-nick` lines`:`seconds | once or not at all | how many NICKs; by default `5:60` |
//! | `flood-kick` lines`:`seconds | once or not at all | how many KICKs from one channel; by default `3:10` |
//! | `flood-deop` lines`:`seconds | once or not at all | from how many members of one channel he may take op; by default `3:10` |
//! | `ignore-time` minutes | once or not at all | how long who sends more is ignored; by default 10 |
//! | `page` address port FILE | once or not at all | where a page that shows the bot is served, and the file of its password |
//!
//! A plus before the port of a `server`, a `hub` or a `listen`, as in `server irc.example.net +6697`, says that the
//! connection is encrypted by TLS ([`Address::tls`]). It then goes through a tunnel on this machine, whose socket is
//! `FOLDER/tls/HOST_PORT`. So such a host has only letters, digits, `.`, `-`, `_` and `:`, and together with the folder
//! at most [`MAX_TUNNEL`] bytes.
//!
//! `flood-msg 0:0` switches that limit off, and so does 0 for either number; the same holds for the others.
//!
//! A `page` may lack its FILE if other machines can't reach the address ([`is_loopback`]).
//!
//! [`Settings::read`] returns what a file says, or its first faulty line with what to say instead, or what it lacks. It
//! opens nothing. The table of binds checks a bind's type, flags and mask. A [`BindLine`] has its line's number, so
//! that the maker of the table can name the line.
//!
//! ```text
//! let settings = Settings::read(alloc, b"data /var/lib/egg\nnick egg\nserver 127.0.0.1 6667\nchannel #egg\n")?;
//! Settings::read(alloc, b"data /var/lib/egg\nbot 1 off 40\n")
//!     // line 2: say bot NUMBER of LEAVES, as in bot 1 of 40
//! ```
#![tactic(auto)]

mod address;
mod advice;
mod cutting;
mod draft;
mod fault;
mod flooding;
mod names;
mod net_saying;
mod numeral;
mod plus;
mod reading;
mod saying;
mod setting_word;
mod settings;
mod tunnels;

pub use crate::address::{is_address, is_loopback};
pub use crate::advice::SettingAdvice;
pub use crate::fault::{Lack, SettingsError, SettingsFault};
pub use crate::flooding::{FloodDraft, FloodSaying};
pub use crate::names::is_key;
pub use crate::numeral::value_of_digits;
pub use crate::setting_word::SettingWord;
pub use crate::settings::{
    Address, BindLine, BindLines, BindWords, ChannelSetting, ChannelSettings, Hubs, LeafLine,
    LeafLines, LeafRule, Login, PageSetting, Server, Servers, Settings, Station,
};

/// The most bytes that a file has.
pub const MAX_FILE: usize = 65_536;

/// The most lines `hub` of a leaf.
pub const MAX_HUBS: usize = 8;

/// The most leaves that a hub has.
pub const MAX_LEAVES: u16 = 1_000;

/// The most bytes of a channel's key.
pub const MAX_KEY: usize = 50;

/// The most bytes of a nick.
pub const MAX_NICK: usize = 30;

/// The most bytes that the folder and the host of a line with a plus before its port have together. The path of the
/// tunnel's socket, `FOLDER/tls/HOST_PORT`, then has at most the 107 bytes that the system takes.
pub const MAX_TUNNEL: usize = 96;

/// The most bytes of a line for the server, without its CR and LF (RFC 2812 section 2.3).
pub const MAX_LINE: usize = 510;
