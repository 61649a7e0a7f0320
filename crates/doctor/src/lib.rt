//! What goes wrong in a bot's first weeks, and what to change.
//!
//! [`examine`] looks at all that the configuration of a bot names, prints a line for each finding, and changes nothing.
//! It writes no file, and connects only to the servers and the hub of the configuration.
//!
//! ```text
//! examine(rt, "egg.conf", &settings)?    // 1: something is bad
//!
//! ok: configuration egg.conf reads well
//! bad: folder /var/lib/eggnet/egg lets others write there: take that right away, as chmod 700 does
//! note: folder /var/lib/eggnet/egg has a journal of layout 2, at version 7, of 812 bytes: the next start rewrites it ..
//! ok: the limit of open files is 1024, and this bot needs at most 64
//! bad: server irc.example.net 6667 can't be reached; the host has no address: look at its name
//! ```
//!
//! Each line begins with a [`Rank`], which is the kind of the finding's verdict. The status that [`examine`] returns is 1
//! exactly if a finding is bad ([`status_of`]).
//!
//! | Module | It looks at |
//! |---|---|
//! | `config` | whether the configuration holds passwords that others may read |
//! | `modes` | who may read a file, and who may read, write and enter a folder |
//! | `user` | who this process is, and where it may make a folder |
//! | `folder` | the bot's folder, or the folder above it if it is missing |
//! | `journal` | the journal of a bot that does not run |
//! | `files` | how many files this process may open |
//! | `secret` | the file of the net's secret or of a leaf's key, and that of the password of the account |
//! | `dialling` | whether somebody answers at an address, for at most five seconds each for the name and the connection |
//! | `door` | whether a hub can listen at its address |
//!
//! No contract can say what a system, a disk or a socket answers. So what is gathered is kept apart from what is judged:
//! the verdicts and the ranks are proved, by definitions of `specs/`.
#![tactic(auto)]

mod config;
mod dialling;
mod door;
mod examining;
mod fault;
mod files;
mod folder;
mod journal;
mod modes;
mod rank;
mod report;
mod secret;
mod subject;
mod user;
mod verdict;
mod words;

pub use crate::examining::examine;
pub use crate::fault::DoctorFault;
pub use crate::files::{OWN_FILES, files_needed};
pub use crate::journal::LARGE;
pub use crate::rank::{Rank, status_of};
