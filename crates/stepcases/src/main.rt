//! Plays cases of several steps, and prints what each step answers: a bot's journal on two disks, the ends of the
//! sharing link over disks that stop, and conversations with the small server. The disks are in memory.
//!
//! Each line of standard input is a step. The step `disks` begins a case of a journal, `leaves` one of a net of links,
//! and `server` a conversation. The steps after it are of the same kind, up to the next of these three.
//!
//! # A journal
//!
//! A step answers with a line, except those that only prepare something. Bytes are in hexadecimal, and `-` is no byte.
//!
//! | step | what it does, and its answer |
//! |---|---|
//! | `disks FIRST SECOND` | takes two disks that hold these bytes |
//! | `fail DISK CALL TEAR` | this write or sync of the `first` or `second` disk and all later ones fail until a crash |
//! | `misread DISK CALL` | the stated read of the disk fails |
//! | `create BASE` | makes a journal on the disks: `ok` or the code |
//! | `open` | opens the journal on the disks: the base and each entry, or the code |
//! | `restart` | opens the journal on what a crash leaves of its disks: as `open` |
//! | `append ENTRY`, `rebase BASE` | `ok` or the code; `older layout` if nothing may be appended |
//! | `spent` | whether all generations are used: `spent` or `left` |
//! | `layout` | the number of the journal's layout |
//! | `bytes` | what the first and the second disk hold |
//!
//! A step that takes disks crashes them if a journal uses them. Calls are counted from 1, from the step on. TEAR says
//! what the crash leaves in the ranges that weren't kept: `old` or `new` bytes, or this number in each byte. `a gate is
//! missing` follows an answer of `open` or `restart` after which nothing can be written. A base or an entry is printed
//! in the current layout, whatever layout it was read from.
//!
//! # A net of links
//!
//! B is a bot's number: 0 is the hub, and leaves count from 1.
//!
//! | step | what it does |
//! |---|---|
//! | `leaves N` | makes a new hub and N new leaves, and drops the earlier net |
//! | `ask B CHANGE` | asks bot B for a change, see below |
//! | `pump B`, `compact B`, `restart B` | as named |
//! | `deliver K` | packet K, counted from 1 in the order of sending, reaches its addressee |
//! | `give B FRAME` | bot B takes the packet that this frame spells, in hexadecimal, which nobody sent |
//! | `plan B DISK CALL TEAR` | the stated write or sync of disk 1 or 2 and all later ones fail, up to a restart |
//! | `planread B DISK` | the disk's next read fails, which is one of a restart |
//! | `hold B FIRST SECOND` | bot B gets two disks that hold these bytes, `-` for none |
//! | `stop B FIRST SECOND DISK CALL TEAR` | as `hold`, but the stated write or sync and all later ones fail |
//! | `again B` | opens the link again on what a crash leaves of bot B's disks |
//! | `show B` | prints the bot's version and records |
//! | `check` | tells whether the net was ever seen to break the promise below |
//!
//! CHANGE is `adduser H`, `deluser H`, `addhost H M`, `delhost H M`, `addban C M H E`, `delban C M`, `info H TEXT` or
//! `sticky C M N`; C is `*` for all channels.
//!
//! `plan`, `planread`, `hold`, `stop` and `again` take the bot's disks from it and open the link on them again. This is
//! in effect a restart: it prints `Restarted`, or why the link did not open. A bot whose link did not open answers
//! `B apart` until one of these steps opens it. Calls and TEAR are as for a journal.
//!
//! A step prints a line for each packet that it sends, then what came of it, as transcripts do. `show` prints a line
//! for each user, with the hostmasks, and for each ban. A line for the user's info or the sticky ban's mark follows it.
//!
//! `check` prints `same` if both of these hold, and else a line for each breach:
//! - no bot's version ever went back, except by `hold` and `stop`;
//! - any two bots at one version, then or at any earlier time, had the same records.
//!
//! # A conversation
//!
//! | step | what it does and prints |
//! |---|---|
//! | `server NAME` | begins a new server; prints the line |
//! | `connect` | a client connects; prints `connect N`, where N is its number, or `connect` and the code |
//! | `N TEXT` | the client of number N sends this line; prints the line, and then what goes out |
//! | `gone N` | the connection of the client of number N has ended; prints the line, and then what goes out |
//!
//! What goes out is in order, as `N> TEXT` for each line, where N is the number of the client that gets it, or the
//! code. Clients are numbered from 0 as they come to a server. A client that takes the place of one that is gone gets
//! its number.
//!
//! # All cases
//!
//! A line that begins with `#` is printed as it is, and an empty line is skipped. A line that is no step ends the
//! program, as `caselines` says.
//!
//! The crate's files `stdin` and `stdout` hold the cases. Independent models, `trials/journals/model.py` and
//! `trials/links/model.py`, worked out the answers of journals and links from the formats that docs/FORMATS.md states,
//! and `trials/links/scripts.py` wrote the cases of links. The answers of the conversations were worked out by hand
//! from the rules that `miniircd` states.
#![tactic(auto)]

mod calls;
mod journal;
mod journal_disks;
mod journal_steps;
mod link_disks;
mod link_steps;
mod net;
mod place;
mod print;
mod seen;
mod state;
mod talk;
mod words;

use crate::state::State;
use caselines::play_input;
use std::process::ExitCode;

fn main(rt: HostRuntime) -> ExitCode {
    let mut state = State::new(rt.alloc());
    play_input(&rt, "stepcases", &mut state)
}
