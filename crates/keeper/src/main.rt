//! Keeps the hub of a net without leaves in two files. It asks the hub for changes, and prints the number of each one
//! once the hub has accepted it.
//!
//! ```text
//! keeper [--old] FILE FILE [COUNT]
//! ```
//!
//! The files are the disks of the hub's journal. If both are missing, the program makes them. It also makes the hub if
//! a start that was to make it was stopped. With `--old` the hub must exist already, and the program makes nothing.
//! `held N` says that the hub is at version N: it had accepted N changes before. Then the program adds and removes the
//! user `egg` by turns, COUNT times, or for ever without COUNT, and prints the number of each change on a line. After
//! each 50 changes it rewrites the journal. `trials/kill` ends this program at random moments and looks whether a
//! change that it printed is missing.
//!
//! The program ends with one of these statuses, and standard error says why if it isn't 0:
//! - 0: all is done.
//! - 1: the files hold no such hub's journal, or a disk fails.
//! - 2: the words are others.
//! - 3: a file is missing, is in use, or can't be opened, read or brought to its device; or the command line can't be
//!   read, or standard output can't be written.
//! - 4: memory runs out.
#![tactic(auto)]

mod keeping;
mod stop;
mod words;

use crate::keeping::keep;
use crate::stop::Stop;
use crate::words::asked_of;
use std::fs::File;
use std::process::ExitCode;
use std::rt::{Env, Files};

fn main(rt: HostRuntime) -> ExitCode {
    match run(&rt) {
        Ok(()) => ExitCode::from(0),
        Err(stop) => {
            let _ = eprintln!(rt; "keeper: {stop}");
            ExitCode::from(stop.status())
        }
    }
}

// Does what the command line asks for.
fn run<R: AllocGlobal + Env + Files<File = File> + Print>(rt: &R) -> Result<(), Stop> {
    let asked = asked_of(rt)?;
    keep(rt, &asked)
}
