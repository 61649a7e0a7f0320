//! Plays cases of what the system gives: of disks in files, in the folder where it runs, and of sockets of this
//! machine. It prints what it sees of each.
//!
//! No contract can say what a file holds, so these cases look. Another opening of the file reads back what was written.
//! A disk whose reads have ended still writes, and refuses a read. A second disk finds the file in use. An opening
//! changes the time of the last writing. A disk whose descriptor was closed under it refuses a write and a sync, since
//! both go to the file. The program stops the making of a journal at each call of its disks, with five ways of tearing,
//! and prints what the next start does. For a bot's folder it prints what a start finds after one that was stopped at
//! each step of its making, beside one that runs, after one that ended, and where a gate of its journal is closed; and
//! what is found of the numbers and the lines that the folder keeps.
//!
//! No contract can say either what a socket gives and takes. The program prints that the bytes that one end sends come
//! out of the other in order; that a waiting caller is let in; that the watch names the token of a socket that has
//! something to say; and that a refusal shows as a fault of the stream, and an end as its end. These cases use
//! 127.0.0.1 and a path in the folder where the program runs, and no name server.
//!
//! The last cases make standard output a file and then a pipe. The program prints that a log waits while nobody reads
//! the pipe, and what it writes once somebody does.
//!
//! The crate's file `stdout` was worked out by hand. The program ends with status 0 if it could print all lines.
#![tactic(auto)]

mod bots;
mod connections;
mod cut_short;
mod descriptors;
mod doors;
mod folders;
mod heirs;
mod keeping;
mod logs;
mod meeting;
mod names;
mod paths;
mod seen;
mod stops;
mod texts;
mod writes;

use crate::bots::bot_folders;
use crate::connections::connections;
use crate::descriptors::{closed_under, low_descriptor};
use crate::doors::doors;
use crate::folders::whole_folder;
use crate::heirs::heir_folders;
use crate::logs::logs;
use crate::names::{lone_files, names, tidy};
use crate::paths::paths;
use crate::seen::Seen;
use crate::stops::stops;
use crate::writes::writes;
use std::fs::File;
use std::io;
use std::io::ErrorKind;
use std::net::Net;
use std::os::fd::{AsFd as _, AsRawFd as _, OwnedFd};
use std::random::RandomSource;
use std::rt::Files;
use std::time::Clock;

/// The layout of most journals that are made here, whose texts are read as they are.
const LAYOUT: u8 = 2;

fn main(rt: HostRuntime) -> anyhow::Result<()> {
    tidy(&rt);
    let mut seen = Seen::new(rt.alloc());
    play(&rt, &mut seen);
    tidy(&rt);
    play_sockets(&rt, &mut seen)?;
    // The cases of logs close standard output. It may be a pipe of another user, which can't be opened again by its name.
    let output = rt.stdout().as_fd().try_clone_to_owned()?;
    logs(&rt, &mut seen)?;
    let text = seen.into_bytes()?;
    print(&output, &text)?;
    Ok(())
}

// Writes all of a text. Each write takes a byte or more, so there are no more writes than bytes.
fn print(output: &OwnedFd, text: &[u8]) -> io::Result<()> {
    let mut rest = text;
    for _write in 0..text.len() {
        if rest.is_empty() {
            return Ok(());
        }
        match usize::try_from(libc::write(output.as_raw_fd(), rest)) {
            Ok(count) if 0 < count && count <= rest.len() => rest = &rest[count..],
            Ok(_) | Err(_) => return Err(io::Error::from(ErrorKind::WriteZero)),
        }
    }
    Ok(())
}

// Plays the cases of files.
fn play<R: AllocGlobal + Files<File = File> + Clock>(rt: &R, seen: &mut Seen) {
    names(rt, seen);
    lone_files(rt, seen);
    writes(rt, seen);
    closed_under(rt, seen);
    low_descriptor(rt, seen);
    whole_folder(rt, seen);
    tidy(rt);
    bot_folders(rt, seen);
    tidy(rt);
    heir_folders(rt, seen);
    stops(rt.alloc(), seen);
}

// Plays the cases of sockets.
fn play_sockets<R>(rt: &R, seen: &mut Seen) -> io::Result<()>
where
    R: AllocGlobal + Files<File = File> + Net + RandomSource,
{
    doors(rt, seen)?;
    connections(rt, seen)?;
    paths(rt, seen)
}
