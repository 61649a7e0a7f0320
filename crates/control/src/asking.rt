// A command to a running bot.
use crate::admin_command::AdminCommand;
use crate::answer::body_of;
use crate::fault::{AskError, AskFault, command_error, folder_error, machine_error, socket_error};
use botfolder::{FolderFault, MAX_PATH, check_owner, control_of};
use bytetext::Failure;
use net::{Bounds, Connection, Registry, UnixSocket, Watch};
use std::io::ErrorKind;
use std::net::Net;
use std::rt::Files;
use std::time::{Clock, Duration};
use std::{io, thread};

/// How many seconds a bot may say nothing before [`ask`] gives up.
pub const PATIENCE: u64 = 60;

/// The most bytes of an answer: as many as a bot holds unsent for one admin.
pub const MAX_ANSWER: usize = 16_777_216;

// The longest single wait for the socket, in milliseconds.
const REST: u64 = 1_000;

// The connection's room: an answer and one byte more, so that a full connection has heard too much, and a command.
const BOUNDS: Bounds = Bounds {
    heard: MAX_ANSWER + 1,
    unsent: 1_024,
};

// The token of the only connection.
const TOKEN: usize = 0;

// A bot at whose socket too many wait is tried so often, with so many milliseconds between two tries: 5 seconds in all.
const TRIES: u32 = 250;

const PAUSE: u64 = 20;

/// Sends the command `line` to the bot that runs on `folder`, and returns the lines of its answer, without the full
/// stop after them. After `die` it returns only once the bot has disconnected, so a caller that waits for this call
/// waits for the bot's end.
///
/// # Errors
/// `Command` if `line` is no command; `Folder` for a name that is too long, for a symbolic link, and for a folder of another
/// user unless this process is root's; `Nobody`, `Barred`, `Busy`, `LetGo`,
/// `Silent`, `TooLong` and `Machine`, as [`AskFault`] describes them; `NoMemory` if an allocation fails. After `LetGo`,
/// `Silent`, `TooLong`, `Machine` or `NoMemory` the bot may have carried out the command.
pub fn ask<R: AllocGlobal + Net + Clock + Files>(
    rt: &R,
    folder: &str,
    line: &[u8],
) -> Result<Vec<u8>, AskError> {
    let is_last = match AdminCommand::read(rt.alloc(), line) {
        Ok(command) => is_die(&command),
        Err(error) => return Err(command_error(error)),
    };
    if folder.len() > MAX_PATH {
        return Err(Failure::Refused(AskFault::Folder(FolderFault::LongName)));
    }
    // Who listens in another folder is nobody's own bot.
    if let Err(error) = check_owner(rt, folder) {
        return Err(folder_error(error));
    }
    let path = control_of(rt.alloc(), folder)?;
    let mut watch = match Watch::new(rt, 4) {
        Ok(watch) => watch,
        Err(error) => return Err(machine_error(&error)),
    };
    let mut connection = match connect(rt, watch.registry(), path.as_str()) {
        Ok(socket) => Connection::new(rt.alloc(), socket, BOUNDS),
        Err(error) => return Err(socket_error(&error)),
    };
    let _fits = connection.tell(line, b"\n")?;
    hear(rt, &mut watch, &mut connection, is_last)?;
    match body_of(connection.heard.as_slice()) {
        Some(body) => Ok(Vec::from_slice(rt.alloc(), body)?),
        None => Err(Failure::Refused(AskFault::LetGo)),
    }
}

// Connects to the bot at `path`. While too many wait there, tries again for five seconds.
fn connect<R: Net + Clock>(rt: &R, registry: &Registry, path: &str) -> io::Result<UnixSocket> {
    for _try in 1..TRIES {
        match UnixSocket::connect_path(rt, registry, TOKEN, path) {
            Err(error) if error.kind() == ErrorKind::WouldBlock => {
                thread::sleep(rt, Duration::from_millis(PAUSE));
            }
            ended => return ended,
        }
    }
    UnixSocket::connect_path(rt, registry, TOKEN, path)
}

fn is_die(command: &AdminCommand) -> bool {
    match command {
        AdminCommand::Die(_) => true,
        AdminCommand::Change(_)
        | AdminCommand::Show
        | AdminCommand::ShowJson
        | AdminCommand::Changes(_)
        | AdminCommand::Status
        | AdminCommand::StatusJson
        | AdminCommand::Bind(_)
        | AdminCommand::Unbind(_)
        | AdminCommand::Say(_)
        | AdminCommand::Compact
        | AdminCommand::Jump
        | AdminCommand::Renew(_)
        | AdminCommand::Trust
        | AdminCommand::HandOver(_)
        | AdminCommand::Reload
        | AdminCommand::Reopen
        | AdminCommand::Backup(_)
        | AdminCommand::Join(_)
        | AdminCommand::Part(_)
        | AdminCommand::Unignore(_) => false,
    }
}

// Sends the command, and reads until the answer is whole and, after the last command, until the bot has disconnected.
fn hear<R: Clock>(
    rt: &R,
    watch: &mut Watch,
    connection: &mut Connection<UnixSocket>,
    is_last: bool,
) -> Result<(), AskError> {
    let mut moved_at = second(rt)?;
    for _ in 0..u64::MAX {
        let sent = connection.send();
        let heard = connection.read(1)?;
        if connection.is_over || (!is_last && body_of(connection.heard.as_slice()).is_some()) {
            return Ok(());
        }
        if connection.is_full() {
            return Err(Failure::Refused(AskFault::TooLong));
        }
        if sent || heard {
            moved_at = second(rt)?;
        } else if second(rt)?.saturating_sub(moved_at) >= PATIENCE {
            return Err(Failure::Refused(AskFault::Silent));
        } else if let Err(error) = watch.wait(REST) {
            return Err(machine_error(&error));
        } else {
            connection.wake();
        }
    }
    Err(Failure::Refused(AskFault::Silent))
}

// A second of the monotonic clock, which nobody sets.
fn second<R: Clock>(rt: &R) -> Result<u64, AskError> {
    match rt.monotonic() {
        Ok(passed) => Ok(passed.as_secs()),
        Err(error) => Err(machine_error(&error)),
    }
}
