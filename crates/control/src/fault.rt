// Why a bot did not answer, or has nothing to show.
use crate::advice::{CommandAdvice, CommandError};
use botfolder::{FolderError, FolderFault};
use bytejournal::JournalFault;
use bytetext::Failure;
use std::io;
use std::io::ErrorKind;
use thiserror::Error;

/// Why a bot did not answer, or has nothing to show. Each message but those of `Command` and `Nobody` continues the
/// folder's name: `/var/lib/eggnet/egg1 holds no bot: ..`.
#[derive(Clone, Copy, Debug, PartialEq, Eq, Error)]
pub enum AskFault {
    /// The command is not understood. No bot was asked.
    #[error("{0}")]
    Command(CommandAdvice),
    /// Nobody listens at the folder's socket, or the socket does not exist.
    #[error("no bot runs on")]
    Nobody,
    /// The folder is not one whose bot can be asked or shown.
    #[error("{0}")]
    Folder(FolderFault),
    /// What the folder holds is no journal of a bot.
    #[error("holds no journal that can be read: bring back its files, or give the folder of another bot")]
    Unread,
    /// The journal is of an older layout, and can't be read as one of today's because its generations are used up.
    #[error("holds a journal of an older layout whose generations are used up: show it by an older version of eggnet")]
    GenerationsSpent,
    /// A bot is taking the folder, and does not listen yet.
    #[error("is in use, and nobody listens there yet: try again")]
    Begins,
    /// The system does not let this program connect.
    #[error("may not be entered: run this as the user whose bot it is")]
    Barred,
    /// Too many programs wait for the bot already.
    #[error("has a bot with too many waiting administrators: try again")]
    Busy,
    /// The bot ended, or disconnected this program, before it had answered.
    #[error("has a bot that closed the connection before it answered: what it was told may count or not")]
    LetGo,
    /// The bot said nothing for a minute.
    #[error("has a bot that does not answer: what it was told may count or not")]
    Silent,
    /// The bot says more than an answer may have.
    #[error("has a bot that says more than an answer has: what it was told may count or not")]
    TooLong,
    /// The system has no socket, clock or file for the call.
    #[error("can't be asked: this machine has no more sockets or files, or the name is no path")]
    Machine,
}

/// Why a bot did not answer, or `NoMemory` if an allocation failed.
pub type AskError = Failure<AskFault>;

// The command is not understood, or memory runs out.
pub(crate) fn command_error(error: CommandError) -> AskError {
    match error {
        Failure::Refused(advice) => Failure::Refused(AskFault::Command(advice)),
        Failure::NoMemory => Failure::NoMemory,
    }
}

// The folder can't be read, or memory runs out.
pub(crate) fn folder_error(error: FolderError) -> AskError {
    match error {
        Failure::Refused(fault) => Failure::Refused(AskFault::Folder(fault)),
        Failure::NoMemory => Failure::NoMemory,
    }
}

// The disks hold no journal, or memory runs out.
pub(crate) fn journal_error(error: Failure<JournalFault>) -> AskError {
    match error {
        Failure::Refused(fault) => Failure::Refused(of_journal(fault)),
        Failure::NoMemory => Failure::NoMemory,
    }
}

// Why a journal can't be read.
fn of_journal(fault: JournalFault) -> AskFault {
    match fault {
        JournalFault::GenerationsSpent => AskFault::GenerationsSpent,
        JournalFault::DiskFault | JournalFault::NotAJournal | JournalFault::Spent => {
            AskFault::Unread
        }
    }
}

// Why nobody can be reached at a path.
pub(crate) fn socket_error(error: &io::Error) -> AskError {
    match error.kind() {
        ErrorKind::OutOfMemory => Failure::NoMemory,
        ErrorKind::NotFound | ErrorKind::ConnectionRefused => Failure::Refused(AskFault::Nobody),
        ErrorKind::PermissionDenied => Failure::Refused(AskFault::Barred),
        ErrorKind::WouldBlock => Failure::Refused(AskFault::Busy),
        _ => Failure::Refused(AskFault::Machine),
    }
}

// The machine can't do what a call needs, or memory runs out.
pub(crate) fn machine_error(error: &io::Error) -> AskError {
    match error.kind() {
        ErrorKind::OutOfMemory => Failure::NoMemory,
        _ => Failure::Refused(AskFault::Machine),
    }
}
