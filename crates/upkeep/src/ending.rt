// Why a bot's process ends, and with which exit status.
ghost use Rattle.std.specs.Prelude.{◌≡◌};
ghost use Rattle.upkeep.specs.Ending.{status_of};
ghost use Rattle.upkeep.specs.declared.ending.RunError.TheVariants.{NoMemory as no_memory};

use crate::account::AccountFault;
use crate::page_opening::PageFault;
use botfolder::{FolderError, FolderFault, FolderFile};
use bytetext::{Failure, NoMemory};
use handshake::{BookFault, SecretFault};
use net::DoorFault;
use procs::BindFault;
use serverlink::put;
use std::alloc::{AllocError, AllocFailed};
use std::error::Error;
use std::fmt::Display;
use std::io::ErrorKind;
use std::{fmt, io};

/// Why a bot's process does not run, or ends before an admin ends it. Each text follows its [`Subject`].
#[derive(Clone, Copy, Debug, PartialEq, Eq)]
pub enum RunError {
    /// The configuration has no line `server`.
    NoServer,
    /// The page of the line `page` cannot be served.
    Page(PageFault),
    /// The bind in this line has an unknown type.
    BindKind {
        /// The line's number, from 1.
        line: u64,
    },
    /// The bind in this line calls a proc that the program lacks.
    BindProc {
        /// The line's number, from 1.
        line: u64,
    },
    /// The table of binds rejects the bind in this line.
    Bind {
        /// The line's number, from 1.
        line: u64,
        /// The reason.
        fault: BindFault,
    },
    /// The configuration breaks a rule of bots.
    Config,
    /// The folder cannot be used for the bot.
    Folder(FolderFault),
    /// The file of the line `secret` cannot be read, or holds no secret that this bot can use.
    Secret(SecretFault),
    /// The file of the line `log file` cannot be opened.
    LogFile,
    /// The bot cannot log in to the account of the line `account`.
    Account(AccountFault),
    /// The folder holds a journal, but not the number of the bot's net.
    NoNet,
    /// The folder's file `made` does not hold a number.
    NoMade,
    /// The folder's file `doubt` does not hold a line of a hub.
    BadDoubt,
    /// The folder's book of leaves has a faulty line.
    Book(BookFault),
    /// The folder's file `parent` does not hold a line of a promotion.
    BadParent,
    /// The hub cannot listen at its address.
    Listen(DoorFault),
    /// The folder holds another bot's journal, or a damaged one.
    OtherJournal,
    /// The folder holds a journal of an older layout that cannot be rewritten, since its generations are used up.
    GenerationsSpent,
    /// The process cannot listen at the socket for admins.
    Control(DoorFault),
    /// A disk failed while the journal was being written. If a disk fails earlier, while the journal is created or
    /// opened, the error is the folder's fault `DiskFails`.
    DiskFailed {
        /// The number of the change that may count or not: one above the version.
        change: u64,
    },
    /// The system cannot wait for sockets or for standard output, read the time, or draw a number for a net or a folder.
    System,
    /// An allocation failed.
    NoMemory,
}

/// What stands before the text of a [`RunError`].
#[derive(Clone, Copy, Debug, PartialEq, Eq)]
pub enum Subject {
    /// The name of the configuration file, a colon and a space.
    File,
    /// The name of the bot's folder and a space.
    Folder,
    /// The name of the socket `control` in the folder and a space.
    Control,
    /// Nothing.
    Nothing,
}

impl RunError {
    /// Returns the exit status of a program that ends with this error:
    ///
    /// - 1 for a configuration, a file of its log that can't be opened, a file of its secret that holds none for this
    ///   bot or that this user may not read, the same of a password, another bot's journal, a journal without the number
    ///   of its net, or one that cannot be rewritten, and a faulty number of the folder or book of leaves;
    /// - 3 for what the system, a folder, a socket or a disk refuses, also while the secret or the password is read;
    /// - 4 if the program is out of memory.
    pub fn status(self) -> u8
        ensures { result ≡ status_of self }
    {
        match self {
            RunError::NoServer
            | RunError::Page(PageFault::Unreadable | PageFault::NotRegular | PageFault::Empty)
            | RunError::BindKind { line: _ }
            | RunError::BindProc { line: _ }
            | RunError::Bind { line: _, fault: _ }
            | RunError::Config
            | RunError::LogFile
            | RunError::Secret(
                SecretFault::Unreadable
                | SecretFault::NotRegular
                | SecretFault::Length
                | SecretFault::BadLeafKey
                | SecretFault::LeafKey
                | SecretFault::OtherLeaf,
            )
            | RunError::Account(
                AccountFault::Unreadable | AccountFault::NotRegular | AccountFault::Credentials(_),
            )
            | RunError::NoNet
            | RunError::NoMade
            | RunError::BadDoubt
            | RunError::BadParent
            | RunError::Book(_)
            | RunError::OtherJournal
            | RunError::GenerationsSpent => 1,
            RunError::Secret(
                SecretFault::ProcessFiles
                | SecretFault::MachineFiles
                | SecretFault::NoMemory
                | SecretFault::DiskFails,
            )
            | RunError::Account(AccountFault::System)
            | RunError::Page(PageFault::System | PageFault::Door(_))
            | RunError::Folder(_)
            | RunError::Listen(_)
            | RunError::Control(_)
            | RunError::DiskFailed { change: _ }
            | RunError::System => 3,
            RunError::NoMemory => 4,
        }
    }

    /// Returns what stands before the error's text.
    pub fn subject(self) -> Subject {
        match self {
            RunError::NoServer
            | RunError::Page(_)
            | RunError::BindKind { line: _ }
            | RunError::BindProc { line: _ }
            | RunError::Bind { line: _, fault: _ }
            | RunError::Config
            | RunError::LogFile
            | RunError::Secret(_)
            | RunError::Account(_)
            | RunError::Listen(_) => Subject::File,
            RunError::OtherJournal
            | RunError::GenerationsSpent
            | RunError::NoNet
            | RunError::NoMade
            | RunError::BadDoubt
            | RunError::BadParent
            | RunError::Book(_)
            | RunError::Folder(_)
            | RunError::DiskFailed { change: _ } => { Subject::Folder }
            RunError::Control(_) => Subject::Control,
            RunError::System | RunError::NoMemory => Subject::Nothing,
        }
    }
}

impl Display for RunError {
    fn fmt<W: fmt::Write>(&self, f: &mut fmt::Formatter<W>) -> fmt::Result {
        match *self {
            RunError::BindKind { line } => {
                put(f, "line ", &line)?;
                put(f, ": ", &KIND)
            }
            RunError::BindProc { line } => {
                put(f, "line ", &line)?;
                put(f, ": ", &PROC)
            }
            RunError::Bind { line, fault } => {
                put(f, "line ", &line)?;
                put(f, ": ", &fault.code())?;
                put(f, ": ", &fault)
            }
            RunError::Folder(fault) => fault.fmt(f),
            RunError::Control(fault) => f.write_str(of_control(fault)),
            RunError::Secret(fault) => put(f, "the file of the line secret ", &fault),
            RunError::Account(fault) => fault.fmt(f),
            RunError::Book(fault) => put(f, "holds a file leaves with a fault: ", &fault),
            RunError::Listen(fault) => put(f, "the address of the line listen ", &fault),
            RunError::Page(fault) => f.write_str(fault.advice()),
            RunError::DiskFailed { change } => {
                put(
                    f,
                    "lies on a disk that failed: free space or mend it, then run again; change ",
                    &change,
                )?;
                f.write_str(" may count or not")
            }
            RunError::NoServer
            | RunError::Config
            | RunError::LogFile
            | RunError::NoNet
            | RunError::NoMade
            | RunError::BadDoubt
            | RunError::BadParent
            | RunError::OtherJournal
            | RunError::GenerationsSpent
            | RunError::System
            | RunError::NoMemory => f.write_str(sentence(*self)),
        }
    }
}

impl Error for RunError {}

// The text for a socket for admins that cannot be made.
fn of_control(fault: DoorFault) -> &'static str {
    match fault {
        DoorFault::InUse => "is in use: end the program that listens there",
        DoorFault::Barred =>
            "can't be made: give the folder's user the right to write and enter it, as chmod 700 does",
        DoorFault::NotHere | DoorFault::Closed =>
            "can't be made: the system has no file or memory for it, so raise this process's limit of open files, and try again",
    }
}

// The advice for a bind of an unknown type.
pub(crate) const KIND: &str =
    "say a type of bind: raw, msg, msgm, notc, pub, pubm, join, part, sign, kick, nick, mode, topc, account, bot, time \
     or cron";

// The advice for a bind of a proc that the program lacks.
pub(crate) const PROC: &str = "say a proc that this program has";

// The text of an error without parts; empty for the others.
fn sentence(error: RunError) -> &'static str {
    match error {
        RunError::NoServer => "a bot needs a line: server HOST PORT",
        RunError::Config => "mend the lines bot, nick and channel: one is out of its range",
        RunError::LogFile =>
            "the file of the line log file can't be opened: make its folder, and give the bot's user the right to write there",
        RunError::OtherJournal =>
            "holds the journal of another bot, or one that is damaged: give the folder of this bot, or a copy of it; a leaf may also begin with an empty folder",
        RunError::GenerationsSpent =>
            "holds a journal of an older layout that can't be rewritten, since its generations are used up: run an older version of eggnet, or give a leaf an empty folder",
        RunError::NoNet =>
            "holds a journal and not the number of its net: bring back the file net, 16 digits and a line feed",
        RunError::NoMade =>
            "holds a file made that is no number: bring it back, 16 digits and a line feed, or remove it and have the hub renew this leaf",
        RunError::BadDoubt =>
            "holds a file doubt that no hub writes: bring it back, or remove it if this hub's journal is its newest",
        RunError::BadParent =>
            "holds a file parent that no promotion writes: bring it back, as promote made it",
        RunError::System =>
            "the system waits for no sockets, tells no time or draws no number: raise its limit of open files, and try again",
        RunError::NoMemory => "out of memory: free some and try again",
        RunError::BindKind { line: _ }
        | RunError::BindProc { line: _ }
        | RunError::Bind { line: _, fault: _ }
        | RunError::Folder(_)
        | RunError::Secret(_)
        | RunError::Account(_)
        | RunError::Page(_)
        | RunError::Book(_)
        | RunError::Listen(_)
        | RunError::Control(_)
        | RunError::DiskFailed { change: _ } => "",
    }
}

impl From<NoMemory> for RunError {
    ghost from_gives = { λ _ e. e ≡ no_memory };

    fn from(_refused: NoMemory) -> RunError {
        RunError::NoMemory
    }
}

impl From<AllocError> for RunError {
    ghost from_gives = { λ _ e. e ≡ no_memory };

    fn from(_refused: AllocError) -> RunError {
        RunError::NoMemory
    }
}

impl<T: Drop> From<AllocFailed<T>> for RunError {
    ghost from_gives = { λ _ e. e ≡ no_memory };

    fn from(_refused: AllocFailed<T>) -> RunError {
        RunError::NoMemory
    }
}

impl From<io::Error> for RunError {
    fn from(error: io::Error) -> RunError {
        match error.kind() {
            ErrorKind::OutOfMemory => RunError::NoMemory,
            _ => RunError::System,
        }
    }
}

/// Returns the error for a folder that cannot be used for the bot. A file `net` or `made` that is too short holds no number.
pub fn of_folder(error: FolderError) -> RunError {
    match error {
        Failure::Refused(FolderFault::ShortNumber(FolderFile::Net)) => RunError::NoNet,
        Failure::Refused(FolderFault::ShortNumber(FolderFile::Made)) => RunError::NoMade,
        Failure::Refused(fault) => RunError::Folder(fault),
        Failure::NoMemory => RunError::NoMemory,
    }
}
