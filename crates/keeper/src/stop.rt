// Why the program ends early.
use botcore::{BotError, BotFault, Refusal};
use bytetext::{Failure, NoMemory};
use disks::{DiskFault, FileDiskError, FileFault};
use std::alloc::AllocError;
use std::io;
use std::io::ErrorKind;
use thiserror::Error;

/// Why the program ends early.
#[derive(Clone, Copy, Debug, Error)]
pub enum Stop {
    /// The hub could not be made, or was not found in the files.
    #[error("{0}")]
    Bot(BotFault),
    /// The hub refused a step.
    #[error("{0}")]
    Step(Refusal),
    /// The hub has users that this program did not give it.
    #[error("the hub in these files has other users: give other files")]
    OtherUsers,
    /// The command line is not understood.
    #[error("say keeper [--old] FILE FILE [COUNT]")]
    Words,
    /// A file can't be used as a disk.
    #[error("{0}")]
    File(FileFault),
    /// A disk failed before the hub existed.
    #[error("{0}")]
    Disk(DiskFault),
    /// The command line can't be read, or standard output can't be written.
    #[error("the command line can't be read, or standard output can't be written")]
    Stream,
    /// An allocation failed.
    #[error("out of memory: free some and try again")]
    NoMemory,
}

impl Stop {
    /// Returns the status that the program ends with.
    pub fn status(self) -> u8 {
        match self {
            Stop::Bot(_) | Stop::Step(_) | Stop::OtherUsers | Stop::Disk(_) => 1,
            Stop::Words => 2,
            Stop::File(_) | Stop::Stream => 3,
            Stop::NoMemory => 4,
        }
    }
}

impl From<BotError> for Stop {
    fn from(error: BotError) -> Stop {
        match error {
            Failure::Refused(fault) => Stop::Bot(fault),
            Failure::NoMemory => Stop::NoMemory,
        }
    }
}

impl From<FileDiskError> for Stop {
    fn from(error: FileDiskError) -> Stop {
        match error {
            FileDiskError::Refused(fault) => Stop::File(fault),
            FileDiskError::NoMemory => Stop::NoMemory,
        }
    }
}

impl From<DiskFault> for Stop {
    fn from(fault: DiskFault) -> Stop {
        Stop::Disk(fault)
    }
}

impl From<NoMemory> for Stop {
    fn from(_refused: NoMemory) -> Stop {
        Stop::NoMemory
    }
}

impl From<AllocError> for Stop {
    fn from(_refused: AllocError) -> Stop {
        Stop::NoMemory
    }
}

impl From<io::Error> for Stop {
    fn from(error: io::Error) -> Stop {
        match error.kind() {
            ErrorKind::OutOfMemory => Stop::NoMemory,
            _ => Stop::Stream,
        }
    }
}
