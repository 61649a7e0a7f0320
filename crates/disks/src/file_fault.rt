// Why a file can't be used as a disk.
use bytetext::Failure;
use std::io;
use std::io::ErrorKind;
use thiserror::Error;

/// Why a file can't be used as a disk.
#[derive(Clone, Copy, Debug, PartialEq, Eq, Error)]
pub enum FileFault {
    /// The file or folder of this name is missing, or one of the two files of a pair is.
    #[error("a file is missing: give the files that are there")]
    Missing,
    /// Another program, or another disk of this one, holds the file's lock.
    #[error("the file is in use: end the program that uses it")]
    InUse,
    /// The file or its folder couldn't be created, opened, locked or read.
    #[error("the file can't be read: give one that can be read and written")]
    Unreadable,
    /// The file's content or its name couldn't be synced to its device.
    #[error("the file can't be kept: free space, or mend its device, and try again")]
    NotKept,
}

/// Why a file can't be used as a disk, or that memory for its content ran out.
pub type FileDiskError = Failure<FileFault>;

/// Why a file or a folder can't be used, when the system refuses it.
pub(crate) fn error_of(error: io::Error) -> FileDiskError {
    match error.kind() {
        ErrorKind::OutOfMemory => Failure::NoMemory,
        ErrorKind::NotFound => Failure::Refused(FileFault::Missing),
        _ => Failure::Refused(FileFault::Unreadable),
    }
}

/// Why the content of a file or a folder can't be synced to its device.
pub(crate) fn not_kept(error: io::Error) -> FileDiskError {
    match error.kind() {
        ErrorKind::OutOfMemory => Failure::NoMemory,
        _ => Failure::Refused(FileFault::NotKept),
    }
}
