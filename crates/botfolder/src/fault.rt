// Why a folder can't be used.
ghost use Rattle.std.specs.Prelude.{◌≡◌, ◌≢◌};
ghost use Rattle.bytetext.specs.declared.failure.Failure.TheVariants.{Refused};
ghost use Rattle.botfolder.specs.declared.fault.FolderFault.TheVariants.{LongName};
ghost use Rattle.botfolder.specs.Causes.{cause_of};

use crate::folder_file::FolderFile;
use bytetext::Failure;
use disks::{FileDiskError, FileFault};
use std::io;
use std::io::ErrorKind;
use thiserror::Error;

/// Why a folder can't be a bot's. Each message continues the folder's name: `/var/lib/eggnet/egg1 is in use: ..`.
#[derive(Clone, Copy, Debug, PartialEq, Eq, Error)]
pub enum FolderFault {
    /// Its name is too long for a socket in it.
    #[error("has a name of more than 99 bytes: give it a shorter one")]
    LongName,
    /// The folder above it is missing.
    #[error("can't be made: make the folder above it first")]
    NoParent,
    /// It is not a folder, or a part of its path is not.
    #[error("is not a folder, or lies below something that is not: give the name of a folder")]
    NotAFolder,
    /// It is a symbolic link, which may lead to somebody else's folder.
    #[error("is a symbolic link: give the name of the folder to which it leads")]
    IsLink,
    /// It belongs to another user.
    #[error("belongs to another user: run this as the user whose folder it is, or give that user's folder to this one by chown")]
    OtherUser,
    /// It exists, and was to be made.
    #[error("exists already: give the name of a folder that does not exist")]
    Exists,
    /// Its mode lets others enter it.
    #[error("lets others in: take their right to enter it away, as chmod 700 does")]
    LetsOthersIn,
    /// Its mode does not let its owner read, write and enter it.
    #[error("bars its own user: give the right to read, write and enter it, as chmod 700 does")]
    BarsOwner,
    /// What has the name of a file is a folder, a FIFO, a socket or a device.
    #[error("holds {0}, which is not a regular file: remove it, and bring back the file if there was one")]
    NotRegular(FolderFile),
    /// Another program holds its lock, or that of a disk, for two seconds.
    #[error("is in use: end the bot that runs on it")]
    InUse,
    /// A file of its journal is missing.
    #[error("holds a journal that lacks a file: bring back journal/first and journal/second")]
    LacksFile,
    /// A device closed a gate of its journal, so that entries after it don't count.
    #[error("holds a journal that its device cut short, so that its last changes don't count: bring back the newest copy of it; a leaf may also begin with an empty folder")]
    CutShort,
    /// Its file `net` or `made` is shorter than a number.
    #[error("holds a file {0} that is too short: bring back the file {0}, 16 digits and a line feed")]
    ShortNumber(FolderFile),
    /// Its file `leaves` has more than 1,048,576 bytes, or would have.
    #[error("has no room in its file leaves: end its bot, and remove lines that a later line of the same leaf replaces")]
    LongBook,
    /// No journal was made in it.
    #[error("holds no bot: give the folder of one")]
    NoBot,
    /// The journal of its net was put aside before, and it holds one of that net again.
    #[error("holds a journal of its net, and another one that was put aside: move that one out of the folder")]
    AsideBefore,
    /// The system does not let this user create, open, read or remove it or something in it.
    #[error("can't be used: give a folder that this user may read and write")]
    Unusable,
    /// The process has as many files open as it may have.
    #[error("can't be opened: this process has too many open files, so raise its limit, as ulimit -n does")]
    ProcessFiles,
    /// The machine has as many files open as it can have.
    #[error("can't be opened: this machine has too many open files, so end other programs or raise fs.file-max")]
    MachineFiles,
    /// Its file system is mounted read-only.
    #[error("lies on a read-only file system: mount that for writing, or give another folder")]
    ReadOnly,
    /// Its file system has no room for more bytes or files, or this user's quota is used up.
    #[error("lies on a full file system: free space or inodes, or raise this user's quota, then run again")]
    Full,
    /// The device failed, or a file or a name could not be synced to it.
    #[error("lies on a disk that fails: free space or mend it, then run again")]
    DiskFails,
    /// The system gives another reason, which has this number.
    #[error("can't be used: look up the system's error {0}, as errno does, and mend its cause")]
    System(u32),
}

/// Why a folder can't be a bot's, or `NoMemory` if an allocation failed.
pub type FolderError = Failure<FolderFault>;

// What the fault of a disk in an open file means for the folder. Whoever opened the file knows that it exists and may
// be used, so what can't be read lies on a device that fails.
pub(crate) fn disk_error(error: FileDiskError) -> FolderError
    ensures { result ≢ Refused LongName }
{
    match error {
        Failure::NoMemory => Failure::NoMemory,
        Failure::Refused(FileFault::Missing) => Failure::Refused(FolderFault::LacksFile),
        Failure::Refused(FileFault::InUse) => Failure::Refused(FolderFault::InUse),
        Failure::Refused(FileFault::Unreadable | FileFault::NotKept) => {
            Failure::Refused(FolderFault::DiskFails)
        }
    }
}

// What an error of the system means for the folder.
pub(crate) fn system_error(error: &io::Error) -> FolderError
    ensures { result ≢ Refused LongName }
{
    match error.kind() {
        ErrorKind::OutOfMemory => Failure::NoMemory,
        _ => match error.raw_os_error() {
            Some(code) => Failure::Refused(fault_of(code.unsigned_abs())),
            // A path that holds a NUL.
            None => Failure::Refused(FolderFault::Unusable),
        },
    }
}

// What it means for the folder that a file or a name can't be written or synced.
pub(crate) fn sync_error(error: &io::Error) -> FolderError
    ensures { result ≢ Refused LongName }
{
    match error.kind() {
        ErrorKind::OutOfMemory => Failure::NoMemory,
        ErrorKind::StorageFull | ErrorKind::QuotaExceeded => Failure::Refused(FolderFault::Full),
        _ => Failure::Refused(FolderFault::DiskFails),
    }
}

// What the system's error of this number means for the folder. The numbers are Linux's.
fn fault_of(code: u32) -> FolderFault
    ensures cause { result ≡ cause_of code }
    ensures not_long { result ≢ LongName }
{
    match code {
        1 | 13 => FolderFault::Unusable,
        5 => FolderFault::DiskFails,
        20 => FolderFault::NotAFolder,
        23 => FolderFault::MachineFiles,
        24 => FolderFault::ProcessFiles,
        28 | 122 => FolderFault::Full,
        30 => FolderFault::ReadOnly,
        _ => FolderFault::System(code),
    }
}
