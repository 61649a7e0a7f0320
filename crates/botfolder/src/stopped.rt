// The journal of a bot that does not run.
ghost use Rattle.std.specs.Prelude.{IfOk, OnOk};
ghost use Rattle.botfolder.specs.Folders.{AreCopies, AreUncut, AreUncutDisks};

use crate::bot_folder::is_there;
use crate::fault::{FolderError, FolderFault, system_error};
use crate::folder_file::{FolderFile, len_of, open_file, read_file};
use crate::owner::check_owner;
use crate::paths::{JOURNAL, below};
use botjournal::{are_cut_short, is_cut_short};
use bytetext::Failure;
use disks::{Disk as _, MemDisk, Pair};
use std::alloc::Global;
use std::fs::{File, OpenOptions, TryLockError};
use std::rt::Files;

/// Copies in memory of the two disks of a journal.
#[derive(Drop)]
pub struct Stopped {
    pub first: MemDisk,
    pub second: MemDisk,
}

/// Copies the journal in `folder`, of a bot that does not run. No file is created or written. The folder is locked only
/// while the bytes of its two files are read: a bot that starts at that moment tries again.
///
/// # Errors
/// `IsLink`, and `OtherUser` unless this process is root's; `NoBot` if no journal was made in the folder, or the folder
/// does not exist; `NotRegular`, and `LacksFile`; `InUse`
/// if a bot runs on it, which can be asked instead; `CutShort`, as [`is_cut_short`] tells it; and what the system gives,
/// as [`FolderFault`] describes them; `NoMemory` if an allocation fails.
pub fn read_stopped<R: AllocGlobal + Files<File = File>>(
    rt: &R,
    folder: &str,
) -> Result<Stopped, FolderError>
    ensures copies { IfOk result AreCopies }
    ensures uncut { IfOk result AreUncut }
{
    check_owner(rt, folder)?;
    if !is_there(rt, folder, JOURNAL)? {
        return Err(Failure::Refused(FolderFault::NoBot));
    }
    let first = found_file(rt, folder, FolderFile::First)?;
    let second = found_file(rt, folder, FolderFile::Second)?;
    // Allocated before the files are locked, which takes most of the time.
    let mut first_bytes = room_for(rt.alloc(), &first)?;
    let mut second_bytes = room_for(rt.alloc(), &second)?;
    lock(&first)?;
    lock(&second)?;
    read(&first, &mut first_bytes)?;
    read(&second, &mut second_bytes)?;
    // Both are closed, and so unlocked, before the copies are made.
    drop(first);
    drop(second);
    uncut_copies(rt.alloc(), first_bytes, second_bytes)
}

// Refuses the journal on these disks if their device cut it short.
pub(crate) fn keep_uncut(alloc: Global, disks: &Pair) -> Result<(), FolderError>
    ensures { OnOk result (AreUncutDisks disks.now) }
{
    let (Some(first), Some(second)) = (disks.first.held(), disks.second.held()) else {
        return Err(Failure::Refused(FolderFault::DiskFails));
    };
    if are_cut_short(alloc, first, second)? {
        return Err(Failure::Refused(FolderFault::CutShort));
    }
    Ok(())
}

// Makes disks that hold these bytes, and refuses those that a device cut short.
fn uncut_copies(alloc: Global, first: Vec<u8>, second: Vec<u8>) -> Result<Stopped, FolderError>
    ensures copies { IfOk result AreCopies }
    ensures uncut { IfOk result AreUncut }
{
    let mut first = MemDisk::holding(alloc, first)?;
    let mut second = MemDisk::holding(alloc, second)?;
    match is_cut_short(alloc, &mut first, &mut second) {
        Ok(true) => Err(Failure::Refused(FolderFault::CutShort)),
        Ok(false) => Ok(Stopped { first, second }),
        Err(Failure::Refused(_)) => Err(Failure::Refused(FolderFault::DiskFails)),
        Err(Failure::NoMemory) => Err(Failure::NoMemory),
    }
}

// Opens a file for reading.
pub(crate) fn found_file<R: AllocGlobal + Files<File = File>>(
    rt: &R,
    folder: &str,
    file: FolderFile,
) -> Result<File, FolderError> {
    let path = below(rt.alloc(), folder, file.name())?;
    let mut options = OpenOptions::new();
    options.read(true);
    match open_file(rt, path.as_str(), file, &options)? {
        Some(opened) => Ok(opened),
        None => Err(Failure::Refused(FolderFault::LacksFile)),
    }
}

// As many bytes as a file holds.
fn room_for(alloc: Global, file: &File) -> Result<Vec<u8>, FolderError> {
    let len = len_of(file)?;
    Ok(vec![in alloc; 0; len]?)
}

// Locks a file so that other readers can share it.
fn lock(file: &File) -> Result<(), FolderError> {
    match file.try_lock_shared() {
        Ok(()) => Ok(()),
        Err(TryLockError::WouldBlock) => Err(Failure::Refused(FolderFault::InUse)),
        Err(TryLockError::Error(error)) => Err(system_error(&error)),
    }
}

// Reads what a locked file holds, which may have changed its length before it was locked.
fn read(file: &File, bytes: &mut Vec<u8>) -> Result<(), FolderError> {
    bytes.resize(len_of(file)?, 0)?;
    read_file(file, bytes)
}
