// A copy of the bot's journal, and the log's file.
use crate::ending::RunError;
use administrators::LogEntry;
use botfolder::{BotFolder, FolderFault};
use bytetext::{Failure, Text};
use net::Log;
use settings::Settings;
use std::alloc::Global;
use std::fs::File;
use std::rt::Files;
use std::str;

/// Copies the bot's journal into the new folder `target`, and returns the answer. Between two steps both disks are at rest,
/// so the copy is the journal of `version`.
///
/// # Errors
/// `NoMemory` if an allocation fails.
pub fn backup<R: AllocGlobal + Files<File = File>>(
    rt: &R,
    folder: &BotFolder,
    version: u32,
    target: &Text,
) -> Result<Vec<u8>, RunError> {
    let alloc = rt.alloc();
    let Ok(path) = str::from_utf8(target.as_bytes()) else {
        return not_copied(alloc, "the folder", FolderFault::Unusable);
    };
    match folder.copy_journal(rt, path) {
        Ok(()) => Ok(format!(in alloc; "copied version {version}\n")?.into_bytes()),
        Err(Failure::Refused(fault)) => not_copied(alloc, path, fault),
        Err(Failure::NoMemory) => Err(RunError::NoMemory),
    }
}

fn not_copied(alloc: Global, path: &str, fault: FolderFault) -> Result<Vec<u8>, RunError> {
    Ok(format!(in alloc; "refused {path} {fault}\n")?.into_bytes())
}

/// Opens the log's file again, so that a file that was renamed stops growing. Returns the answer.
///
/// # Errors
/// `NoMemory` if an allocation fails.
pub fn reopen<R: AllocGlobal + Files<File = File> + Print>(
    rt: &R,
    log: &mut Log,
    settings: &Settings,
    now: u64,
) -> Result<Vec<u8>, RunError> {
    let answer: &[u8] = if settings.log_file.is_none() {
        b"refused no file: the log goes to standard output\n"
    } else if log.reopen(rt).is_ok() {
        log.note(now, &LogEntry::Reopened);
        b"done\n"
    } else {
        log.note(now, &LogEntry::NotReopened);
        b"refused not opened: the log goes on in the old file: make the file's folder, and give the bot's user the right to write there\n"
    };
    Ok(Vec::from_slice(rt.alloc(), answer)?)
}
