// Files that are replaced whole.
use crate::fault::{FolderError, FolderFault, sync_error, system_error};
use crate::folder_file::{FolderFile, open_file};
use crate::folders::sync_folder;
use crate::paths::below;
use bytetext::Failure;
use std::fs::{File, OpenOptions};
use std::io::{ErrorKind, Write as _};
use std::os::unix::fs::OpenOptionsExt as _;
use std::rt::Files;
use std::{fs, io};

// A file that is written under a second name, synced, and then renamed. So a crash leaves what it held before, or what
// was written, and no mixture of them.
#[derive(Clone, Copy)]
pub(crate) struct WholeFile {
    file: FolderFile,
    new: FolderFile,
}

pub(crate) const NET: WholeFile = WholeFile {
    file: FolderFile::Net,
    new: FolderFile::NewNet,
};

pub(crate) const MADE: WholeFile = WholeFile {
    file: FolderFile::Made,
    new: FolderFile::NewMade,
};

pub(crate) const LEAVES: WholeFile = WholeFile {
    file: FolderFile::Leaves,
    new: FolderFile::NewLeaves,
};

pub(crate) const DOUBT: WholeFile = WholeFile {
    file: FolderFile::Doubt,
    new: FolderFile::NewDoubt,
};

pub(crate) const PARENT: WholeFile = WholeFile {
    file: FolderFile::Parent,
    new: FolderFile::NewParent,
};

// Replaces what this file of a folder holds by `bytes`, and syncs them and the file's name to the device.
pub(crate) fn replace_file<R: AllocGlobal + Files<File = File>>(
    rt: &R,
    folder: &str,
    whole: WholeFile,
    bytes: &[u8],
) -> Result<(), FolderError> {
    let new = below(rt.alloc(), folder, whole.new.name())?;
    let path = below(rt.alloc(), folder, whole.file.name())?;
    write_file(rt, new.as_str(), whole.new, bytes)?;
    match fs::rename(rt, new.as_str(), path.as_str()) {
        Ok(()) => sync_folder(rt, folder),
        Err(error) => match error.kind() {
            ErrorKind::IsADirectory => {
                Err(Failure::Refused(FolderFault::NotRegular(whole.file)))
            }
            _ => Err(system_error(&error)),
        },
    }
}

// Writes `bytes` to `file`, whose path is `path`, for its owner alone, and syncs them to their device.
fn write_file<R: Files<File = File>>(
    rt: &R,
    path: &str,
    file: FolderFile,
    bytes: &[u8],
) -> Result<(), FolderError> {
    let mut options = OpenOptions::new();
    options.write(true).create(true).truncate(true).mode(0o600);
    let Some(opened) = open_file(rt, path, file, &options)? else {
        // Somebody has just removed the folder.
        return Err(Failure::Refused(FolderFault::NoParent));
    };
    match write_and_sync(opened, bytes) {
        Ok(()) => Ok(()),
        Err(error) => Err(sync_error(&error)),
    }
}

fn write_and_sync(file: File, bytes: &[u8]) -> io::Result<()> {
    let mut file = file;
    file.write_all(bytes)?;
    file.sync_all()
}
