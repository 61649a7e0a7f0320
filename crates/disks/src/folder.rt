// Folders that name files.
use crate::file_fault::{FileDiskError, FileFault, error_of, not_kept};
use bytetext::Failure;
use std::fs;
use std::fs::{DirBuilder, File, OpenOptions};
use std::io::ErrorKind;
use std::os::unix::fs::DirBuilderExt as _;
use std::path::Path;
use std::rt::Files;

/// Creates `folder`, for its owner alone (mode 700), if it doesn't exist yet, and syncs its name to its device.
///
/// # Errors
/// `Missing` if the folder above it is missing, `Unreadable` if it can't be created, `NotKept` if the device fails,
/// `NoMemory` if the system is out of memory.
pub fn make_folder<R: Files<File = File>>(rt: &R, folder: &str) -> Result<(), FileDiskError> {
    match DirBuilder::new().mode(0o700).create(rt, folder) {
        Ok(()) => {}
        Err(error) => match error.kind() {
            ErrorKind::AlreadyExists => {}
            _ => return Err(error_of(error)),
        },
    }
    sync_folder(rt, folder_of(folder))
}

/// Renames the folder `from` to `to`, in the same parent folder, and syncs that to its device. Disks in its files stay
/// usable. So two files can be completed under one name, and then appear under the other name together, or not at all.
///
/// # Errors
/// `InUse` if a folder with files has the name `to`: another program was faster. `Missing` if there is no folder
/// `from`, `Unreadable` if it can't be renamed, `NotKept` if the device fails, `NoMemory` if the system is out of
/// memory.
pub fn rename_folder<R: Files<File = File>>(
    rt: &R,
    from: &str,
    to: &str,
) -> Result<(), FileDiskError> {
    match fs::rename(rt, from, to) {
        Ok(()) => {}
        Err(error) => match error.kind() {
            ErrorKind::AlreadyExists | ErrorKind::DirectoryNotEmpty => {
                return Err(Failure::Refused(FileFault::InUse));
            }
            _ => return Err(error_of(error)),
        },
    }
    sync_folder(rt, folder_of(to))
}

/// Syncs the names in `folder` to its device. After it, a file that was created or renamed in the folder is found under
/// its name whatever crash comes.
///
/// # Errors
/// `Missing` and `Unreadable` if the folder can't be opened, `NotKept` if its device fails, `NoMemory` if the system is
/// out of memory.
pub fn sync_folder<R: Files<File = File>>(rt: &R, folder: &str) -> Result<(), FileDiskError> {
    let mut options = OpenOptions::new();
    options.read(true);
    let folder = match options.open(rt, folder) {
        Ok(folder) => folder,
        Err(error) => return Err(error_of(error)),
    };
    match folder.sync_all() {
        Ok(()) => Ok(()),
        Err(error) => Err(not_kept(error)),
    }
}

/// Returns the folder that holds the file or folder at `path`.
pub(crate) fn folder_of(path: &str) -> &str {
    match Path::new(path).parent() {
        Some(folder) => {
            if folder.as_str().is_empty() {
                "."
            } else {
                folder.as_str()
            }
        }
        None => path,
    }
}
