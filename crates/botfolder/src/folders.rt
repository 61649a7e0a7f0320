// Folders that are made and synced, with the cause if that fails.
ghost use Rattle.std.specs.Prelude.{◌≢◌, Err};
ghost use Rattle.bytetext.specs.declared.failure.Failure.TheVariants.{Refused};
ghost use Rattle.botfolder.specs.declared.fault.FolderFault.TheVariants.{LongName};

use crate::fault::{FolderError, FolderFault, sync_error, system_error};
use crate::owner::{Besides, keep_to_owner};
use crate::paths::above;
use bytetext::Failure;
use std::fs;
use std::fs::{DirBuilder, File};
use std::io::ErrorKind;
use std::os::unix::fs::{DirBuilderExt as _, MetadataExt as _};
use std::rt::Files;

// Creates `folder`, for its owner alone, if it doesn't exist, and syncs its name to its device.
pub(crate) fn make_folder<R: Files<File = File>>(rt: &R, folder: &str) -> Result<(), FolderError>
    ensures { result ≢ Err (Refused LongName) }
{
    match DirBuilder::new().mode(0o700).create(rt, folder) {
        Ok(()) => {}
        Err(error) => match error.kind() {
            ErrorKind::AlreadyExists => {}
            ErrorKind::NotFound => return Err(Failure::Refused(FolderFault::NoParent)),
            _ => return Err(system_error(&error)),
        },
    }
    sync_folder(rt, above(folder))
}

// Refuses a folder that is a link or belongs to another user, one that others may enter, since they could give its bot
// commands, and one in which its owner may not make files.
pub(crate) fn keep_others_out<R: Files>(rt: &R, folder: &str) -> Result<(), FolderError>
    ensures { result ≢ Err (Refused LongName) }
{
    keep_to_owner(rt, folder, Besides::Nobody)?;
    match fs::metadata(rt, folder) {
        Ok(found) => {
            if !found.is_dir() {
                Err(Failure::Refused(FolderFault::NotAFolder))
            } else if found.mode() & 0o011 != 0 {
                Err(Failure::Refused(FolderFault::LetsOthersIn))
            } else if found.mode() & 0o700 != 0o700 {
                Err(Failure::Refused(FolderFault::BarsOwner))
            } else {
                Ok(())
            }
        }
        Err(error) => Err(system_error(&error)),
    }
}

// Creates `folder`, which must not exist, for its owner alone.
pub(crate) fn make_new_folder<R: Files<File = File>>(
    rt: &R,
    folder: &str,
) -> Result<(), FolderError>
    ensures { result ≢ Err (Refused LongName) }
{
    match DirBuilder::new().mode(0o700).create(rt, folder) {
        Ok(()) => Ok(()),
        Err(error) => match error.kind() {
            ErrorKind::AlreadyExists => Err(Failure::Refused(FolderFault::Exists)),
            ErrorKind::NotFound => Err(Failure::Refused(FolderFault::NoParent)),
            _ => Err(system_error(&error)),
        },
    }
}

// Syncs the names in `folder` to its device.
pub(crate) fn sync_folder<R: Files<File = File>>(rt: &R, folder: &str) -> Result<(), FolderError>
    ensures { result ≢ Err (Refused LongName) }
{
    match File::open(rt, folder) {
        Ok(opened) => match opened.sync_all() {
            Ok(()) => Ok(()),
            Err(error) => Err(sync_error(&error)),
        },
        Err(error) => Err(system_error(&error)),
    }
}
