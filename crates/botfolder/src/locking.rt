// Disks in the files of a folder, whose locks are tried for two seconds.
ghost use Rattle.std.specs.Prelude.{◌≢◌, Err, IfOk, IfSome};
ghost use Rattle.bytetext.specs.declared.failure.Failure.TheVariants.{Refused};
ghost use Rattle.botfolder.specs.declared.fault.FolderFault.TheVariants.{LongName};
ghost use Rattle.botfolder.specs.Folders.{IsReady};

use crate::fault::{FolderError, FolderFault, disk_error};
use crate::folder_file::{FolderFile, open_file};
use crate::folders::sync_folder;
use crate::paths::{above, below};
use bytetext::Failure;
use disks::FileDisk;
use std::fs::{File, OpenOptions};
use std::os::unix::fs::OpenOptionsExt as _;
use std::rt::Files;
use std::thread;
use std::time::{Clock, Duration};

// How often a lock is tried, and the milliseconds between two tries. `eggnet show` of a stopped bot holds the locks of
// its journal for a moment.
const TRIES: u32 = 41;

const PAUSE: u64 = 50;

// Opens the disk in `file`, which must exist.
pub(crate) fn found_disk<R: AllocGlobal + Files<File = File> + Clock>(
    rt: &R,
    folder: &str,
    file: FolderFile,
) -> Result<FileDisk, FolderError>
    ensures ready { IfOk result IsReady }
    ensures not_long { result ≢ Err (Refused LongName) }
{
    let mut options = OpenOptions::new();
    options.read(true).write(true);
    match patient_disk(rt, folder, file, &options)? {
        Some(disk) => Ok(disk),
        None => Err(Failure::Refused(FolderFault::LacksFile)),
    }
}

// Opens the disk in `file`, which is created if it is missing, for its owner alone.
pub(crate) fn new_disk<R: AllocGlobal + Files<File = File> + Clock>(
    rt: &R,
    folder: &str,
    file: FolderFile,
) -> Result<FileDisk, FolderError>
    ensures ready { IfOk result IsReady }
    ensures not_long { result ≢ Err (Refused LongName) }
{
    let mut options = OpenOptions::new();
    options.read(true).write(true).create(true).mode(0o600);
    match patient_disk(rt, folder, file, &options)? {
        Some(disk) => Ok(disk),
        // Somebody has just removed the folder.
        None => Err(Failure::Refused(FolderFault::NoParent)),
    }
}

// Opens the disk in `file`, or returns `None` if that is missing. While another program holds the file's lock, tries
// again for two seconds.
fn patient_disk<R: AllocGlobal + Files<File = File> + Clock>(
    rt: &R,
    folder: &str,
    file: FolderFile,
    options: &OpenOptions,
) -> Result<Option<FileDisk>, FolderError>
    ensures ready { IfOk result (λ found. IfSome found IsReady) }
    ensures not_long { result ≢ Err (Refused LongName) }
{
    for _ in 1..TRIES {
        match disk_in(rt, folder, file, options) {
            Err(Failure::Refused(FolderFault::InUse)) => {
                thread::sleep(rt, Duration::from_millis(PAUSE));
            }
            ended => return ended,
        }
    }
    disk_in(rt, folder, file, options)
}

// Opens the disk in `file`, and syncs the file's name to its device. Returns `None` if the file is missing.
fn disk_in<R: AllocGlobal + Files<File = File>>(
    rt: &R,
    folder: &str,
    file: FolderFile,
    options: &OpenOptions,
) -> Result<Option<FileDisk>, FolderError>
    ensures ready { IfOk result (λ found. IfSome found IsReady) }
    ensures not_long { result ≢ Err (Refused LongName) }
{
    let path = below(rt.alloc(), folder, file.name())?;
    let Some(opened) = open_file(rt, path.as_str(), file, options)? else {
        return Ok(None);
    };
    match FileDisk::new(rt.alloc(), opened) {
        Ok(disk) => {
            sync_folder(rt, above(path.as_str()))?;
            Ok(Some(disk))
        }
        Err(error) => Err(disk_error(error)),
    }
}
