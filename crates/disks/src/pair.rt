// The two files of a journal.
ghost use Rattle.std.specs.Prelude.{◌≡◌, [], IfOk, IfSome};

use crate::disk::Disk;
use crate::file_disk::FileDisk;
use crate::file_fault::{FileDiskError, FileFault};
use bytetext::Failure;
use std::fs::File;
use std::rt::Files;

/// The two disks of a journal, in the order in which the journal takes them.
#[derive(Drop)]
pub struct Pair {
    pub first: FileDisk,
    pub second: FileDisk,
}

impl Pair {
    /// Opens the disks in the files at the paths `first` and `second`, which must exist.
    ///
    /// # Errors
    /// As for `FileDisk::open`.
    pub fn open<R: AllocGlobal + Files<File = File>>(
        rt: &R,
        first: &str,
        second: &str,
    ) -> Result<Pair, FileDiskError>
        ensures first { IfOk result (λ pair. pair.first.mirror.events ≡ []) }
        ensures second { IfOk result (λ pair. pair.second.mirror.events ≡ []) }
    {
        let first = FileDisk::open(rt, first)?;
        let second = FileDisk::open(rt, second)?;
        Ok(Pair { first, second })
    }

    /// Opens the disks in the files at the paths `first` and `second`, and creates the files that are missing.
    ///
    /// # Errors
    /// `Missing` if only one file is missing and the other one holds something: a journal needs both files. Otherwise
    /// as for `FileDisk::make`.
    pub fn make<R: AllocGlobal + Files<File = File>>(
        rt: &R,
        first: &str,
        second: &str,
    ) -> Result<Pair, FileDiskError>
        ensures first { IfOk result (λ pair. pair.first.mirror.events ≡ []) }
        ensures second { IfOk result (λ pair. pair.second.mirror.events ≡ []) }
    {
        let first_found = found(rt, first)?;
        let second_found = found(rt, second)?;
        match (first_found, second_found) {
            (Some(first), Some(second)) => Ok(Pair { first, second }),
            (Some(first), None) => {
                let second = make_beside(rt, second, &first)?;
                Ok(Pair { first, second })
            }
            (None, Some(second)) => {
                let first = make_beside(rt, first, &second)?;
                Ok(Pair { first, second })
            }
            (None, None) => {
                let first = FileDisk::make(rt, first)?;
                let second = FileDisk::make(rt, second)?;
                Ok(Pair { first, second })
            }
        }
    }
}

/// Opens the disk in the file at `path`, if there is one.
fn found<R: AllocGlobal + Files<File = File>>(
    rt: &R,
    path: &str,
) -> Result<Option<FileDisk>, FileDiskError>
    ensures { IfOk result (λ found. IfSome found (λ disk. disk.mirror.events ≡ [])) }
{
    match FileDisk::open(rt, path) {
        Ok(disk) => Ok(Some(disk)),
        Err(Failure::Refused(FileFault::Missing)) => Ok(None),
        Err(error) => Err(error),
    }
}

/// Creates a disk in a new file at `path`, if `other` is empty.
fn make_beside<R: AllocGlobal + Files<File = File>>(
    rt: &R,
    path: &str,
    other: &FileDisk,
) -> Result<FileDisk, FileDiskError>
    ensures { IfOk result (λ disk. disk.mirror.events ≡ []) }
{
    if other.len() > 0 {
        return Err(Failure::Refused(FileFault::Missing));
    }
    FileDisk::make(rt, path)
}
