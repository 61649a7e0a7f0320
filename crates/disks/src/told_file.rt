// A file, and a record of what was written to it.
ghost use Rattle.std.specs.Prelude.{◌≡◌, ◌≤ℤ◌, pos, IfOk, OnOk, IsTrue};
ghost use Rattle.std.specs.Fd.{file_raw_fd};
ghost use Rattle.disks.specs.Calls.{Holds};

use crate::disk::DiskFault;
use crate::file_fault::{FileDiskError, FileFault, error_of, not_kept};
use crate::history::History;
use bytetext::Failure;
use std::alloc::{AllocError, Global};
use std::fs::{File, TryLockError};
use std::marker::Model;
use std::os::fd::AsRawFd as _;
use std::os::unix::fs::FileExt as _;
use std::snapshot::Snapshot;

/// The first descriptor that belongs to none of the standard streams.
const FIRST_OWN: i32 = 3;

/// The largest block that the allocator is to keep once it is freed, in bytes.
const LARGE: usize = 512 * 1_024;

/// A locked file, and for contracts what was written to it.
///
/// All calls of the system stand here. A clause says what the system reported; that a file holds what was written to
/// it, and keeps what was synced to its device, is assumed.
pub(crate) struct ToldFile {
    file: File,
    /// What was found in the file, for contracts alone.
    found: Snapshot<Vec<u8>>,
    /// What was written since, for contracts alone.
    written: History,
    /// Whether a sync came after the last write.
    kept: bool,
}

// By hand, so that this is proved once, and not in each function in which one ends.
impl Drop for ToldFile {
    fn drop(self) {
        let ToldFile {
            file: _,
            found: _,
            written: _,
            kept: _,
        } = self;
    }
}

impl Model for ToldFile {
    ghost use Rattle.std.specs.Prelude.{◌≤ℤ◌, pos};
    ghost use Rattle.std.specs.Fd.{file_raw_fd};
    ghost use Rattle.disks.specs.Told.{Told, after_writes};

    ghost Value = { Told };

    ghost view = { λ f. record {
      holds = after_writes f.found.value.items f.written.events;
      kept = f.kept;
      descriptor = file_raw_fd f.file;
    } };

    ghost invariant = { λ f. pos 3 ≤ℤ file_raw_fd f.file };
}

impl ToldFile {
    /// Takes over the open `file`: locks it, reads it, writes its content again, and syncs that to the device.
    ///
    /// The content is written again because an earlier process may have seen a sync fail. After that the system counts
    /// what was written as kept although the device lacks it, and another sync succeeds.
    ///
    /// # Errors
    /// `InUse`, `Unreadable` and `NotKept` as they say; `NoMemory` if it cannot allocate room for the file's content,
    /// or the system is out of memory.
    pub(crate) fn open(alloc: Global, file: File) -> Result<(ToldFile, Vec<u8>), FileDiskError>
        ensures holds { IfOk result (λ opened. opened.0.holds ≡ opened.1.items) }
        ensures kept { IfOk result (λ opened. IsTrue opened.0.kept) }
        ensures own { IfOk result (λ opened. pos 3 ≤ℤ opened.0.descriptor) }
    {
        let file = under_own_descriptor(file)?;
        lock(&file)?;
        let bytes = read_file(alloc, &file)?;
        keep_again(&file, &bytes)?;
        let opened = ToldFile {
            file,
            found: Snapshot::of(&bytes),
            written: History::new(),
            kept: true,
        };
        Ok((opened, bytes))
    }

    /// Writes `text` at the offset `at`.
    pub(crate) fn write_at(&mut self, at: usize, text: &[u8]) -> Result<(), DiskFault>
        ensures written { OnOk result (Holds self.old.holds at text.now self.new.holds) }
    {
        self.kept = false;
        match self.file.write_all_at(text, at as u64) {
            Ok(()) => {
                self.written.note(&[1, at as u64, text.len() as u64], text);
                Ok(())
            }
            Err(_) => Err(DiskFault),
        }
    }

    /// Syncs what was written to the device.
    pub(crate) fn sync(&mut self) -> Result<(), DiskFault>
        ensures same { self.new.holds ≡ self.old.holds }
        ensures kept { OnOk result (IsTrue self.new.kept) }
    {
        match self.file.sync_data() {
            Ok(()) => {
                self.kept = true;
                Ok(())
            }
            Err(_) => Err(DiskFault),
        }
    }
}

/// Moves the file to a descriptor that no standard stream uses. A program started with one of its streams closed gets
/// that stream's number for the next file that it opens, and what it prints would overwrite the file.
fn under_own_descriptor(file: File) -> Result<File, FileDiskError>
    ensures { IfOk result (λ file. pos 3 ≤ℤ file_raw_fd file) }
{
    if file.as_raw_fd() >= FIRST_OWN {
        return Ok(file);
    }
    match file.try_clone() {
        Ok(twin) => {
            if twin.as_raw_fd() >= FIRST_OWN {
                Ok(twin)
            } else {
                Err(Failure::Refused(FileFault::Unreadable))
            }
        }
        Err(error) => Err(error_of(error)),
    }
}

/// Locks a file.
fn lock(file: &File) -> Result<(), FileDiskError> {
    match file.try_lock() {
        Ok(()) => Ok(()),
        Err(TryLockError::WouldBlock) => Err(Failure::Refused(FileFault::InUse)),
        Err(TryLockError::Error(error)) => Err(error_of(error)),
    }
}

/// Reads a file's content.
fn read_file(alloc: Global, file: &File) -> Result<Vec<u8>, FileDiskError> {
    let len = match file.metadata() {
        Ok(metadata) => metadata.len() as usize,
        Err(error) => return Err(error_of(error)),
    };
    keep_large_blocks(alloc);
    let mut bytes = vec![in alloc; 0; len]?;
    match file.read_exact_at(&mut bytes, 0) {
        Ok(()) => Ok(bytes),
        Err(error) => Err(error_of(error)),
    }
}

/// Allocates a block of 512 KiB, writes nothing to it, and frees it. The allocator of glibc returns each freed block of more
/// than 128 KiB to the system until it has freed a larger one; from then on it keeps blocks up to that size. So the memory of
/// a file's content is used again for what is read from it. If the allocation fails, nothing is lost.
fn keep_large_blocks(alloc: Global) {
    let block: Result<Vec<u8>, AllocError> = Vec::with_capacity(alloc, LARGE);
    drop(block);
}

/// Writes a file's content again, and syncs it to its device.
fn keep_again(file: &File, bytes: &[u8]) -> Result<(), FileDiskError> {
    match file.write_all_at(bytes, 0) {
        Ok(()) => {}
        Err(error) => return Err(not_kept(error)),
    }
    match file.sync_all() {
        Ok(()) => Ok(()),
        Err(error) => Err(not_kept(error)),
    }
}
