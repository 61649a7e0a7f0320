// A disk in a file, with a mirror in memory of what it holds.
ghost use Rattle.std.specs.Prelude.{◌≡◌, ◌≤ℤ◌, pos, ◌≤◌, ◌<◌, ◌+◌, [], length, true, false, IsTrue, IfOk, IfSome, None, OnOk, OnErr};
ghost use Rattle.disks.specs.Events.{openings};
ghost use Rattle.disks.specs.State.{IsSettled, may_leave};
ghost use Rattle.disks.specs.Calls.{Holds, Tears, Elapses, HasCause, Spends, SameBytes};
ghost use Rattle.disks.specs.Memory.{state_of, Fails};
ghost use Rattle.disks.specs.Files.{IsTold, IsKept};

use crate::disk::{Disk, DiskFault};
use crate::file_fault::{FileDiskError, error_of};
use crate::folder::{folder_of, sync_folder};
use crate::mirror::Mirror;
use crate::told_file::ToldFile;
use bytetext::NoMemory;
use std::alloc::Global;
use std::fs::{File, OpenOptions};
use std::marker::Model;
use std::os::unix::fs::OpenOptionsExt as _;
use std::rt::Files;

/// A disk in a file. Each write and sync goes to the file, and a read gives what the mirror in memory holds. `end_reads`
/// frees the mirror's bytes, for a caller that only writes from then on.
///
/// Contracts of a `FileDisk` speak of its mirror and of what was written to the file. They know the mirror's bytes even
/// after `end_reads`. After a write, all of these bytes were written to the file; after a sync or an opening, they were
/// also synced to the device. Two things are assumed of the system and the device, since no contract can state them: the
/// file holds what was written to it, and a crash leaves of the file what the mirror says may be left.
///
/// After the file fails, each read, write and sync fails, even after `reopen`. Only a new program, which reads the
/// file, learns what a failed write left in it. A read after `end_reads` counts as such a failure.
pub struct FileDisk {
    file: ToldFile,
    mirror: Mirror,
    broken: bool,
}

// By hand, so that this is proved once, and not in each function in which one ends.
impl Drop for FileDisk {
    fn drop(self) {
        let FileDisk {
            file: _,
            mirror: _,
            broken: _,
        } = self;
    }
}

impl Model for FileDisk {
    ghost use Rattle.disks.specs.Files.{FileState, IsInStep};

    ghost Value = { FileState };

    ghost view = { λ d. record { mirror = d.mirror; file = d.file; broken = d.broken } };

    ghost invariant = { λ d. IsInStep (record { mirror = d.mirror; file = d.file; broken = d.broken }) };
}

impl FileDisk {
    /// Opens the disk in `file`, a file that was opened for reading and writing. Locks the file until the disk is
    /// dropped, so that no second program uses it; reads it; then writes its content again and syncs it to the device.
    /// The file keeps its descriptor, unless that is one of the three of the standard streams: then it gets another.
    ///
    /// # Errors
    /// `InUse`, `Unreadable` and `NotKept` as they say; `NoMemory` if it cannot allocate room for the file's content,
    /// or the system is out of memory.
    pub fn new(alloc: Global, file: File) -> Result<FileDisk, FileDiskError>
        ensures settled { IfOk result (λ disk. disk.mirror.events ≡ []) }
        ensures kept { IfOk result IsKept }
        ensures own { IfOk result (λ disk. pos 3 ≤ℤ disk.file.descriptor) }
    {
        let (file, content) = ToldFile::open(alloc, file)?;
        Ok(FileDisk {
            file,
            mirror: Mirror::holding(content),
            broken: false,
        })
    }

    /// Opens the disk in the file at `path`, and syncs the file's name to the device too.
    ///
    /// # Errors
    /// `Missing` if there is no such file, `Unreadable` if it can't be opened for reading and writing; otherwise as for
    /// `new`.
    pub fn open<R: AllocGlobal + Files<File = File>>(
        rt: &R,
        path: &str,
    ) -> Result<FileDisk, FileDiskError>
        ensures settled { IfOk result (λ disk. disk.mirror.events ≡ []) }
        ensures kept { IfOk result IsKept }
        ensures own { IfOk result (λ disk. pos 3 ≤ℤ disk.file.descriptor) }
    {
        let mut options = OpenOptions::new();
        options.read(true).write(true);
        open_at(rt, path, options)
    }

    /// Opens the disk in the file at `path`. If the file is missing, creates it, readable by its owner alone (mode
    /// 600). Syncs the file's name to the device.
    ///
    /// # Errors
    /// `Missing` if its folder is missing; otherwise as for `open`.
    pub fn make<R: AllocGlobal + Files<File = File>>(
        rt: &R,
        path: &str,
    ) -> Result<FileDisk, FileDiskError>
        ensures settled { IfOk result (λ disk. disk.mirror.events ≡ []) }
        ensures kept { IfOk result IsKept }
        ensures own { IfOk result (λ disk. pos 3 ≤ℤ disk.file.descriptor) }
    {
        let mut options = OpenOptions::new();
        options.read(true).write(true).create(true).mode(0o600);
        open_at(rt, path, options)
    }
}

/// Opens the disk in the file at `path` with these `options`.
fn open_at<R: AllocGlobal + Files<File = File>>(
    rt: &R,
    path: &str,
    options: OpenOptions,
) -> Result<FileDisk, FileDiskError>
    ensures settled { IfOk result (λ disk. disk.mirror.events ≡ []) }
    ensures kept { IfOk result IsKept }
    ensures own { IfOk result (λ disk. pos 3 ≤ℤ disk.file.descriptor) }
{
    let file = match options.open(rt, path) {
        Ok(file) => file,
        Err(error) => return Err(error_of(error)),
    };
    let disk = FileDisk::new(rt.alloc(), file)?;
    sync_folder(rt, folder_of(path))?;
    Ok(disk)
}

/// Notes a fault of the file.
fn break_off(broken: &mut bool, mirror: &mut Mirror) -> DiskFault
    ensures broken { broken.new ≡ true }
    ensures fails { Fails mirror.old mirror.new }
{
    *broken = true;
    mirror.fail();
    DiskFault
}

/// Syncs what was written to a file to its device, or notes that the file is broken.
fn sync_or_break_off(file: &mut ToldFile, broken: &mut bool)
    ensures same { file.new.holds ≡ file.old.holds }
    ensures kept { broken.new ≡ false → IsTrue file.new.kept }
    ensures still { broken.new ≡ false → broken.old ≡ false }
{
    match file.sync() {
        Ok(()) => {}
        Err(_) => *broken = true,
    }
}

impl Disk for FileDisk {
    ghost state = { λ disk. state_of disk.mirror };

    ghost shuts = { λ disk. true };

    fn len(&self) -> usize {
        self.mirror.len()
    }

    fn failures(&self) -> u64 {
        self.mirror.failures()
    }

    /// Returns what the mirror holds; `None` after `end_reads`, or once the file has failed.
    fn held(&self) -> Option<&[u8]>
        ensures bytes { IfSome result (λ bytes. bytes.now ≡ (state_of self.now.mirror).seen) }

        ensures broken { self.now.broken ≡ true → result ≡ None }
    {
        if self.broken {
            return None;
        }
        self.mirror.held()
    }

    /// Always: the texts of a file are long to read.
    fn shuts_when_idle(&self) -> bool {
        true
    }

    fn read(&mut self, at: usize, buf: &mut [u8]) -> Result<usize, DiskFault> {
        if self.broken {
            return Err(break_off(&mut self.broken, &mut self.mirror));
        }
        match self.mirror.read(at, buf) {
            Some(count) => Ok(count),
            None => Err(break_off(&mut self.broken, &mut self.mirror)),
        }
    }

    /// Frees the mirror's bytes. From then on `reserve` allocates nothing, and a read fails, which counts as a failure of
    /// the file. The other calls work as before.
    fn end_reads(&mut self)
        ensures same { self.new ≡ self.old }
        ensures state { state_of self.new.mirror ≡ state_of self.old.mirror }
    {
        self.mirror.end_reads();
    }

    /// Allocates nothing if there is room up to `end` already, or after `end_reads`.
    fn reserve(&mut self, end: usize, calls: usize) -> Result<(), NoMemory>
        ensures calls { OnOk result (calls ≤ (state_of self.new.mirror).calls) }
        ensures end { OnOk result (end ≤ (state_of self.new.mirror).end) }
        ensures events { (state_of self.new.mirror).events ≡ (state_of self.old.mirror).events }
        ensures same { SameBytes (state_of self.old.mirror) (state_of self.new.mirror) }
        ensures room { Spends 0 (state_of self.old.mirror) (state_of self.new.mirror) }
        ensures never_fails { (state_of self.new.mirror).failed ≡ (state_of self.old.mirror).failed }
        ensures memory { OnErr result (self.old.mirror.room < end) }
    {
        self.mirror.reserve(end)
    }

    /// At `Ok`, what the disk now holds was written to the file.
    fn write_at(&mut self, at: usize, bytes: &[u8]) -> Result<(), DiskFault>
        requires inside { at ≤ length (state_of self.old.mirror).seen }
        requires room { at + length bytes.now ≤ (state_of self.old.mirror).end }
        requires call { 0 < (state_of self.old.mirror).calls }
        ensures written { OnOk result (Holds (state_of self.old.mirror).seen at bytes.now (state_of self.new.mirror).seen) }
        ensures tears { Tears at (length bytes.now) (state_of self.old.mirror) (state_of self.new.mirror) }
        ensures time { Elapses (state_of self.old.mirror) (state_of self.new.mirror) }
        ensures room { Spends 1 (state_of self.old.mirror) (state_of self.new.mirror) }
        ensures cause { HasCause (state_of self.old.mirror) (state_of self.new.mirror) result }

        ensures told { OnOk result (IsTold self.new) }
    {
        if self.broken {
            return Err(break_off(&mut self.broken, &mut self.mirror));
        }
        self.mirror.write_at(at, bytes);
        match self.file.write_at(at, bytes) {
            Ok(()) => Ok(()),
            Err(_) => Err(break_off(&mut self.broken, &mut self.mirror)),
        }
    }

    /// At `Ok`, what the disk holds was written to the file and synced to its device.
    fn sync(&mut self) -> Result<(), DiskFault>
        requires { 0 < (state_of self.old.mirror).calls }
        ensures settled { OnOk result (IsSettled (state_of self.new.mirror)) }
        ensures same { SameBytes (state_of self.old.mirror) (state_of self.new.mirror) }
        ensures room { Spends 1 (state_of self.old.mirror) (state_of self.new.mirror) }
        ensures cause { HasCause (state_of self.old.mirror) (state_of self.new.mirror) result }

        ensures kept { OnOk result (IsKept self.new) }
    {
        if self.broken {
            return Err(break_off(&mut self.broken, &mut self.mirror));
        }
        match self.file.sync() {
            Ok(()) => {
                self.mirror.sync();
                Ok(())
            }
            Err(_) => Err(break_off(&mut self.broken, &mut self.mirror)),
        }
    }

    /// Syncs what was written to the device: a file loses nothing while the program goes on. If that fails, each later
    /// call fails.
    fn reopen(&mut self)
        ensures left { may_leave (state_of self.old.mirror) (state_of self.new.mirror).seen }
        ensures settled { IsSettled (state_of self.new.mirror) }
        ensures time { Elapses (state_of self.old.mirror) (state_of self.new.mirror) }
        ensures opened { openings (state_of self.new.mirror).events ≡ openings (state_of self.old.mirror).events + 1 }
        ensures never_fails { (state_of self.new.mirror).failed ≡ (state_of self.old.mirror).failed }

        ensures kept { self.new.broken ≡ false → IsKept self.new }
    {
        sync_or_break_off(&mut self.file, &mut self.broken);
        self.mirror.reopen();
    }
}
