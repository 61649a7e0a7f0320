// A folder that this program has taken.
ghost use Rattle.std.specs.Prelude.{◌≡◌, ◌≢◌, ◌<◌, ◌↔◌, length, Err, IfOk};
ghost use Rattle.bytetext.specs.declared.failure.Failure.TheVariants.{Refused};
ghost use Rattle.botfolder.specs.declared.fault.FolderFault.TheVariants.{LongName};
ghost use Rattle.botfolder.specs.Folders.{AreEmpty, AreReady, IsBegun, IsReady, IsUncut};

use crate::begun::Begun;
use crate::fault::{FolderError, FolderFault, system_error};
use crate::folder_file::{FolderFile, remove_file};
use crate::folders::{keep_others_out, make_folder, sync_folder};
use crate::locking::{found_disk, new_disk};
use crate::paths::{JOURNAL, MAX_PATH, NEW, below, control_of};
use crate::stopped::keep_uncut;
use bytetext::Failure;
use disks::{Disk as _, FileDisk, Pair};
use std::fs;
use std::fs::File;
use std::io::ErrorKind;
use std::rt::Files;
use std::time::Clock;

/// A bot's folder that this program has taken. No other program can take it while this value lives. It must live as
/// long as the bot.
pub struct BotFolder {
    path: String,
    control: String,
    // An empty disk, whose file's lock is the folder's.
    lock: FileDisk,
}

// By hand, so that this is proved once, and not in each crate in which a folder is left.
impl Drop for BotFolder {
    fn drop(self) {
        let BotFolder {
            path: _,
            control: _,
            lock: _,
        } = self;
    }
}

impl BotFolder {
    /// Takes `folder` for this program alone. Creates the folder if it is missing, for its owner alone (mode 700), and
    /// syncs its name to its device. If another program holds the folder's lock, tries again for two seconds.
    ///
    /// # Errors
    /// `LongName`, `NoParent`, `IsLink`, `OtherUser`, `NotAFolder`, `LetsOthersIn`, `BarsOwner`, `NotRegular` and `InUse`,
    /// then what the system gives, as [`FolderFault`] describes them; `NoMemory` if an allocation fails. The check of the name's length does
    /// not allocate. The folder may have been created, and a file `lock` in it.
    pub fn take<R: AllocGlobal + Files<File = File> + Clock>(
        rt: &R,
        folder: &str,
    ) -> Result<BotFolder, FolderError>
        ensures long_name { (MAX_PATH < length folder.now) ↔ (result ≡ Err (Refused LongName)) }
    {
        if folder.len() > MAX_PATH {
            return Err(Failure::Refused(FolderFault::LongName));
        }
        make_folder(rt, folder)?;
        locked(rt, folder)
    }

    /// Takes the folder of a bot that does not run, as [`take`](BotFolder::take) does, but creates no folder.
    ///
    /// # Errors
    /// `LongName`; `NoBot` if the folder is missing, or holds neither a journal nor a file `lock`; else those of `take`. A
    /// file `lock` may have been created.
    pub fn take_stopped<R: AllocGlobal + Files<File = File> + Clock>(
        rt: &R,
        folder: &str,
    ) -> Result<BotFolder, FolderError>
        ensures long_name { (MAX_PATH < length folder.now) ↔ (result ≡ Err (Refused LongName)) }
    {
        if MAX_PATH < folder.len() {
            return Err(Failure::Refused(FolderFault::LongName));
        }
        if !is_there(rt, folder, JOURNAL)? && !is_there(rt, folder, FolderFile::Lock.name())? {
            return Err(Failure::Refused(FolderFault::NoBot));
        }
        locked(rt, folder)
    }

    /// Returns the folder's name, as it was given.
    pub fn path(&self) -> &str {
        self.path.as_str()
    }

    /// Returns the path of the socket at which the bot takes commands.
    pub fn control(&self) -> &str {
        self.control.as_str()
    }

    /// Returns the disks of the journal if one was made, and else two empty disks on which to make it. Removes what an
    /// interrupted creation left. If another program reads the journal, tries again for two seconds.
    ///
    /// # Errors
    /// `NotRegular`, `InUse`, `LacksFile`, `CutShort` and what the system gives, as [`FolderFault`] describes them;
    /// `NoMemory` if an allocation fails. A journal is then unchanged.
    pub fn begin<R: AllocGlobal + Files<File = File> + Clock>(
        &self,
        rt: &R,
    ) -> Result<Begun, FolderError>
        ensures begun { IfOk result IsBegun }
        // No device cut short the journal that is found.
        ensures uncut { IfOk result IsUncut }
    {
        if is_there(rt, self.path(), JOURNAL)? {
            let disks = found_disks(rt, self.path())?;
            keep_uncut(rt.alloc(), &disks)?;
            let _left = clear_new(rt, self.path());
            Ok(Begun::Found(disks))
        } else {
            Ok(Begun::Empty(empty_disks(rt, self.path())?))
        }
    }

    /// Ends the creation: the journal on the empty disks of `begin` was made whole. From now on a start finds it,
    /// whatever crash comes. The disks keep their files.
    ///
    /// # Errors
    /// `InUse` if a journal exists already, and what the system gives, as [`FolderFault`] describes it; `NoMemory` if
    /// an allocation fails. A start may then find the journal or not: report nothing of the bot, and end the program.
    pub fn finish<R: AllocGlobal + Files<File = File>>(&self, rt: &R) -> Result<(), FolderError> {
        let new = below(rt.alloc(), self.path(), NEW)?;
        let journal = below(rt.alloc(), self.path(), JOURNAL)?;
        match fs::rename(rt, new.as_str(), journal.as_str()) {
            Ok(()) => sync_folder(rt, self.path()),
            Err(error) => match error.kind() {
                ErrorKind::AlreadyExists | ErrorKind::DirectoryNotEmpty => {
                    Err(Failure::Refused(FolderFault::InUse))
                }
                _ => Err(system_error(&error)),
            },
        }
    }

    /// Forgets the journal, as when a leaf begins again: the next [`begin`](BotFolder::begin) returns two empty disks. No
    /// bot may be open on it. Whatever crash comes, a start finds the whole journal, or none.
    ///
    /// # Errors
    /// What the system gives, as [`FolderFault`] describes it; `NoMemory` if an allocation fails. A start may then find
    /// the journal or not.
    pub fn forget_journal<R: AllocGlobal + Files<File = File>>(
        &self,
        rt: &R,
    ) -> Result<(), FolderError> {
        clear_new(rt, self.path())?;
        let journal = below(rt.alloc(), self.path(), JOURNAL)?;
        let new = below(rt.alloc(), self.path(), NEW)?;
        // From now on it is what an interrupted creation left.
        match fs::rename(rt, journal.as_str(), new.as_str()) {
            Ok(()) => sync_folder(rt, self.path()),
            Err(error) => Err(system_error(&error)),
        }
    }

    /// Removes the socket that a killed bot left, so that a new one can be made there.
    ///
    /// # Errors
    /// `NotRegular` if it is a folder, and what the system gives, as [`FolderFault`] describes them; `NoMemory` if the
    /// system is out of memory.
    pub fn clear_control<R: Files>(&self, rt: &R) -> Result<(), FolderError> {
        remove_file(rt, self.control(), FolderFile::Control)
    }
}

// Takes an existing folder, which keeps others out.
fn locked<R: AllocGlobal + Files<File = File> + Clock>(
    rt: &R,
    folder: &str,
) -> Result<BotFolder, FolderError>
    ensures { result ≢ Err (Refused LongName) }
{
    keep_others_out(rt, folder)?;
    let lock = new_disk(rt, folder, FolderFile::Lock)?;
    Ok(BotFolder {
        path: String::from_str(rt.alloc(), folder)?,
        control: control_of(rt.alloc(), folder)?,
        lock,
    })
}

// Whether a folder holds something of this name.
pub(crate) fn is_there<R: AllocGlobal + Files<File = File>>(
    rt: &R,
    folder: &str,
    name: &str,
) -> Result<bool, FolderError>
    ensures { result ≢ Err (Refused LongName) }
{
    let path = below(rt.alloc(), folder, name)?;
    match fs::exists(rt, path.as_str()) {
        Ok(is_there) => Ok(is_there),
        Err(error) => Err(system_error(&error)),
    }
}

// Opens the disks of an existing journal.
fn found_disks<R: AllocGlobal + Files<File = File> + Clock>(
    rt: &R,
    folder: &str,
) -> Result<Pair, FolderError>
    ensures { IfOk result AreReady }
{
    let first = found_disk(rt, folder, FolderFile::First)?;
    let second = found_disk(rt, folder, FolderFile::Second)?;
    Ok(Pair { first, second })
}

// Removes what an interrupted creation left, and makes new disks.
fn empty_disks<R: AllocGlobal + Files<File = File> + Clock>(
    rt: &R,
    folder: &str,
) -> Result<Pair, FolderError>
    ensures ready { IfOk result AreReady }
    ensures empty { IfOk result AreEmpty }
{
    let new = below(rt.alloc(), folder, NEW)?;
    make_folder(rt, new.as_str())?;
    remove_below(rt, folder, FolderFile::NewFirst)?;
    remove_below(rt, folder, FolderFile::NewSecond)?;
    let first = new_disk(rt, folder, FolderFile::NewFirst)?;
    let second = new_disk(rt, folder, FolderFile::NewSecond)?;
    if first.len() > 0 || second.len() > 0 {
        return Err(Failure::Refused(FolderFault::InUse));
    }
    Ok(Pair { first, second })
}

// Removes what an interrupted creation left beside a journal that was made later.
fn clear_new<R: AllocGlobal + Files<File = File>>(rt: &R, folder: &str) -> Result<(), FolderError> {
    remove_below(rt, folder, FolderFile::NewFirst)?;
    remove_below(rt, folder, FolderFile::NewSecond)?;
    let new = below(rt.alloc(), folder, NEW)?;
    let _gone = fs::remove_dir(rt, new.as_str());
    Ok(())
}

// Removes this file of a folder, if it exists.
pub(crate) fn remove_below<R: AllocGlobal + Files<File = File>>(
    rt: &R,
    folder: &str,
    file: FolderFile,
) -> Result<(), FolderError> {
    let path = below(rt.alloc(), folder, file.name())?;
    remove_file(rt, path.as_str(), file)
}
