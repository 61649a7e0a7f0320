// The files of two numbers: that of the net, and the folder's own.
ghost use Rattle.std.specs.Prelude.{◌≡◌, length};

use crate::bot_folder::{BotFolder, remove_below};
use crate::fault::{FolderError, FolderFault, system_error};
use crate::folder_file::{FolderFile, open_file};
use crate::paths::below;
use crate::whole_file::{MADE, NET, WholeFile, replace_file};
use bytetext::Failure;
use std::fs::{File, OpenOptions};
use std::io::ErrorKind;
use std::os::unix::fs::FileExt as _;
use std::rt::Files;

/// How many digits the number of a net has, and that of a folder.
pub const NUMBER_DIGITS: usize = 16;

impl BotFolder {
    /// Returns the first 16 bytes of the file `net`, which are the digits of the number of the bot's net. Returns
    /// `None` if the file does not exist.
    ///
    /// # Errors
    /// `NotRegular`, `ShortNumber` if the file is shorter, and what the system gives, as [`FolderFault`] describes them;
    /// `NoMemory` if an allocation fails.
    pub fn net<R: AllocGlobal + Files<File = File>>(
        &self,
        rt: &R,
    ) -> Result<Option<[u8; NUMBER_DIGITS]>, FolderError> {
        number_in(rt, self.path(), FolderFile::Net)
    }

    /// Keeps `digits` as the number of the net. From now on it is found whole, whatever crash comes.
    ///
    /// # Errors
    /// `NotRegular` if a folder has the file's name, `Full` and `DiskFails` if the file can't be written or synced to
    /// its device, and what the system gives, as [`FolderFault`] describes them; `NoMemory` if an allocation fails.
    /// Either the previous number or this one may be found then.
    pub fn keep_net<R: AllocGlobal + Files<File = File>>(
        &self,
        rt: &R,
        digits: &[u8],
    ) -> Result<(), FolderError>
        requires whole { length digits.now ≡ NUMBER_DIGITS }
    {
        keep_number(rt, self.path(), NET, digits)
    }

    /// Forgets the number of the net, as when a leaf is made.
    ///
    /// # Errors
    /// `NotRegular` if a folder has the file's name, and what the system gives, as [`FolderFault`] describes them;
    /// `NoMemory` if an allocation fails.
    pub fn forget_net<R: AllocGlobal + Files<File = File>>(
        &self,
        rt: &R,
    ) -> Result<(), FolderError> {
        remove_below(rt, self.path(), FolderFile::Net)
    }

    /// Returns the first 16 bytes of the file `made`, which are the digits of the folder's own number: by it a hub knows
    /// this folder from another one of the same leaf. Returns `None` if the file does not exist.
    ///
    /// # Errors
    /// As for [`net`](BotFolder::net).
    pub fn made<R: AllocGlobal + Files<File = File>>(
        &self,
        rt: &R,
    ) -> Result<Option<[u8; NUMBER_DIGITS]>, FolderError> {
        number_in(rt, self.path(), FolderFile::Made)
    }

    /// Keeps `digits` as the folder's own number. From now on it is found whole, whatever crash comes.
    ///
    /// # Errors
    /// As for [`keep_net`](BotFolder::keep_net), with the same left behind.
    pub fn keep_made<R: AllocGlobal + Files<File = File>>(
        &self,
        rt: &R,
        digits: &[u8],
    ) -> Result<(), FolderError>
        requires whole { length digits.now ≡ NUMBER_DIGITS }
    {
        keep_number(rt, self.path(), MADE, digits)
    }
}

// Reads the digits in this file of a folder, or returns `None` if it is missing.
fn number_in<R: AllocGlobal + Files<File = File>>(
    rt: &R,
    folder: &str,
    file: FolderFile,
) -> Result<Option<[u8; NUMBER_DIGITS]>, FolderError> {
    let path = below(rt.alloc(), folder, file.name())?;
    let mut options = OpenOptions::new();
    options.read(true);
    let Some(opened) = open_file(rt, path.as_str(), file, &options)? else {
        return Ok(None);
    };
    let mut digits = [0; NUMBER_DIGITS];
    match opened.read_exact_at(&mut digits, 0) {
        Ok(()) => Ok(Some(digits)),
        Err(error) => match error.kind() {
            ErrorKind::UnexpectedEof => Err(Failure::Refused(FolderFault::ShortNumber(file))),
            _ => Err(system_error(&error)),
        },
    }
}

// Writes this file of a folder: digits and a line feed.
fn keep_number<R: AllocGlobal + Files<File = File>>(
    rt: &R,
    folder: &str,
    whole: WholeFile,
    digits: &[u8],
) -> Result<(), FolderError>
    requires whole { length digits.now ≡ NUMBER_DIGITS }
{
    let mut line = [b'\n'; NUMBER_DIGITS + 1];
    line[..NUMBER_DIGITS].copy_from_slice(digits);
    replace_file(rt, folder, whole, &line)
}
