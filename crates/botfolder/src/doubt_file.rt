// The file in which a hub keeps that it may be an older copy of itself.
ghost use Rattle.std.specs.Prelude.{◌≤◌, IfOk, IfSome, vec_len};
ghost use Rattle.botfolder.specs.declared.doubt_file.TheConstants.{MAX_DOUBT};

use crate::bot_folder::{BotFolder, remove_below};
use crate::fault::FolderError;
use crate::folder_file::{FolderFile, front_of};
use crate::whole_file::{DOUBT, replace_file};
use std::fs::File;
use std::rt::Files;

/// The most bytes of the file `doubt` that are read: more than its line has.
pub const MAX_DOUBT: usize = 64;

impl BotFolder {
    /// Returns the front of the file `doubt`, at most [`MAX_DOUBT`] bytes, in which a hub that may be an older copy of
    /// itself keeps which leaf shows it. Returns `None` if the file does not exist.
    ///
    /// # Errors
    /// `NotRegular`, and what the system gives, as [`FolderFault`](crate::FolderFault) describes it; `NoMemory` if an
    /// allocation fails.
    pub fn doubt<R: AllocGlobal + Files<File = File>>(
        &self,
        rt: &R,
    ) -> Result<Option<Vec<u8>>, FolderError>
        ensures most { IfOk result (λ found. IfSome found (λ line. vec_len line ≤ MAX_DOUBT)) }
    {
        front_of(rt, self.path(), FolderFile::Doubt, MAX_DOUBT)
    }

    /// Keeps `line` in the file `doubt`. From now on it is found whole, whatever crash comes.
    ///
    /// # Errors
    /// As for [`keep_net`](BotFolder::keep_net), with the same left behind.
    pub fn keep_doubt<R: AllocGlobal + Files<File = File>>(
        &self,
        rt: &R,
        line: &[u8],
    ) -> Result<(), FolderError> {
        replace_file(rt, self.path(), DOUBT, line)
    }

    /// Removes the file `doubt`, if it exists.
    ///
    /// # Errors
    /// `NotRegular` if a folder has the file's name, and what the system gives, as
    /// [`FolderFault`](crate::FolderFault) describes it; `NoMemory` if an allocation fails.
    pub fn forget_doubt<R: AllocGlobal + Files<File = File>>(
        &self,
        rt: &R,
    ) -> Result<(), FolderError> {
        remove_below(rt, self.path(), FolderFile::Doubt)
    }
}
