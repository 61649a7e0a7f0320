// The file in which an heir's hub names the net that it goes on from.
ghost use Rattle.std.specs.Prelude.{◌≤◌, IfOk, IfSome, vec_len};
ghost use Rattle.botfolder.specs.declared.parent_file.TheConstants.{MAX_PARENT};

use crate::bot_folder::BotFolder;
use crate::fault::FolderError;
use crate::folder_file::{FolderFile, front_of};
use crate::whole_file::{PARENT, replace_file};
use std::fs::File;
use std::rt::Files;

/// The most bytes of the file `parent` that are read: more than its line has.
pub const MAX_PARENT: usize = 64;

impl BotFolder {
    /// Returns the front of the file `parent`, at most [`MAX_PARENT`] bytes, in which an heir's hub names the net that it
    /// goes on from, and the version of the leaf that was promoted. Returns `None` if the file does not exist.
    ///
    /// # Errors
    /// `NotRegular`, and what the system gives, as [`FolderFault`](crate::FolderFault) describes it; `NoMemory` if an
    /// allocation fails.
    pub fn parent<R: AllocGlobal + Files<File = File>>(
        &self,
        rt: &R,
    ) -> Result<Option<Vec<u8>>, FolderError>
        ensures most { IfOk result (λ found. IfSome found (λ line. vec_len line ≤ MAX_PARENT)) }
    {
        front_of(rt, self.path(), FolderFile::Parent, MAX_PARENT)
    }

    /// Keeps `line` in the file `parent`. From now on it is found whole, whatever crash comes.
    ///
    /// # Errors
    /// As for [`keep_net`](BotFolder::keep_net), with the same left behind.
    pub fn keep_parent<R: AllocGlobal + Files<File = File>>(
        &self,
        rt: &R,
        line: &[u8],
    ) -> Result<(), FolderError> {
        replace_file(rt, self.path(), PARENT, line)
    }
}
