// The folder of an heir's hub, which gets its name once it is whole.
use crate::bot_folder::{BotFolder, is_there};
use crate::fault::{FolderError, FolderFault, system_error};
use crate::folders::sync_folder;
use crate::owner::without_slash;
use crate::paths::{JOURNAL, above};
use bytetext::Failure;
use std::fs;
use std::fs::File;
use std::io::ErrorKind;
use std::rt::Files;
use std::time::Clock;

impl BotFolder {
    /// Takes the folder in which an heir is made before it gets the name `folder`: the same name with `.heir` after it.
    /// Creates it if it is missing, and forgets the journal that an interrupted call left there. Keep the parent there
    /// before the journal is made: by that file such a journal is known.
    ///
    /// # Errors
    /// `Exists` if something has the name `folder`, or if the folder holds a bot's journal; else those of
    /// [`take`](BotFolder::take), where `LongName` comes if the longer name is too long.
    pub fn take_heir<R: AllocGlobal + Files<File = File> + Clock>(
        rt: &R,
        folder: &str,
    ) -> Result<BotFolder, FolderError> {
        let name = without_slash(folder);
        keep_free(rt, name)?;
        let path = format!(in rt.alloc(); "{name}.heir")?;
        let heir = BotFolder::take(rt, path.as_str())?;
        if is_there(rt, heir.path(), JOURNAL)? {
            // A bot that ran there has drawn the folder's own number.
            if heir.parent(rt)?.is_none() || heir.made(rt)?.is_some() {
                return Err(Failure::Refused(FolderFault::Exists));
            }
            heir.forget_journal(rt)?;
        }
        Ok(heir)
    }

    /// Gives a folder that [`take_heir`](BotFolder::take_heir) returned the name `folder`. Its bot must be made whole.
    /// Whatever crash comes, the folder is found whole under this name, or nothing is.
    ///
    /// # Errors
    /// `Exists` if something has the name, and what the system gives, as [`FolderFault`] describes it; `NoMemory` if the
    /// system is out of memory. After `Full` and `DiskFails` the folder may have its name.
    pub fn name_heir<R: Files<File = File>>(self, rt: &R, folder: &str) -> Result<(), FolderError> {
        let name = without_slash(folder);
        keep_free(rt, name)?;
        match fs::rename(rt, self.path(), name) {
            Ok(()) => sync_folder(rt, above(name)),
            Err(error) => match error.kind() {
                ErrorKind::AlreadyExists
                | ErrorKind::DirectoryNotEmpty
                | ErrorKind::NotADirectory => Err(Failure::Refused(FolderFault::Exists)),
                _ => Err(system_error(&error)),
            },
        }
    }
}

// Refuses a name that something has, be it a link that leads nowhere.
fn keep_free<R: Files>(rt: &R, name: &str) -> Result<(), FolderError> {
    match fs::symlink_metadata(rt, name) {
        Ok(_) => Err(Failure::Refused(FolderFault::Exists)),
        Err(error) => match error.kind() {
            ErrorKind::NotFound => Ok(()),
            _ => Err(system_error(&error)),
        },
    }
}
