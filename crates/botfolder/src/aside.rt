// A journal that is put aside, so that its leaf begins again and nothing of it is lost.
use crate::bot_folder::{BotFolder, is_there};
use crate::fault::{FolderError, FolderFault, system_error};
use crate::folders::sync_folder;
use crate::paths::{JOURNAL, below};
use bytetext::Failure;
use std::fs;
use std::fs::File;
use std::io::ErrorKind;
use std::rt::Files;

impl BotFolder {
    /// Puts the journal aside: gives its folder `journal` the name `journal.NET`, with the number `net` of its net. The
    /// next [`begin`](BotFolder::begin) returns two empty disks. No bot may be open on the journal. Whatever crash comes,
    /// it is found whole, under one of the two names. If it was put aside before, the call does nothing.
    ///
    /// # Errors
    /// `NoBot` if no journal has either name; `AsideBefore` if each name has one; and what the system gives, as
    /// [`FolderFault`] describes it; `NoMemory` if an allocation fails. The journal may then have either name.
    pub fn put_journal_aside<R: AllocGlobal + Files<File = File>>(
        &self,
        rt: &R,
        net: &str,
    ) -> Result<(), FolderError> {
        let name = format!(in rt.alloc(); "{JOURNAL}.{net}")?;
        let is_aside = is_there(rt, self.path(), name.as_str())?;
        if !is_there(rt, self.path(), JOURNAL)? {
            return if is_aside {
                Ok(())
            } else {
                Err(Failure::Refused(FolderFault::NoBot))
            };
        }
        if is_aside {
            return Err(Failure::Refused(FolderFault::AsideBefore));
        }
        let journal = below(rt.alloc(), self.path(), JOURNAL)?;
        let aside = below(rt.alloc(), self.path(), name.as_str())?;
        match fs::rename(rt, journal.as_str(), aside.as_str()) {
            Ok(()) => sync_folder(rt, self.path()),
            Err(error) => match error.kind() {
                ErrorKind::AlreadyExists | ErrorKind::DirectoryNotEmpty => {
                    Err(Failure::Refused(FolderFault::AsideBefore))
                }
                _ => Err(system_error(&error)),
            },
        }
    }
}
