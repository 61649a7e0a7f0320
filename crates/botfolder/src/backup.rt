// A copy of a running bot's journal.
ghost use Rattle.std.specs.Prelude.{◌≡◌, ◌<◌, length, Err};
ghost use Rattle.bytetext.specs.declared.failure.Failure.TheVariants.{Refused};
ghost use Rattle.botfolder.specs.declared.fault.FolderFault.TheVariants.{LongName};

use crate::bot_folder::{BotFolder, remove_below};
use crate::fault::{FolderError, FolderFault, sync_error, system_error};
use crate::folder_file::{FolderFile, len_of, open_file};
use crate::folders::{make_folder, make_new_folder, sync_folder};
use crate::paths::{JOURNAL, MAX_PATH, NEW, above, below};
use crate::stopped::found_file;
use bytetext::Failure;
use std::alloc::Global;
use std::fs;
use std::fs::{File, OpenOptions};
use std::os::unix::fs::{FileExt as _, OpenOptionsExt as _};
use std::rt::Files;

// The bytes that are copied at once.
const PIECE: usize = 65_536;

impl BotFolder {
    /// Copies the journal into the new folder `target`, which must not exist; it is made for its owner alone (mode 700).
    /// Between two steps of the bot both disks are at rest, so a copy that is made then is a journal of that moment. At
    /// `Ok` the copy is synced to its device; [`read_stopped`](crate::read_stopped) reads it.
    ///
    /// The numbers of the net and of the folder, the book and the file `doubt` are not copied. So no bot of a net starts
    /// in a copy that has records, until somebody brings the file `net` there too.
    ///
    /// # Errors
    /// `LongName`; `Exists` and `NoParent`; `Full` and `DiskFails` if the copy can't be written or synced; `LacksFile` and
    /// what the system gives, as [`FolderFault`] describes them; `NoMemory` if an allocation fails. What was copied is
    /// removed then, as far as the system lets it.
    pub fn copy_journal<R: AllocGlobal + Files<File = File>>(
        &self,
        rt: &R,
        target: &str,
    ) -> Result<(), FolderError>
        ensures long_name { MAX_PATH < length target.now → result ≡ Err (Refused LongName) }
    {
        if target.len() > MAX_PATH {
            return Err(Failure::Refused(FolderFault::LongName));
        }
        make_new_folder(rt, target)?;
        match copy_into(rt, self.path(), target) {
            Ok(()) => Ok(()),
            Err(error) => {
                clear_copy(rt, target);
                Err(error)
            }
        }
    }
}

// Copies the two disks of a folder's journal. Only once both are there, the copy has the name of a journal.
fn copy_into<R: AllocGlobal + Files<File = File>>(
    rt: &R,
    folder: &str,
    target: &str,
) -> Result<(), FolderError> {
    let new = below(rt.alloc(), target, NEW)?;
    let journal = below(rt.alloc(), target, JOURNAL)?;
    make_folder(rt, new.as_str())?;
    copy_file(rt, folder, FolderFile::First, target, FolderFile::NewFirst)?;
    copy_file(
        rt,
        folder,
        FolderFile::Second,
        target,
        FolderFile::NewSecond,
    )?;
    sync_folder(rt, new.as_str())?;
    if let Err(error) = fs::rename(rt, new.as_str(), journal.as_str()) {
        return Err(system_error(&error));
    }
    sync_folder(rt, target)?;
    sync_folder(rt, above(target))
}

// Copies a file of a folder to a new file of another one, and syncs its bytes to their device.
fn copy_file<R: AllocGlobal + Files<File = File>>(
    rt: &R,
    folder: &str,
    file: FolderFile,
    target: &str,
    copy: FolderFile,
) -> Result<(), FolderError> {
    let from = found_file(rt, folder, file)?;
    let path = below(rt.alloc(), target, copy.name())?;
    let mut options = OpenOptions::new();
    options.write(true).create_new(true).mode(0o600);
    let Some(to) = open_file(rt, path.as_str(), copy, &options)? else {
        // Somebody has just removed the folder.
        return Err(Failure::Refused(FolderFault::NoParent));
    };
    let len = len_of(&from)?;
    copy_bytes(rt.alloc(), &from, &to, len)?;
    match to.sync_all() {
        Ok(()) => Ok(()),
        Err(error) => Err(sync_error(&error)),
    }
}

// Copies the first `len` bytes of a file.
fn copy_bytes(alloc: Global, from: &File, to: &File, len: usize) -> Result<(), FolderError> {
    let mut piece = vec![in alloc; 0; PIECE]?;
    let pieces = len / PIECE;
    for place in 0..pieces {
        copy_piece(from, to, &mut piece, place)?;
    }
    piece.truncate(len % PIECE);
    copy_piece(from, to, &mut piece, pieces)
}

// Copies as many bytes as `piece` has to the same place of another file: after `place` whole pieces.
fn copy_piece(from: &File, to: &File, piece: &mut [u8], place: usize) -> Result<(), FolderError> {
    let at = (place as u64).saturating_mul(PIECE as u64);
    if let Err(error) = from.read_exact_at(piece, at) {
        return Err(system_error(&error));
    }
    match to.write_all_at(piece, at) {
        Ok(()) => Ok(()),
        Err(error) => Err(sync_error(&error)),
    }
}

// Removes what was copied.
fn clear_copy<R: AllocGlobal + Files<File = File>>(rt: &R, target: &str) {
    let _first = remove_below(rt, target, FolderFile::NewFirst);
    let _second = remove_below(rt, target, FolderFile::NewSecond);
    if let Ok(new) = below(rt.alloc(), target, NEW) {
        let _new = fs::remove_dir(rt, new.as_str());
    }
    let _target = fs::remove_dir(rt, target);
}
