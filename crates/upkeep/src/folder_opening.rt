// What a bot's process opens in its folder, apart from the bot.
use crate::ending::{RunError, of_folder};
use crate::space::Space;
use administrators::Admins;
use botfolder::{BotFolder, FolderFault, make_tunnels};
use net::Watch;
use settings::Settings;
use std::fs::File;
use std::net::Net;
use std::rt::Files;
use std::str;
use std::time::Clock;
use tunnels::has_tunnels;

/// Takes the folder of a bot for this program. Creates the folder of its tunnels in it if `settings` have one.
///
/// # Errors
/// `Folder`, `NoNet`, `NoMade` and `NoMemory`, as [`RunError`] describes them.
pub fn folder_of<R: AllocGlobal + Files<File = File> + Clock>(
    rt: &R,
    settings: &Settings,
) -> Result<BotFolder, RunError> {
    let Ok(path) = str::from_utf8(settings.folder.as_bytes()) else {
        return Err(RunError::Folder(FolderFault::Unusable));
    };
    let folder = match BotFolder::take(rt, path) {
        Ok(folder) => folder,
        Err(error) => return Err(of_folder(error)),
    };
    if has_tunnels(settings) {
        if let Err(error) = make_tunnels(rt, path) {
            return Err(of_folder(error));
        }
    }
    Ok(folder)
}

/// Opens the door for admins.
///
/// # Errors
/// `Control` if the process cannot listen there; `Folder` and `NoMemory`, as [`RunError`] describes them.
#[inline(never)]
pub fn door_of<R>(rt: &R, watch: &Watch, folder: &BotFolder) -> Result<Admins, RunError>
where
    R: AllocGlobal + Net + Files<File = File>,
{
    if let Err(error) = folder.clear_control(rt) {
        return Err(of_folder(error));
    }
    match Admins::open(rt, watch.registry(), folder.control()) {
        Ok(admins) => Ok(admins),
        Err(fault) => Err(RunError::Control(fault)),
    }
}

/// Sets space aside on the disk of the folder.
///
/// # Errors
/// `Folder` and `NoMemory`, as [`RunError`] describes them.
#[inline(never)]
pub fn space_of<R: AllocGlobal + Files<File = File>>(
    rt: &R,
    folder: &BotFolder,
) -> Result<Space, RunError> {
    match folder.room(rt) {
        Ok(room) => Ok(Space::new(room)),
        Err(error) => Err(of_folder(error)),
    }
}

/// Forgets the journal of a leaf that has to begin again. No bot is open in the folder.
///
/// # Errors
/// `Folder` if the folder cannot be written; `NoMemory` if an allocation fails.
pub fn forget_journal<R: AllocGlobal + Files<File = File>>(
    rt: &R,
    folder: &BotFolder,
) -> Result<(), RunError> {
    match folder.forget_journal(rt) {
        Ok(()) => Ok(()),
        Err(error) => Err(of_folder(error)),
    }
}
