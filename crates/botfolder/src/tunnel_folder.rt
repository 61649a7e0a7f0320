// The folder of the sockets of a bot's tunnels.
use crate::fault::{FolderError, FolderFault, sync_error, system_error};
use crate::folders::{keep_others_out, make_folder, sync_folder};
use crate::paths::{MAX_PATH, below};
use bytetext::Failure;
use std::fs::{File, OpenOptions};
use std::io::Write as _;
use std::os::unix::fs::OpenOptionsExt as _;
use std::rt::Files;
use std::{fs, io};

// Its name in the bot's folder.
const TUNNELS: &str = "tls";

// The file of the keys in it, and the same while it is written.
const KEYS: &str = "keys";

const NEW_KEYS: &str = "keys.new";

/// Creates the folder `tls` in `folder`, in which the sockets of the bot's tunnels lie, if it is missing, and `folder`
/// itself if that is. Each is for its owner alone (mode 700), so that no other user of the machine can use a tunnel.
///
/// # Errors
/// Those of [`BotFolder::take`](crate::BotFolder::take) but `InUse` and `NotRegular`, for either of the folders. The bot
/// of `folder` may run.
pub fn make_tunnels<R: AllocGlobal + Files<File = File>>(
    rt: &R,
    folder: &str,
) -> Result<(), FolderError> {
    if folder.len() > MAX_PATH {
        return Err(Failure::Refused(FolderFault::LongName));
    }
    make_folder(rt, folder)?;
    keep_others_out(rt, folder)?;
    let tunnels = below(rt.alloc(), folder, TUNNELS)?;
    make_folder(rt, tunnels.as_str())?;
    keep_others_out(rt, tunnels.as_str())
}

/// Replaces the file `tls/keys` of `folder`, the keys of the links' tunnels, by `bytes`. It is for its owner alone (mode
/// 600), and synced. Call [`make_tunnels`] first.
///
/// # Errors
/// What the system gives, as [`FolderFault`] describes it; `NoMemory` if an allocation fails. The file is then as it was.
pub fn keep_tunnel_keys<R: AllocGlobal + Files<File = File>>(
    rt: &R,
    folder: &str,
    bytes: &[u8],
) -> Result<(), FolderError> {
    let tunnels = below(rt.alloc(), folder, TUNNELS)?;
    let new = below(rt.alloc(), tunnels.as_str(), NEW_KEYS)?;
    let keys = below(rt.alloc(), tunnels.as_str(), KEYS)?;
    // One that an interrupted call left may be for others too.
    let _gone = fs::remove_file(rt, new.as_str());
    let file = match OpenOptions::new()
        .write(true)
        .create_new(true)
        .mode(0o600)
        .open(rt, new.as_str())
    {
        Ok(file) => file,
        Err(error) => return Err(system_error(&error)),
    };
    if let Err(error) = write_and_sync(file, bytes) {
        return Err(sync_error(&error));
    }
    match fs::rename(rt, new.as_str(), keys.as_str()) {
        Ok(()) => sync_folder(rt, tunnels.as_str()),
        Err(error) => Err(system_error(&error)),
    }
}

fn write_and_sync(file: File, bytes: &[u8]) -> io::Result<()> {
    let mut file = file;
    file.write_all(bytes)?;
    file.sync_all()
}
