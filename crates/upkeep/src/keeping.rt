// What the connections have the bot save in its folder before they go on, and what an admin changes there.
ghost use Rattle.std.specs.Prelude.{◌≡◌};
ghost use Rattle.upkeep.specs.Stations.{is_hub};

use crate::ending::{RunError, of_folder};
use crate::netting::keep_net;
use crate::space::Space;
use administrators::changes_answer;
use botfolder::BotFolder;
use bytetext::NoMemory;
use net::Log;
use peers::Links;
use settings::{Settings, Station};
use sharelink::AcceptedChange;
use std::alloc::Global;
use std::fs::File;
use std::rt::Files;

// The answer to an admin who gives a hub's command to another bot.
pub(crate) const NO_HUB: &[u8] = b"refused no hub: say it at the hub of the net\n";

// The answer to an admin who trusts a hub that is not in doubt.
const NO_DOUBT: &[u8] = b"refused no doubt: no leaf is ahead of this hub, or has other records\n";

/// If a leaf has just learned the number of its net, saves it before the leaf goes on.
///
/// # Errors
/// `Folder` if the folder cannot be written; `NoMemory` if an allocation fails.
pub fn keep_new_net<R: AllocGlobal + Files<File = File>>(
    rt: &R,
    log: &mut Log,
    folder: &BotFolder,
    space: &mut Space,
    links: &mut Links,
    now: u64,
) -> Result<(), RunError> {
    if let Some(net) = links.to_keep() {
        space.lend();
        keep_net(rt, folder, &net)?;
        space.look(log, now);
        links.keep(log, net, now);
    }
    Ok(())
}

/// If a hub has just found that it may be an older copy of itself, saves that before anything else, so that it takes no
/// change either when it starts again.
///
/// # Errors
/// `Folder` if the folder cannot be written; `NoMemory` if an allocation fails.
pub fn keep_new_doubt<R: AllocGlobal + Files<File = File>>(
    rt: &R,
    log: &mut Log,
    folder: &BotFolder,
    space: &mut Space,
    links: &mut Links,
    now: u64,
) -> Result<(), RunError> {
    let Some(line) = links.doubt_to_keep() else {
        return Ok(());
    };
    space.lend();
    match folder.keep_doubt(rt, line.as_bytes()) {
        Ok(()) => {}
        Err(error) => return Err(of_folder(error)),
    }
    space.look(log, now);
    links.keep_doubt();
    Ok(())
}

/// If new leaves have shown their codes at a hub, writes them to its book before it welcomes them. While there is no
/// room, they wait, until they are disconnected as too late.
///
/// # Errors
/// `Folder` if the folder cannot be written; `NoMemory` if an allocation fails.
pub fn enter_new_leaves<R: AllocGlobal + Files<File = File>>(
    rt: &R,
    log: &mut Log,
    folder: &BotFolder,
    space: &Space,
    links: &mut Links,
    now: u64,
) -> Result<(), RunError> {
    if !space.has_room() {
        return Ok(());
    }
    let lines = links.to_enter(rt.alloc())?;
    if lines.is_empty() {
        return Ok(());
    }
    enter(rt, folder, lines.as_slice())?;
    links.entered(rt, log, now)?;
    Ok(())
}

/// Frees `leaf` for another folder, as an admin asks at the hub, and returns the answer.
///
/// # Errors
/// `Folder` if the folder cannot be written; `NoMemory` if an allocation fails.
pub fn renew<R: AllocGlobal + Files<File = File>>(
    rt: &R,
    log: &mut Log,
    folder: &BotFolder,
    links: &mut Links,
    settings: &Settings,
    leaf: u16,
    now: u64,
) -> Result<Vec<u8>, RunError> {
    if !is_hub(settings.station) {
        return Ok(Vec::from_slice(rt.alloc(), NO_HUB)?);
    }
    match links.renew(rt.alloc(), log, leaf, now)? {
        Some(line) => {
            enter(rt, folder, line.as_slice())?;
            Ok(renewed(rt.alloc(), leaf)?)
        }
        None => Ok(no_such_leaf(rt.alloc(), settings.station.leaves)?),
    }
}

/// Ends a hub's doubt, as an admin asks: its own records count. The folders of the leaves that were found ahead, or
/// with other records, are barred. Returns the answer.
///
/// # Errors
/// `Folder` if the folder cannot be written; `NoMemory` if an allocation fails.
pub fn trust<R: AllocGlobal + Files<File = File>>(
    rt: &R,
    folder: &BotFolder,
    links: &mut Links,
    settings: &Settings,
) -> Result<Vec<u8>, RunError> {
    if !is_hub(settings.station) {
        return Ok(Vec::from_slice(rt.alloc(), NO_HUB)?);
    }
    if links.doubt().is_none() {
        return Ok(Vec::from_slice(rt.alloc(), NO_DOUBT)?);
    }
    let bars = links.trust(rt.alloc())?;
    enter(rt, folder, bars.as_slice())?;
    match folder.forget_doubt(rt) {
        Ok(()) => Ok(Vec::from_slice(rt.alloc(), b"trusted\n")?),
        Err(error) => Err(of_folder(error)),
    }
}

// Appends lines to the book. If that fails, the process ends, so nobody hears of what the lines say.
fn enter<R: AllocGlobal + Files<File = File>>(
    rt: &R,
    folder: &BotFolder,
    lines: &[u8],
) -> Result<(), RunError> {
    match folder.enter(rt, lines) {
        Ok(()) => Ok(()),
        Err(error) => Err(of_folder(error)),
    }
}

/// Tells an admin of the accepted changes from number `from` on: `held` are those that the journal of a hub, or of a bot that
/// is alone, holds one by one, of which the last has the number `version`. Returns the answer.
///
/// # Errors
/// `NoMemory` if an allocation fails.
pub fn tell_changes(
    alloc: Global,
    settings: &Settings,
    held: &[AcceptedChange],
    version: u32,
    from: u32,
) -> Result<Vec<u8>, NoMemory> {
    if settings.station.number != 0 {
        return Ok(Vec::from_slice(alloc, NO_HUB)?);
    }
    changes_answer(alloc, held, version, from)
}

// Whether a bot at this station is a hub with leaves.
pub(crate) fn is_hub(station: Station) -> bool
    ensures { result ≡ is_hub station }
{
    station.number == 0 && station.leaves > 0
}

fn renewed(alloc: Global, leaf: u16) -> Result<Vec<u8>, NoMemory> {
    let line = format!(in alloc; "renewed {leaf}\n")?;
    Ok(line.into_bytes())
}

// The answer to an admin who names a leaf that the net lacks.
pub(crate) fn no_such_leaf(alloc: Global, leaves: u16) -> Result<Vec<u8>, NoMemory> {
    let line = format!(in alloc; "refused no such leaf: say a number from 1 to {leaves}\n")?;
    Ok(line.into_bytes())
}
