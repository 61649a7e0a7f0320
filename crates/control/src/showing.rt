// A bot's version and records.
ghost use Rattle.std.specs.Prelude.{◌≡◌, ◌≤◌, IfOk, Some};
ghost use Rattle.protocol.specs.Ends.{end_version, end_records};
ghost use Rattle.sharelink.specs.declared.TheConstants.{MAX_LEAVES};
ghost use Rattle.botfolder.specs.Folders.{AreCopies};
ghost use Rattle.recordtext.specs.Text.{shown_text};
ghost use Rattle.control.specs.Showing.{IsShown};

use crate::asking::ask;
use crate::fault::{AskError, AskFault, folder_error, journal_error};
use botfolder::{FolderFault, Stopped, read_stopped};
use botjournal::BotJournal;
use bytetext::Failure;
use disks::MemDisk;
use recordtext::put_records;
use sharelink::{BotLink, MAX_LEAVES};
use std::alloc::Global;
use std::fs::File;
use std::net::Net;
use std::rt::Files;
use std::time::Clock;

/// Returns the version and the records of the bot of `folder`, as a transcript has them. Asks the bot if it runs, and
/// else reads its journal. No file is created or written. A bot that starts while its journal is read is refused.
///
/// # Errors
/// `Folder` if the folder or its journal can't be read, or no bot was made there; `Unread` and `GenerationsSpent`, as
/// [`records_of`] says; `Begins` if a bot is just starting; those of [`ask`] if a bot runs; `NoMemory` if an allocation
/// fails.
pub fn show<R: AllocGlobal + Net + Clock + Files<File = File>>(
    rt: &R,
    folder: &str,
) -> Result<Vec<u8>, AskError> {
    match read_stopped(rt, folder) {
        Ok(copies) => records_of(rt.alloc(), copies),
        Err(Failure::Refused(FolderFault::InUse)) => asked(rt, folder),
        Err(error) => Err(folder_error(error)),
    }
}

// What the running bot says.
fn asked<R: AllocGlobal + Net + Clock + Files>(rt: &R, folder: &str) -> Result<Vec<u8>, AskError> {
    match ask(rt, folder, b"show") {
        Err(Failure::Refused(AskFault::Nobody)) => Err(Failure::Refused(AskFault::Begins)),
        answer => answer,
    }
}

/// Returns the version and the records of the bot whose journal `copies` holds. A journal of an older layout is
/// rewritten in the copies, which changes neither version nor records.
///
/// # Errors
/// `Unread` if they hold no journal of a bot; `GenerationsSpent` if the journal is of an older layout and of the last
/// generation; `NoMemory` if an allocation fails.
#[tactic(auto, using(crate::proofs::Shown::is_shown))]
pub fn records_of(alloc: Global, copies: Stopped) -> Result<Vec<u8>, AskError>
    requires copies { AreCopies copies }
    ensures shown { IfOk result (λ text. IsShown copies.first.content copies.second.content text.items) }
{
    let named = name(alloc, copies)?;
    let Stopped { first, second } = named.copies;
    match BotLink::open(alloc, first, second, named.number, MAX_LEAVES) {
        Ok(bot) => text_of(alloc, named.number, &bot),
        Err(returned) => Err(journal_error(returned.error)),
    }
}

// Copies of a journal, and the number of the bot that wrote it.
#[derive(Drop)]
struct Named {
    number: u16,
    copies: Stopped,
}

// Finds whose journal it is. The copies stay as they were.
fn name(alloc: Global, copies: Stopped) -> Result<Named, AskError>
    requires copies { AreCopies copies }
    ensures copies { IfOk result (λ found. AreCopies found.copies) }
    ensures few { IfOk result (λ found. found.number ≤ MAX_LEAVES) }
    ensures first { IfOk result (λ found. found.copies.first.content ≡ copies.first.content) }
    ensures second { IfOk result (λ found. found.copies.second.content ≡ copies.second.content) }
{
    let opened = match BotJournal::open(alloc, copies.first, copies.second) {
        Ok(opened) => opened,
        Err(returned) => return Err(journal_error(returned.error)),
    };
    let number = opened.base.bot;
    if number > MAX_LEAVES {
        return Err(Failure::Refused(AskFault::Unread));
    }
    let disks = opened.journal.into_disks();
    Ok(Named {
        number,
        copies: Stopped {
            first: disks.first,
            second: disks.second,
        },
    })
}

// The lines of a bot.
fn text_of(alloc: Global, number: u16, bot: &BotLink<MemDisk>) -> Result<Vec<u8>, AskError>
    ensures { IfOk result (λ text. text.items
        ≡ shown_text number (Some (end_version bot.now.end)) (Some (end_records bot.now.end))) }
{
    let mut text = Vec::new(alloc);
    let version = Some(bot.version());
    put_records(alloc, &mut text, number, version, Some(bot.userfile()))?;
    Ok(text)
}
