// The journal of a bot that does not run.
ghost use Rattle.std.specs.Prelude.{◌≡◌, ◌≤◌};
ghost use Rattle.disks.specs.Memory.{state_of};
ghost use Rattle.disks.specs.State.{IsSettled};
ghost use Rattle.botfolder.specs.Folders.{AreCopies};
ghost use Rattle.sharelink.specs.declared.TheConstants.{MAX_LEAVES};
ghost use Rattle.doctor.specs.Journals.{verdict_of_seen};

use crate::verdict::{Bad, Fine, JournalSeen, Note, Verdict};
use botfolder::{FolderFault, Stopped, read_stopped};
use botjournal::{BotJournal, LAYOUT};
use bytejournal::{Disks, JournalFault};
use bytetext::{Failure, NoMemory};
use disks::{Disk as _, MemDisk};
use settings::Station;
use sharelink::{BotLink, MAX_LEAVES};
use std::alloc::Global;
use std::fs::File;
use std::rt::Files;

/// A journal of more bytes is to be rewritten: 64 MiB.
pub const LARGE: u64 = 67_108_864;

// Looks at the journal in `folder`, for the bot at this station; `None` if a bot runs there. Writes nothing, and locks
// the journal while it is read.
pub(crate) fn journal_verdict<R: AllocGlobal + Files<File = File>>(
    rt: &R,
    folder: &str,
    station: Station,
) -> Result<Option<Verdict>, NoMemory> {
    match read_stopped(rt, folder) {
        Ok(copies) => Ok(Some(verdict_of_copies(rt.alloc(), copies, station)?)),
        Err(Failure::Refused(FolderFault::NoBot)) => Ok(Some(Verdict::Fine(Fine::NoJournal))),
        Err(Failure::Refused(FolderFault::InUse)) => Ok(None),
        Err(Failure::Refused(fault)) => Ok(Some(Verdict::Bad(Bad::Folder(fault)))),
        Err(Failure::NoMemory) => Err(NoMemory),
    }
}

fn verdict_of_copies(alloc: Global, copies: Stopped, station: Station) -> Result<Verdict, NoMemory>
    requires copies { AreCopies copies }
{
    if station.number > station.leaves || station.leaves > MAX_LEAVES {
        return Ok(Verdict::Bad(Bad::OtherJournal));
    }
    let Stopped { first, second } = copies;
    let bytes = first.len().saturating_add(second.len()) as u64;
    match BotJournal::open(alloc, first, second) {
        Ok(opened) => {
            let layout = opened.journal.layout();
            let disks = opened.journal.into_disks();
            verdict_of_disks(alloc, disks, station, Written { layout, bytes })
        }
        Err(returned) => verdict_of_fault(returned.error),
    }
}

// How a journal is written: its layout, and the bytes of its files.
#[derive(Clone, Copy)]
struct Written {
    layout: u8,
    bytes: u64,
}

// Looks whether the bot at this station can be opened on the disks, whose journal is written so.
fn verdict_of_disks(
    alloc: Global,
    disks: Disks<MemDisk>,
    station: Station,
    written: Written,
) -> Result<Verdict, NoMemory>
    requires first { IsSettled (state_of disks.first) }
    requires second { IsSettled (state_of disks.second) }
    requires numbered { station.number ≤ station.leaves }
    requires few { station.leaves ≤ MAX_LEAVES }
{
    let Disks { first, second } = disks;
    let Written { layout, bytes } = written;
    match BotLink::open(alloc, first, second, station.number, station.leaves) {
        Ok(bot) => Ok(verdict_of_seen(JournalSeen {
            layout,
            version: bot.version(),
            bytes,
        })),
        Err(returned) => verdict_of_fault(returned.error),
    }
}

// What a journal that reads well is like.
fn verdict_of_seen(seen: JournalSeen) -> Verdict
    ensures { result ≡ verdict_of_seen seen }
{
    if seen.layout < LAYOUT {
        Verdict::Note(Note::OldJournal(seen))
    } else if seen.bytes > LARGE {
        Verdict::Note(Note::LargeJournal(seen))
    } else {
        Verdict::Fine(Fine::Journal(seen))
    }
}

// What it means that no bot can be opened on the copies.
fn verdict_of_fault(fault: Failure<JournalFault>) -> Result<Verdict, NoMemory> {
    match fault {
        Failure::Refused(JournalFault::GenerationsSpent) => Ok(Verdict::Bad(Bad::SpentJournal)),
        Failure::Refused(
            JournalFault::NotAJournal | JournalFault::DiskFault | JournalFault::Spent,
        ) => Ok(Verdict::Bad(Bad::OtherJournal)),
        Failure::NoMemory => Err(NoMemory),
    }
}
