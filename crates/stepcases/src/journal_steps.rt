// Steps of a journal.
ghost use Rattle.std.specs.Prelude.{◌≡◌, IfOk, true};
ghost use Rattle.std.specs.List.{AllByRecursion};
ghost use Rattle.disks.specs.State.{IsSettled};
ghost use Rattle.disks.specs.Memory.{state_of};
ghost use Rattle.bytejournal.specs.Journal.{first_disk, second_disk};
ghost use Rattle.botjournal.specs.Bases.{IsGoodBase};
ghost use Rattle.botjournal.specs.Entries.{IsGoodEntry};
ghost use Rattle.botjournal.specs.Journal.{IsSound, IsGoodOpened};
ghost use Rattle.stepcases.specs.Place.{IsReady};

use crate::journal_disks::put_hex;
use crate::place::{Place, crashed};
use crate::words::bytes_of;
use botjournal::{
    Base, BotJournal, Entry, LAYOUT, OpenedJournal, read_base, read_entry, write_base, write_entry,
};
use bytejournal::{Disks, JournalError, Returned};
use bytetext::NoMemory;
use caselines::{BAD_WORDS, CaseError};
use disks::MemDisk;
use std::alloc::Global;

/// Plays `create BASE` on `disks`, where BASE is `base`.
pub fn create(
    alloc: Global,
    disks: Disks<MemDisk>,
    base: &[u8],
    out: &mut Vec<u8>,
) -> Result<Place, CaseError>
    requires first { IsSettled (state_of disks.first) }
    requires second { IsSettled (state_of disks.second) }
    ensures { IfOk result IsReady }
{
    let base = base_of(alloc, base)?;
    match BotJournal::create(alloc, disks.first, disks.second, &base) {
        Ok(journal) => {
            tell(Ok(()), out)?;
            Ok(Place::InUse(journal))
        }
        Err(returned) => handed_back(returned, out),
    }
}

/// Plays `open` on `disks`.
pub fn open(alloc: Global, disks: Disks<MemDisk>, out: &mut Vec<u8>) -> Result<Place, CaseError>
    requires first { IsSettled (state_of disks.first) }
    requires second { IsSettled (state_of disks.second) }
    ensures { IfOk result IsReady }
{
    match BotJournal::open(alloc, disks.first, disks.second) {
        Ok(opened) => found(alloc, opened, out),
        Err(returned) => handed_back(returned, out),
    }
}

/// Plays `restart` of `journal`.
pub fn restart(
    alloc: Global,
    journal: BotJournal<MemDisk>,
    out: &mut Vec<u8>,
) -> Result<Place, CaseError>
    ensures { IfOk result IsReady }
{
    match journal.restart(alloc) {
        Ok(opened) => found(alloc, opened, out),
        Err(returned) => handed_back(returned, out),
    }
}

/// Plays `append ENTRY` on `journal`, where ENTRY is `entry`.
pub fn append(
    alloc: Global,
    journal: BotJournal<MemDisk>,
    entry: &[u8],
    out: &mut Vec<u8>,
) -> Result<Place, CaseError>
    requires { IsSound state_of journal }
    ensures { IfOk result IsReady }
{
    let mut journal = journal;
    let entry = entry_of(alloc, entry)?;
    if journal.layout() != LAYOUT {
        out.extend_from_slice(b"older layout\n")?;
        return Ok(Place::InUse(journal));
    }
    let answer = journal.append(alloc, &entry);
    tell(answer, out)?;
    Ok(Place::InUse(journal))
}

/// Plays `rebase BASE` on `journal`, where BASE is `base`.
pub fn rebase(
    alloc: Global,
    journal: BotJournal<MemDisk>,
    base: &[u8],
    out: &mut Vec<u8>,
) -> Result<Place, CaseError>
    requires { IsSound state_of journal }
    ensures { IfOk result IsReady }
{
    let mut journal = journal;
    let base = base_of(alloc, base)?;
    let answer = journal.rebase(alloc, &base);
    tell(answer, out)?;
    Ok(Place::InUse(journal))
}

/// Plays `spent`, which asks `journal`.
pub fn spent(journal: BotJournal<MemDisk>, out: &mut Vec<u8>) -> Result<Place, CaseError>
    requires { IsSound state_of journal }
    ensures { IfOk result IsReady }
{
    let answer: &[u8] = if journal.generations_spent() {
        b"spent\n"
    } else {
        b"left\n"
    };
    out.extend_from_slice(answer)?;
    Ok(Place::InUse(journal))
}

/// Plays `layout`, which asks `journal`.
pub fn layout(
    alloc: Global,
    journal: BotJournal<MemDisk>,
    out: &mut Vec<u8>,
) -> Result<Place, CaseError>
    requires { IsSound state_of journal }
    ensures { IfOk result IsReady }
{
    let line = format!(in alloc; "{}\n", journal.layout())?;
    out.extend_from_slice(line.as_bytes())?;
    Ok(Place::InUse(journal))
}

// Prints how a call ended.
fn tell(answer: Result<(), JournalError>, out: &mut Vec<u8>) -> Result<(), CaseError> {
    match answer {
        Ok(()) => out.extend_from_slice(b"ok\n")?,
        Err(JournalError::Refused(fault)) => {
            out.extend_from_slice(fault.code().as_bytes())?;
            out.push(b'\n')?;
        }
        Err(JournalError::NoMemory) => return Err(CaseError::NoMemory),
    }
    Ok(())
}

// Prints why no journal opened, and crashes the disks, since after a fault something may be pending.
fn handed_back(returned: Returned<MemDisk>, out: &mut Vec<u8>) -> Result<Place, CaseError>
    ensures { IfOk result IsReady }
{
    tell(Err(returned.error), out)?;
    Ok(Place::OnDisks(crashed(returned.disks)))
}

// Prints what an opened journal holds.
fn found(
    alloc: Global,
    opened: OpenedJournal<MemDisk>,
    out: &mut Vec<u8>,
) -> Result<Place, CaseError>
    requires good { IsGoodOpened opened }
    requires sound { opened.whole ≡ true → IsSound state_of opened.journal }
    ensures { IfOk result IsReady }
{
    put_base(alloc, &opened.base, out)?;
    put_entries(alloc, opened.entries.as_slice(), out)?;
    if opened.whole {
        out.push(b'\n')?;
        return Ok(Place::InUse(opened.journal));
    }
    out.extend_from_slice(b" a gate is missing\n")?;
    Ok(Place::OnDisks(crashed(opened.journal.into_disks())))
}

fn put_base(alloc: Global, base: &Base, out: &mut Vec<u8>) -> Result<(), NoMemory>
    requires { IsGoodBase base.now }
{
    let bytes = write_base(alloc, base)?;
    put_hex(alloc, &bytes, out)
}

fn put_entries(alloc: Global, entries: &[Entry], out: &mut Vec<u8>) -> Result<(), NoMemory>
    requires { AllByRecursion IsGoodEntry entries.now }
{
    for entry in entries {
        out.push(b' ')?;
        let bytes = write_entry(alloc, entry)?;
        put_hex(alloc, &bytes, out)?;
    }
    Ok(())
}

// Reads the base that `word` spells.
fn base_of(alloc: Global, word: &[u8]) -> Result<Base, CaseError>
    ensures { IfOk result IsGoodBase }
{
    let bytes = bytes_of(alloc, word)?;
    match read_base(alloc, &bytes)? {
        Some(base) => Ok(base),
        None => Err(BAD_WORDS),
    }
}

// Reads the entry that `word` spells.
fn entry_of(alloc: Global, word: &[u8]) -> Result<Entry, CaseError>
    ensures { IfOk result IsGoodEntry }
{
    let bytes = bytes_of(alloc, word)?;
    match read_entry(alloc, &bytes)? {
        Some(entry) => Ok(entry),
        None => Err(BAD_WORDS),
    }
}
