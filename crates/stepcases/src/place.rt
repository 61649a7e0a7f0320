// Where a journal is.
ghost use Rattle.std.specs.Prelude.{IfOk};
ghost use Rattle.disks.specs.State.{IsSettled};
ghost use Rattle.disks.specs.Memory.{state_of};
ghost use Rattle.botjournal.specs.Journal.{IsSound};
ghost use Rattle.stepcases.specs.Place.{IsReady};

use botjournal::BotJournal;
use bytejournal::Disks;
use caselines::{CaseError, NOT_MADE};
use disks::{Disk as _, MemDisk};

/// Where the journal of a case is.
#[derive(Drop)]
pub enum Place {
    /// On two disks that no journal uses.
    OnDisks(Disks<MemDisk>),
    /// In use.
    InUse(BotJournal<MemDisk>),
}

/// Takes the disks from `place`. If a journal uses them, they are as a crash leaves them.
pub fn disks_of(place: Place) -> Disks<MemDisk>
    requires { IsReady place }
    ensures first { IsSettled (state_of result.first) }
    ensures second { IsSettled (state_of result.second) }
{
    match place {
        Place::OnDisks(disks) => disks,
        Place::InUse(journal) => crashed(journal.into_disks()),
    }
}

/// Returns what a crash leaves of `disks`.
pub fn crashed(disks: Disks<MemDisk>) -> Disks<MemDisk>
    ensures first { IsSettled (state_of result.first) }
    ensures second { IsSettled (state_of result.second) }
{
    let mut disks = disks;
    disks.first.reopen();
    disks.second.reopen();
    disks
}

/// Takes the open journal from `place`. Returns `NOT_MADE` if none is open.
pub fn journal_of(place: Place) -> Result<BotJournal<MemDisk>, CaseError>
    requires { IsReady place }
    ensures { IfOk result (λ journal. IsSound state_of journal) }
{
    match place {
        Place::InUse(journal) => Ok(journal),
        Place::OnDisks(_) => Err(NOT_MADE),
    }
}
