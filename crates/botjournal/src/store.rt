// Where a ledger's disks are.
ghost use Rattle.botjournal.specs.Stores.{IsSomewhere, AreIn};

use crate::base::Base;
use crate::entry::Entry;
use crate::journal::BotJournal;
use bytejournal::Disks;
use disks::Disk;
use std::snapshot::Snapshot;

#[derive(Drop)]
pub(crate) enum Store<D: Disk> {
    /// In a journal, which is spent after a fault.
    Open(BotJournal<D>),
    /// In no journal: a restart could not open one.
    Shut(Disks<D>),
    /// With the restart that reopens them. No caller sees a ledger in this state.
    InHand,
}

impl<D: Disk> Store<D> {
    /// The two disks, in the order in which they were given.
    pub(crate) fn into_disks(self) -> Disks<D>
        requires { IsSomewhere self }
        ensures { AreIn self result }
    {
        match self {
            Store::Open(journal) => journal.into_disks(),
            Store::Shut(disks) => disks,
            Store::InHand => unreachable!(),
        }
    }
}

// What was being written when a disk failed, for contracts alone.
#[derive(Drop)]
pub(crate) enum Doubt {
    Adding(Snapshot<Entry>),
    Rebasing(Snapshot<Base>),
}
