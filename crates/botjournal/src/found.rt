// What a ledger's calls return.
use crate::base::Base;
use crate::entry::Entry;
use bytetext::{Failure, Seq};
use disks::DiskFault;
use thiserror::Error;

/// What a ledger's disks held when it was opened.
#[derive(Drop)]
pub struct Found {
    /// The base that counts.
    pub base: Base,
    /// The entries appended since, the oldest first.
    pub entries: Seq<Entry>,
}

/// Why a ledger rejects an append or a restart. From an append, `NoMemory` means that nothing was written.
pub type LedgerError = Failure<DiskFault>;

/// Why a base isn't replaced.
#[derive(Clone, Copy, Debug, PartialEq, Eq, Error)]
pub enum RebaseFault {
    /// The generations are used up: nothing was written.
    #[error("make the journal again on empty disks: its generations are used up")]
    GenerationsSpent,
    /// A disk failed in this call. The new base may count or not: a restart shows which.
    #[error("restart: a disk failed, and what was written counts or not")]
    DiskFault,
}

/// Why a ledger rejects a rebase. `NoMemory` means that nothing was written.
pub type RebaseError = Failure<RebaseFault>;
