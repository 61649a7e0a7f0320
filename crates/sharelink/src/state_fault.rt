// Why a journal belongs to no end of the link.
use bytetext::Failure;
use thiserror::Error;

/// Why a journal, or one more entry of it, is rejected.
#[derive(Clone, Copy, Debug, PartialEq, Eq, Error)]
pub enum StateFault {
    /// The base is another bot's or holds records that no userfile holds, or an entry is one that this end doesn't
    /// write in the state before it.
    #[error("not a journal of this bot: give the disks that this bot wrote")]
    NotAJournal,
}

/// Why nothing was read or taken: `Refused` if the input is not the bot's, or `NoMemory` if it cannot allocate.
pub type StateError = Failure<StateFault>;
