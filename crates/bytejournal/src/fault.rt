// Why a journal refuses a call.
ghost use Rattle.std.specs.Prelude.{◌≡◌};
ghost use Rattle.bytejournal.specs.Faults.{code_of};

use bytetext::Failure;
use thiserror::Error;

/// Why a journal rejects a call.
#[derive(Clone, Copy, Debug, PartialEq, Eq, Error)]
pub enum JournalFault {
    /// A disk failed in this call. What was being written may count or not: open the journal again to find out.
    #[error("a disk failed: open the journal again")]
    DiskFault,
    /// The two disks don't hold a journal: no gate is open, what follows an open gate isn't a journal's, or both gates
    /// are open with the same generation.
    #[error("the disks hold no journal: create one, or give its own disks")]
    NotAJournal,
    /// A disk failed in an earlier call.
    #[error("a disk failed before: open the journal again")]
    Spent,
    /// The generations are used up, so no other base can be written.
    #[error("the generations are used up: create a new journal")]
    GenerationsSpent,
}

impl JournalFault {
    /// Returns the short code that transcripts print: `J1` to `J4`.
    pub fn code(self) -> &'static str
        ensures { result.now ≡ code_of self }
    {
        match self {
            JournalFault::DiskFault => "J1",
            JournalFault::NotAJournal => "J2",
            JournalFault::Spent => "J3",
            JournalFault::GenerationsSpent => "J4",
        }
    }
}

/// Why a journal's call did nothing, or left open whether it did. A journal tests for faults first and makes all room
/// before it writes. So `NoMemory` says that the disks are as they were, and that no fault stood in the way of the
/// call.
pub type JournalError = Failure<JournalFault>;
