// Why a leaf can't be promoted or start over.
ghost use Rattle.std.specs.Prelude.{◌≡◌};
ghost use Rattle.promotion.specs.Faults.{IsUnread, of_folder, of_heir};

use botfolder::{FolderError, FolderFault};
use bytejournal::JournalFault;
use bytetext::Failure;
use sharelink::{LinkError, LinkFault};
use thiserror::Error;

/// Why a leaf can't be promoted or start over. Each message continues the folder's name:
/// `/var/lib/eggnet/egg0 is a hub's: ..`.
#[derive(Clone, Copy, Debug, PartialEq, Eq, Error)]
pub enum PromotionFault {
    /// The folder of the leaf can't be used.
    #[error("{0}")]
    Folder(FolderFault),
    /// The folder of the heir can't be made. The message continues its name.
    #[error("{0}")]
    Heir(FolderFault),
    /// The folder in which the heir is to be made is a bot's. The message continues the heir's name.
    #[error("can't be made: the folder of this name with .heir after it is a bot's, so give another name")]
    Beside,
    /// It is the folder of a hub, which needs no heir.
    #[error("is a hub's: start the hub on it, or give the folder of a leaf")]
    IsHub,
    /// It has no file `net`: the leaf has never met a hub, or this is a copy that `backup` made.
    #[error("is of no net: give the folder of a leaf that has joined one, with its file net")]
    NoNet,
    /// Its file `net` does not hold a number.
    #[error("holds a file net that is no number: bring it back, 16 digits and a line feed")]
    BadNet,
    /// Its journal has an older layout.
    #[error("holds a journal of an older layout: start its leaf once by this version of eggnet, end it, and try again")]
    OlderLayout,
    /// What it holds is no journal of a bot.
    #[error("holds no journal that can be read: bring back its files, or give the folder of another leaf")]
    Unread,
    /// Its journal's generations are used up.
    #[error("holds a journal whose generations are used up: give the folder of another leaf")]
    GenerationsSpent,
    /// It is of another net than the first folder.
    #[error("is of another net than the first folder: give folders of one net")]
    OtherNet,
    /// The system draws no number for the heir's net.
    #[error("can't be promoted: the system draws no number, so try again")]
    System,
}

/// Why a leaf can't be promoted or start over, or `NoMemory` if an allocation failed.
pub type PromotionError = Failure<PromotionFault>;

// The leaf's folder can't be used, or memory runs out.
pub(crate) fn folder_error(error: FolderError) -> PromotionError
    ensures { result ≡ of_folder error }
{
    match error {
        Failure::Refused(fault) => Failure::Refused(PromotionFault::Folder(fault)),
        Failure::NoMemory => Failure::NoMemory,
    }
}

// The heir's folder can't be made, or memory runs out.
pub(crate) fn heir_error(error: FolderError) -> PromotionError
    ensures { result ≡ of_heir error }
{
    match error {
        Failure::Refused(fault) => Failure::Refused(PromotionFault::Heir(fault)),
        Failure::NoMemory => Failure::NoMemory,
    }
}

// The copies of the leaf's disks hold no journal that can be read, or memory runs out.
pub(crate) fn journal_error(error: Failure<JournalFault>) -> PromotionError
    ensures { IsUnread result }
{
    match error {
        Failure::Refused(JournalFault::GenerationsSpent) => {
            Failure::Refused(PromotionFault::GenerationsSpent)
        }
        Failure::Refused(
            JournalFault::NotAJournal | JournalFault::DiskFault | JournalFault::Spent,
        ) => Failure::Refused(PromotionFault::Unread),
        Failure::NoMemory => Failure::NoMemory,
    }
}

// The state alone can't be written into the copies of the leaf's disks.
pub(crate) fn link_error(error: LinkError) -> PromotionError
    ensures { IsUnread result }
{
    match error {
        Failure::Refused(LinkFault::NumbersSpent) => {
            Failure::Refused(PromotionFault::GenerationsSpent)
        }
        Failure::Refused(
            LinkFault::Down
            | LinkFault::BadChange(_)
            | LinkFault::AsksFull
            | LinkFault::OtherLayout
            | LinkFault::Diverged
            | LinkFault::JournalFault
            | LinkFault::BadBotText
            | LinkFault::TextsFull
            | LinkFault::DiskFault,
        ) => Failure::Refused(PromotionFault::Unread),
        Failure::NoMemory => Failure::NoMemory,
    }
}
