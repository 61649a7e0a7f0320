// Why a link rejects a call.
ghost use Rattle.std.specs.Prelude.{◌≡◌};
ghost use Rattle.sharelink.specs.Codes.{link_code};

use bytetext::Failure;
use thiserror::Error;
use userfile::ChangeFault;

/// An error of a link, by its letter and number.
#[derive(Clone, Copy, Debug, PartialEq, Eq, Error)]
pub enum LinkFault {
    /// S2: since the journal was last opened, a disk failed or a restart did not finish. The link takes nothing but a
    /// restart.
    #[error("the bot is down: restart it")]
    Down,
    /// The asked change has a bad shape: its own code.
    #[error("{0}")]
    BadChange(ChangeFault),
    /// S1: 64 asks wait here.
    #[error("too many asks wait here: pump the bot first")]
    AsksFull,
    /// S8: a leaf's hello has another layout than the hub's.
    #[error("the other bot has another layout: run one version of the program on all bots")]
    OtherLayout,
    /// S3: the hub's next change doesn't apply to the leaf's records, or its parts are no userfile.
    #[error("the leaf's records have diverged from the hub's: create the leaf again")]
    Diverged,
    /// S4: the version, the request number or the journal's generation is 4,294,967,295.
    #[error("the numbers are spent: create the net again")]
    NumbersSpent,
    /// S5: a disk failed while the journal was written. The link is down, and what was being written may count or not.
    #[error("a disk failed: restart the bot, which shows whether the change counts")]
    JournalFault,
    /// S7: there is no such bot, it is the sender itself, or no bot may send such a text.
    #[error("no such text goes there: 1 to 400 bytes without NUL, CR and LF, to another bot of the net")]
    BadBotText,
    /// S6: the step has sent 64 texts.
    #[error("too many texts in one step: send the others in a later one")]
    TextsFull,
    /// J1: a disk failed while the journal was reopened. The link is down.
    #[error("a disk failed: restart the bot again")]
    DiskFault,
}

impl LinkFault {
    /// Returns the letter and number that transcripts print.
    pub fn code(self) -> &'static str
        ensures { result.now ≡ link_code self }
    {
        match self {
            LinkFault::Down => "S2",
            LinkFault::BadChange(fault) => fault.code(),
            LinkFault::AsksFull => "S1",
            LinkFault::OtherLayout => "S8",
            LinkFault::Diverged => "S3",
            LinkFault::NumbersSpent => "S4",
            LinkFault::JournalFault => "S5",
            LinkFault::BadBotText => "S7",
            LinkFault::TextsFull => "S6",
            LinkFault::DiskFault => "J1",
        }
    }
}

/// Why a call did no more than its row says: a rule forbids it, a disk failed, or else memory ran out. `NoMemory` comes
/// only when the call keeps or journals something, hands on a text or sends packets. It leaves the link as it was; only
/// a restart that fails this way leaves the link down.
pub type LinkError = Failure<LinkFault>;
