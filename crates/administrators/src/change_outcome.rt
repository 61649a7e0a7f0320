// The outcome of a change.
ghost use Rattle.std.specs.Prelude.{◌≡◌};
ghost use Rattle.administrators.specs.Outcomes.{is_told, of_fault, of_note};

use sharelink::{LinkFault, LinkNote};
use userfile::ChangeFault;

/// The outcome of a change that was asked for, or of a pump.
#[derive(Clone, Copy)]
pub enum ChangeOutcome {
    /// Nothing waits, or it still waits.
    Nothing,
    /// A change was accepted under this number.
    Accepted(u32),
    /// The userfile rejects the change.
    Refused(ChangeFault),
    /// The link rejects it.
    Barred(LinkFault),
}

impl ChangeOutcome {
    /// Whether it says anything.
    pub fn is_told(self) -> bool
        ensures { result ≡ is_told self }
    {
        match self {
            ChangeOutcome::Nothing => false,
            ChangeOutcome::Accepted(_) | ChangeOutcome::Refused(_) | ChangeOutcome::Barred(_) =>
                true,
        }
    }

    /// What the link's refusal says about a change: nothing for a hello of another layout.
    pub fn of_fault(fault: LinkFault) -> ChangeOutcome
        ensures { result ≡ of_fault fault }
    {
        match fault {
            LinkFault::OtherLayout => ChangeOutcome::Nothing,
            LinkFault::Down
            | LinkFault::BadChange(_)
            | LinkFault::AsksFull
            | LinkFault::Diverged
            | LinkFault::NumbersSpent
            | LinkFault::JournalFault
            | LinkFault::BadBotText
            | LinkFault::TextsFull
            | LinkFault::DiskFault => ChangeOutcome::Barred(fault),
        }
    }

    /// What the link's note of a step says about a change.
    pub fn of_note(note: &LinkNote) -> ChangeOutcome
        ensures { result ≡ of_note note.now }
    {
        match note {
            LinkNote::Accepted(number) => ChangeOutcome::Accepted(*number),
            LinkNote::Refused(fault) => ChangeOutcome::Refused(*fault),
            LinkNote::Queued
            | LinkNote::Idle
            | LinkNote::Sent(_)
            | LinkNote::Served(_)
            | LinkNote::Old
            | LinkNote::Repeat
            | LinkNote::Gap
            | LinkNote::Early
            | LinkNote::Applied(_)
            | LinkNote::Kept(_)
            | LinkNote::Installed(_)
            | LinkNote::Compacted
            | LinkNote::Relayed
            | LinkNote::Text { from: _, text: _ }
            | LinkNote::Stray
            | LinkNote::Restarted(_) => ChangeOutcome::Nothing,
        }
    }
}
