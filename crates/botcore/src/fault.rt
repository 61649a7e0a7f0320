// Why a bot is not made, and what goes wrong in its steps.
ghost use Rattle.std.specs.Prelude.{◌≡◌};
ghost use Rattle.std.specs.Option.{option_copied};
ghost use Rattle.botcore.specs.Configs.{code_of};
ghost use Rattle.botcore.specs.Making.{of_journal};
ghost use Rattle.botcore.specs.Codes.{action_code, refusal_code, fault_word, fault_proc};

use bottimers::ClockFault;
use bytejournal::{JournalError, JournalFault};
use bytetext::{Failure, NoMemory, TryCopy};
use outqueue::QueueFault;
use procs::{BindFault, Unbound};
use sharelink::LinkFault;
use std::alloc::Global;
use thiserror::Error;

/// Why a bot is not made, in the order in which the causes are tested.
#[derive(Clone, Copy, Debug, PartialEq, Eq, Error)]
pub enum BotFault {
    /// G1: the configuration breaks one of the rules that [`Config`](crate::Config) states.
    #[error("mend the configuration: number, leaves, nick or a channel is out of its range")]
    BadConfig,
    /// J1 if a disk failed; J2 if the disks hold no journal, or not this bot's.
    #[error("{0}")]
    Journal(JournalFault),
}

impl BotFault {
    /// Returns the letter and number that transcripts print.
    pub fn code(self) -> &'static str
        ensures { result.now ≡ code_of self }
    {
        match self {
            BotFault::BadConfig => "G1",
            BotFault::Journal(fault) => fault.code(),
        }
    }
}

/// Why a bot was not made: a fault, or out of memory if there is no fault.
pub type BotError = Failure<BotFault>;

// Turns an error of a journal into an error of a bot.
pub(crate) fn of_journal(error: JournalError) -> BotError
    ensures { result ≡ of_journal error }
{
    match error {
        Failure::Refused(fault) => Failure::Refused(BotFault::Journal(fault)),
        Failure::NoMemory => Failure::NoMemory,
    }
}

/// Why a step is refused.
#[derive(Clone, Copy, Debug, PartialEq, Eq, Error)]
pub enum Refusal {
    /// The link refuses an ask, a pump, a packet, a compaction or a restart.
    #[error("{0}")]
    Link(LinkFault),
    /// The table of binds refuses to make or remove a bind.
    #[error("{0}")]
    Bind(BindFault),
    /// The clock refuses a reading.
    #[error("{0}")]
    Clock(ClockFault),
}

impl Refusal {
    /// Returns the letter and number that transcripts print.
    pub fn code(self) -> &'static str
        ensures { result.now ≡ refusal_code self }
    {
        match self {
            Refusal::Link(fault) => fault.code(),
            Refusal::Bind(fault) => fault.code(),
            Refusal::Clock(fault) => fault.code(),
        }
    }
}

/// Why an action is refused.
#[derive(Clone, Copy, Debug, PartialEq, Eq, Error)]
pub enum ActionFault {
    /// The link refuses an ask or a text.
    #[error("{0}")]
    Link(LinkFault),
    /// The timers refuse to make or remove a timer.
    #[error("{0}")]
    Clock(ClockFault),
    /// A queue refuses a line.
    #[error("{0}")]
    Queue(QueueFault),
}

impl ActionFault {
    /// Returns the letter and number that transcripts print.
    pub fn code(self) -> &'static str
        ensures { result.now ≡ action_code self }
    {
        match self {
            ActionFault::Link(fault) => fault.code(),
            ActionFault::Clock(fault) => fault.code(),
            ActionFault::Queue(fault) => fault.code(),
        }
    }
}

/// What went wrong in a step that is done nevertheless.
#[derive(Debug, Drop)]
pub enum StepFault {
    /// A bind or a due timer was left out because the store lacks its proc.
    Unbound(Unbound),
    /// An action of a proc was refused and left out.
    Action(ActionFault),
    /// A line that the bot queued by itself was refused by its queue and left out.
    Line(QueueFault),
}

impl StepFault {
    /// Returns the word that transcripts print: `Unbound`, or the letter and number of the refusal of an action or a
    /// line.
    pub fn word(&self) -> &'static str
        ensures { result.now ≡ fault_word self.now }
    {
        match self {
            StepFault::Unbound(_) => "Unbound",
            StepFault::Action(fault) => fault.code(),
            StepFault::Line(fault) => fault.code(),
        }
    }

    /// Returns the name of the proc that the store lacks; none for an action or a line.
    pub fn proc(&self) -> Option<&[u8]>
        ensures { option_copied result ≡ fault_proc self.now }
    {
        match self {
            StepFault::Unbound(unbound) => Some(unbound.proc.as_bytes()),
            StepFault::Action(_) | StepFault::Line(_) => None,
        }
    }
}

impl TryCopy for StepFault {
    fn copy(&self, alloc: Global) -> Result<StepFault, NoMemory> {
        match self {
            StepFault::Unbound(unbound) => Ok(StepFault::Unbound(unbound.copy(alloc)?)),
            StepFault::Action(fault) => Ok(StepFault::Action(*fault)),
            StepFault::Line(fault) => Ok(StepFault::Line(*fault)),
        }
    }
}
