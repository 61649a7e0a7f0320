// Why a store or a list of actions rejects a call.
ghost use Rattle.std.specs.Prelude.{◌≡◌};
ghost use Rattle.procs.specs.Faults.{add_code, call_code};

use bytetext::Failure;
use thiserror::Error;

/// Why a proc is not added, in the order in which the causes are tested.
#[derive(Clone, Copy, Debug, PartialEq, Eq, Error)]
pub enum AddFault {
    /// P1: the store has a proc of this name, byte for byte.
    #[error("a proc has this name: pick another")]
    NameTaken,
    /// P2: the store holds 200 procs.
    #[error("the store is full: it holds at most 200 procs")]
    Full,
}

impl AddFault {
    /// Returns the letter and number that transcripts print.
    pub fn code(self) -> &'static str
        ensures { result.now ≡ add_code self }
    {
        match self {
            AddFault::NameTaken => "P1",
            AddFault::Full => "P2",
        }
    }
}

/// Why a proc was not added: a fault, or out of memory if there is no fault.
pub type AddError = Failure<AddFault>;

/// Why no proc was called.
#[derive(Clone, Copy, Debug, PartialEq, Eq, Error)]
pub enum CallFault {
    /// P3: the store has no proc of this name, byte for byte.
    #[error("no proc has this name: add it to the store first")]
    NoSuchProc,
}

impl CallFault {
    /// Returns the letter and number that transcripts print.
    pub fn code(self) -> &'static str
        ensures { result.now ≡ call_code self }
    {
        match self {
            CallFault::NoSuchProc => "P3",
        }
    }
}

/// Why a call by name has no reply: a fault, or P4, which says that the proc itself ran out of memory. The store does
/// not allocate.
pub type CallError = Failure<CallFault>;

/// Why a reply can't have these actions.
#[derive(Clone, Copy, Debug, PartialEq, Eq, Error)]
pub enum ActionsFault {
    /// There would be more than eight.
    #[error("a reply has at most eight actions: leave some out")]
    TooMany,
}

/// Why an action was not appended: a fault, or out of memory if there is no fault.
pub type PushError = Failure<ActionsFault>;
