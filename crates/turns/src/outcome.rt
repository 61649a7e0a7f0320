// What a step reports besides what it has to send.
use botcore::{Faults, Note};
use bytetext::Seq;
use procs::MadeCalls;

/// What a step reports besides what it has to send.
pub struct DriveOutcome {
    /// For a line that is not a message, the rule that it breaks. A message and a reading of the clock have no note.
    pub note: Option<Note>,
    /// The calls that were made, in order.
    pub calls: MadeCalls,
    /// What was left out or refused, in the order of [`Report`](botcore::Report).
    pub faults: Faults,
}

// Written by hand, so that it is proved once and not in each function that drops one.
impl Drop for DriveOutcome {
    fn drop(self) {
        let DriveOutcome {
            note: _,
            calls: _,
            faults: _,
        } = self;
    }
}

impl DriveOutcome {
    ghost use Rattle.std.specs.Prelude.{◌≡◌};
    ghost use Rattle.turns.specs.Driving.{is_silent};

    // Whether there is nothing to report.
    pub(crate) fn is_silent(&self) -> bool
        ensures { result ≡ is_silent self.now }
    {
        self.note.is_none() && self.calls.is_empty() && self.faults.is_empty()
    }
}

/// The outcomes of steps, in order.
pub type DriveOutcomes = Seq<DriveOutcome>;
