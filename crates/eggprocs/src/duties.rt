// Who of the bots on a channel does what a proc requests there.
ghost use Rattle.std.specs.Prelude.{◌≡◌};
ghost use Rattle.eggprocs.specs.Turns.{needs_op, takes_turns, is_each, is_heard_by_all};

use procs::CallKind;

/// Who of the bots on a channel does what a proc requests there. A bot counts if the userfile knows it as a user with
/// the flag `b` everywhere.
#[derive(Clone, Copy, Debug)]
pub enum Duty {
    /// Each bot.
    Each,
    /// The first bot, and no other.
    First,
    /// The first bot of those that are operators, and no other.
    FirstOp,
    /// The first bot at once, and each other one at its turn if it is still to be done.
    Turns,
    /// The same among the bots that are operators.
    TurnsOp,
}

// Whether only operators count.
pub(crate) fn needs_op(duty: Duty) -> bool
    ensures { result ≡ needs_op duty }
{
    matches!(duty, Duty::FirstOp | Duty::TurnsOp)
}

// Whether the others look later.
pub(crate) fn takes_turns(duty: Duty) -> bool
    ensures { result ≡ takes_turns duty }
{
    matches!(duty, Duty::Turns | Duty::TurnsOp)
}

// Whether each bot does it.
pub(crate) fn is_each(duty: Duty) -> bool
    ensures { result ≡ is_each duty }
{
    matches!(duty, Duty::Each)
}

// Whether all bots on a channel get a call of this kind.
pub(crate) fn is_heard_by_all(kind: CallKind) -> bool
    ensures { result ≡ is_heard_by_all kind }
{
    matches!(
        kind,
        CallKind::Pub | CallKind::Pubm | CallKind::Join | CallKind::Mode
    )
}
