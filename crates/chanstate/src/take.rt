// What is taken out of the channels.
ghost use Rattle.std.specs.Prelude.{◌≡◌};
ghost use Rattle.chanstate.specs.Takes.{is_taken};

use crate::seating::Seating;

/// The members of the channel at place `at`, taken out of it.
#[derive(Drop)]
pub struct Take {
    pub(crate) at: usize,
    pub(crate) seating: Seating,
}

// Returns whether something was taken out at place `at`.
pub(crate) fn is_taken(takes: &[Take], at: usize) -> bool
    ensures { result ≡ is_taken at takes.now }
{
    takes.iter().any(|take| take.at == at)
}
