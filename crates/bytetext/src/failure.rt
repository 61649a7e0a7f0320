// The two-level error of every call in this repository that can break a rule and can run out of memory.
ghost use Rattle.std.specs.Prelude.{◌≡◌};
ghost use Rattle.bytetext.specs.Refusals.{refused_with};
ghost use Rattle.bytetext.specs.declared.failure.Failure.TheVariants.{NoMemory as no_memory};

use crate::memory::NoMemory;
use std::alloc::{AllocError, AllocFailed};
use std::fmt::Display;
use thiserror::Error;

/// Why a call changed nothing: a rule forbids it, or else an allocation failed.
///
/// `F` is the crate's enum of faults, in the order in which they are tested. A fault takes precedence over `NoMemory`,
/// so `NoMemory` also says that no rule forbids the call.
#[derive(Clone, Copy, Debug, PartialEq, Eq, Drop, Error)]
#[error_bound(F: Display)]
pub enum Failure<F> {
    /// A rule forbids the call.
    #[error("{0}")]
    Refused(F),
    /// An allocation failed, and no rule forbids the call.
    #[error("out of memory: free some and try again")]
    NoMemory,
}

impl<F> From<NoMemory> for Failure<F> {
    ghost from_gives = { λ _ e. e ≡ no_memory };

    fn from(_refused: NoMemory) -> Failure<F> {
        Failure::NoMemory
    }
}

impl<F> From<AllocError> for Failure<F> {
    ghost from_gives = { λ _ e. e ≡ no_memory };

    fn from(_refused: AllocError) -> Failure<F> {
        Failure::NoMemory
    }
}

impl<F, T: Drop> From<AllocFailed<T>> for Failure<F> {
    ghost from_gives = { λ _ e. e ≡ no_memory };

    fn from(_refused: AllocFailed<T>) -> Failure<F> {
        Failure::NoMemory
    }
}

/// Returns `Refused` with the `fault` if there is one, else `Ok`.
pub fn refuse<F>(fault: Option<F>) -> Result<(), Failure<F>>
    ensures { result ≡ refused_with fault }
{
    match fault {
        Some(fault) => Err(Failure::Refused(fault)),
        None => Ok(()),
    }
}
