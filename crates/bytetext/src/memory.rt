// The out-of-memory error.
use std::alloc::{AllocError, AllocFailed};
use thiserror::Error;

/// An allocation failed. A call that returns it leaves its receiver as it was, and the caller may try again.
#[derive(Clone, Copy, Debug, PartialEq, Eq, Error)]
#[error("out of memory: free some and try again")]
pub struct NoMemory;

impl From<AllocError> for NoMemory {
    fn from(_refused: AllocError) -> NoMemory {
        NoMemory
    }
}

impl<T: Drop> From<AllocFailed<T>> for NoMemory {
    fn from(_refused: AllocFailed<T>) -> NoMemory {
        NoMemory
    }
}
