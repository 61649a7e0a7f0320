// Why an examination ends early.
use thiserror::Error;

/// Why an examination ends early.
#[derive(Clone, Copy, Debug, Error)]
pub enum DoctorFault {
    /// Standard output can't be written.
    #[error("standard output can't be written: give one that takes the lines")]
    Write,
    /// An allocation failed.
    #[error("out of memory: free some and try again")]
    NoMemory,
}
