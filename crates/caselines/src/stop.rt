// Why there is no answer.
use bytetext::{Failure, NoMemory};
use std::alloc::AllocError;
use std::io;
use std::io::ErrorKind;
use thiserror::Error;

/// Why a line is no case.
#[derive(Clone, Copy, Debug, Error)]
pub enum CaseFault {
    /// Its first word names no case.
    #[error("no such case")]
    NoSuchCase,
    /// The words after the first are not those that the case takes.
    #[error("other words than this case takes")]
    BadWords,
    /// A word in hexadecimal spells no bytes.
    #[error("after x: come hexadecimal digits, two for a byte")]
    BadHex,
    /// A word that must be a number is none, or is out of its range.
    #[error("a number that is none or is out of its range")]
    BadNumber,
    /// It speaks of something that no line before it made.
    #[error("no line before it made what it speaks of")]
    NotMade,
}

/// Why a case was not answered.
pub type CaseError = Failure<CaseFault>;

/// The words after the first are not those that the case takes.
pub const BAD_WORDS: CaseError = Failure::Refused(CaseFault::BadWords);

/// A word that must be a number is none, or is out of its range.
pub const BAD_NUMBER: CaseError = Failure::Refused(CaseFault::BadNumber);

/// The case speaks of something that no line before it made.
pub const NOT_MADE: CaseError = Failure::Refused(CaseFault::NotMade);

/// The case's first word names no case.
pub const NO_SUCH_CASE: CaseError = Failure::Refused(CaseFault::NoSuchCase);

/// Why the program ends early.
#[derive(Clone, Copy, Debug, Error)]
pub enum Stop {
    /// There is more input than is read.
    #[error("more than 1048576 bytes of input")]
    TooLong,
    /// A line is no case.
    #[error("line {line}: {fault}")]
    NoCase {
        /// The line's number, from 1.
        line: usize,
        /// What is wrong with it.
        fault: CaseFault,
    },
    /// The input can't be read, or the answers can't be written.
    #[error("reading or writing failed")]
    Stream,
    /// An allocation failed.
    #[error("out of memory: free some and try again")]
    NoMemory,
}

impl Stop {
    /// Returns the status that the program ends with.
    pub fn status(self) -> u8 {
        match self {
            Stop::TooLong | Stop::NoCase { .. } => 1,
            Stop::Stream => 3,
            Stop::NoMemory => 4,
        }
    }

    /// Returns why the line of number `line`, with the fault `error`, ended the program.
    pub fn at(line: usize, error: CaseError) -> Stop {
        match error {
            CaseError::Refused(fault) => Stop::NoCase { line, fault },
            CaseError::NoMemory => Stop::NoMemory,
        }
    }
}

impl From<NoMemory> for Stop {
    fn from(_refused: NoMemory) -> Stop {
        Stop::NoMemory
    }
}

impl From<AllocError> for Stop {
    fn from(_refused: AllocError) -> Stop {
        Stop::NoMemory
    }
}

impl From<io::Error> for Stop {
    fn from(error: io::Error) -> Stop {
        match error.kind() {
            ErrorKind::OutOfMemory => Stop::NoMemory,
            _ => Stop::Stream,
        }
    }
}
