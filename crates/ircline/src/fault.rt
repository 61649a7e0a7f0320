// What is wrong with a line, or with a message to print.
ghost use Rattle.std.specs.Prelude.{◌≡◌, codes};
ghost use Rattle.ircline.specs.Codes.{code_of};

use bytetext::Failure;
use thiserror::Error;

/// Why a line is not a message. The faults are tested in this order.
#[derive(Clone, Copy, Debug, PartialEq, Eq, Error)]
pub enum LineFault {
    /// The line has more than 510 bytes before its end (RFC 2812 section 2.3: 512 with CR and LF).
    #[error("the line is too long: send at most 510 bytes before its end")]
    TooLong,
    /// The line holds a NUL byte.
    #[error("the line holds a NUL byte: leave it out")]
    NulByte,
    /// The line begins with a colon, and no name follows it.
    #[error("the prefix names nobody: put a nick or a server's name after the colon")]
    BadPrefix,
    /// The line has no command, or one that is neither letters nor three digits.
    #[error("the line has no command: send letters alone or three digits")]
    BadCommand,
}

impl LineFault {
    /// Returns the short code of this fault: `L1`, `L4`, `L2` or `L3`, in the order in which the faults are tested.
    pub fn code(self) -> &'static str
        ensures { result.now ≡ code_of self }
    {
        match self {
            LineFault::TooLong => "L1",
            LineFault::NulByte => "L4",
            LineFault::BadPrefix => "L2",
            LineFault::BadCommand => "L3",
        }
    }
}

/// The message's line would not read back. Either a line cannot carry its prefix or its command, or there are more than
/// 15 parameters, or a parameter before the last is empty, begins with a colon or holds a space, or a byte is NUL, CR
/// or LF, or the line would have more than 510 bytes before its end.
#[derive(Clone, Copy, Debug, PartialEq, Eq, Error)]
#[error("no line can carry this message: mend its parts, or make them shorter")]
pub struct NotPrintable;

impl NotPrintable {
    /// Returns the short code of this fault: `L5`.
    pub fn code(self) -> &'static str
        ensures { result.now ≡ codes "L5" }
    {
        "L5"
    }
}

/// Why a message was not printed: [`Failure::Refused`] if its line would not read back, and [`Failure::NoMemory`] if it
/// would but could not be allocated.
pub type PrintError = Failure<NotPrintable>;
