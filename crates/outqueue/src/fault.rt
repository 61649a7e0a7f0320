// Why a line isn't queued.
ghost use Rattle.std.specs.Prelude.{◌≡◌};
ghost use Rattle.outqueue.specs.Refusals.{code_of};

use bytetext::Failure;
use thiserror::Error;

/// Why a line is refused, in the order in which it is tested.
#[derive(Clone, Copy, Debug, PartialEq, Eq, Error)]
pub enum QueueFault {
    /// The line is empty, longer than 510 bytes, or holds a NUL, a CR or an LF (RFC 2812 section 2.3).
    #[error("give a line of 1 to 510 bytes without NUL, CR and LF")]
    BadLine,
    /// The queue holds 500 lines, or 500 answers to PING wait.
    #[error("wait until lines have been sent, or clear the queue")]
    QueueFull,
    /// As many lines of the server queue and the help queue as one target may have wait for the target of this line.
    #[error("wait until lines to this nick or channel have been sent")]
    ShareFull,
}

impl QueueFault {
    /// Returns the short code that transcripts print: `Q2`, `Q1` or `Q3`.
    pub fn code(self) -> &'static str
        ensures { result.now ≡ code_of self }
    {
        match self {
            QueueFault::BadLine => "Q2",
            QueueFault::QueueFull => "Q1",
            QueueFault::ShareFull => "Q3",
        }
    }
}

/// Why [`Queues::put`](crate::Queues::put) or [`Queues::put_once`](crate::Queues::put_once) did not queue a line: a
/// fault, or out of memory if there is no fault. The queues are unchanged.
pub type PutError = Failure<QueueFault>;
