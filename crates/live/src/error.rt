// Why a live botnet ends early.
use crate::fault::{LiveFault, LiveScriptError};
use crate::reason::LiveReason;
use crate::socket_fault::SocketFault;
use bytetext::{Failure, NoMemory};
use replay::ReplayError;
use script::ScriptFault;
use std::io;
use std::io::ErrorKind;
use thiserror::Error;

/// Why [`live`](crate::live) ended early.
#[derive(Clone, Copy, Debug, PartialEq, Eq, Error)]
pub enum LiveError {
    /// The script breaks a rule. No socket was opened, and nothing was written.
    #[error("{0}")]
    Script(LiveFault),
    /// The stream failed when it was asked for bytes. No socket was opened, and nothing was written.
    #[error("read fault")]
    Read,
    /// The stream failed while it wrote, or took no bytes.
    #[error("write fault")]
    Write,
    /// A socket can't be opened or waited for, or the system doesn't say its port.
    #[error("socket fault\n{0}")]
    Socket(SocketFault),
    /// The turns of an `until` are used up, and a bot is still below the version.
    #[error("stalled")]
    Stalled,
    /// Memory could not be allocated.
    #[error("out of memory")]
    NoMemory,
}

impl From<NoMemory> for LiveError {
    fn from(_refused: NoMemory) -> LiveError {
        LiveError::NoMemory
    }
}

impl From<io::Error> for LiveError {
    fn from(failed: io::Error) -> LiveError {
        match failed.kind() {
            ErrorKind::OutOfMemory => LiveError::NoMemory,
            _ => LiveError::Socket(SocketFault::of(&failed)),
        }
    }
}

impl From<LiveScriptError> for LiveError {
    fn from(error: LiveScriptError) -> LiveError {
        match error {
            Failure::Refused(fault) => LiveError::Script(fault),
            Failure::NoMemory => LiveError::NoMemory,
        }
    }
}

impl From<ReplayError> for LiveError {
    fn from(error: ReplayError) -> LiveError {
        match error {
            ReplayError::Script(ScriptFault { line, reason }) => {
                let reason = LiveReason::Script(reason);
                LiveError::Script(LiveFault { line, reason })
            }
            ReplayError::Read => LiveError::Read,
            ReplayError::Write => LiveError::Write,
            ReplayError::NoMemory => LiveError::NoMemory,
        }
    }
}
