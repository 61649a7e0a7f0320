// Why a replay ends early.
use script::ScriptFault;
use thiserror::Error;

/// Why [`replay`](crate::replay) ended early.
#[derive(Clone, Copy, Debug, PartialEq, Eq, Error)]
pub enum ReplayError {
    /// The script breaks a rule. Nothing was done or written.
    #[error("{0}")]
    Script(ScriptFault),
    /// The stream failed when it was asked for bytes, or would have blocked. Nothing was done or written.
    #[error("read fault")]
    Read,
    /// The stream failed while it wrote or flushed, or took no bytes. A prefix of the transcript was written.
    #[error("write fault")]
    Write,
    /// Memory could not be allocated. Nothing was written.
    #[error("out of memory")]
    NoMemory,
}
