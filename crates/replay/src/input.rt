// A script's bytes.
ghost use Rattle.std.specs.Prelude.{◌≡◌, IfOk, IfErr};
ghost use Rattle.replay.specs.Ending.{GivesScript, GivesNone};

use crate::error::ReplayError;
use script::MAX_SCRIPT;
use std::alloc::Global;
use streams::{ReadError, Stream, read_up_to};

/// Reads the bytes of a script from `stream`, at most one byte more than a script may have.
///
/// # Errors
/// `Read` if the stream fails or would block; `NoMemory` if memory cannot be allocated.
pub fn script_bytes<S: Stream>(alloc: Global, stream: &mut S) -> Result<Vec<u8>, ReplayError>
    ensures read { IfOk result (λ bytes. GivesScript (S.source stream.old) bytes.items (S.source stream.new)) }
    ensures fails { IfErr result (λ e. GivesNone e (S.source stream.old) (S.source stream.new)) }
    ensures other { S.sink stream.new ≡ S.sink stream.old }
{
    match read_up_to(alloc, stream, MAX_SCRIPT + 1) {
        Ok(bytes) => Ok(bytes),
        Err(ReadError::Fault) => Err(ReplayError::Read),
        Err(ReadError::NoMemory) => Err(ReplayError::NoMemory),
    }
}
