// Writes a text to a stream.
ghost use Rattle.std.specs.Prelude.{◌≡◌, OnOk, IfErr};
ghost use Rattle.streams.specs.Transfers.{WritesFront, WritesOut};

use crate::error::ReplayError;
use streams::{Stream, WriteFault, write_out};

/// Writes the whole `text` to `stream` and flushes it.
///
/// # Errors
/// `Write` if the stream fails or takes no bytes. Only a prefix of the text is then written.
pub fn write_text<S: Stream>(stream: &mut S, text: &[u8]) -> Result<(), ReplayError>
    ensures ok { OnOk result (WritesOut (S.sink stream.old) text.now (S.sink stream.new)) }
    ensures err { IfErr result (λ e. (e ≡ ReplayError.Write) × WritesFront (S.sink stream.old) text.now
        (S.sink stream.new)) }
    ensures other { S.source stream.new ≡ S.source stream.old }
{
    match write_out(stream, text) {
        Ok(()) => Ok(()),
        Err(WriteFault) => Err(ReplayError::Write),
    }
}
