// Bytes written whole.
ghost use Rattle.std.specs.Prelude.{◌≡◌, OnErr, OnOk};
ghost use Rattle.streams.specs.Transfers.{Writes, WritesFront, WritesOut};

use crate::stream::{Stream, Taken, WriteFault};

/// Writes all of `bytes` to `stream`, without a flush.
///
/// # Errors
/// Returns `WriteFault` if the stream fails, or takes none of the bytes that are left. It has then taken the bytes
/// before them.
pub fn write_all<S: Stream>(stream: &mut S, bytes: &[u8]) -> Result<(), WriteFault>
    ensures ok { OnOk result (Writes (S.sink stream.old) bytes.now (S.sink stream.new)) }
    ensures err { OnErr result (WritesFront (S.sink stream.old) bytes.now (S.sink stream.new)) }
    ensures other { S.source stream.new ≡ S.source stream.old }
{
    let mut rest = bytes;
    while !rest.is_empty() {
        match stream.take(rest) {
            Taken::Bytes(count) => rest = &rest[count..],
            Taken::Nothing | Taken::Fault => return Err(WriteFault),
        }
    }
    Ok(())
}

/// Writes all of `bytes` to `stream` and flushes it.
///
/// # Errors
/// Returns `WriteFault` if the stream fails, takes none of the bytes that are left, or fails to flush. It has then
/// taken the bytes before those, or all bytes if only the flush failed.
pub fn write_out<S: Stream>(stream: &mut S, bytes: &[u8]) -> Result<(), WriteFault>
    ensures ok { OnOk result (WritesOut (S.sink stream.old) bytes.now (S.sink stream.new)) }
    ensures err { OnErr result (WritesFront (S.sink stream.old) bytes.now (S.sink stream.new)) }
    ensures other { S.source stream.new ≡ S.source stream.old }
{
    match write_all(stream, bytes) {
        Ok(()) => stream.flush(),
        Err(fault) => Err(fault),
    }
}
