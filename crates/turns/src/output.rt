// Writes lines to a server.
ghost use Rattle.std.specs.Prelude.{◌≡◌, ◌++◌, ◌∷◌, [], OnErr, OnOk};
ghost use Rattle.std.specs.List.{flat_map};
ghost use Rattle.streams.specs.Transfers.{Writes, WritesFront, WritesOut};
ghost use Rattle.turns.specs.Driving.{text_of};

use bytetext::{Text, Texts};
use streams::{Stream, WriteFault, write_all};

// Writes the lines of all these lists, each with CR and LF, and flushes. If the stream fails or takes nothing, only a
// prefix is written.
pub(crate) fn write_out<S: Stream>(stream: &mut S, lists: &[Texts]) -> Result<(), WriteFault>
    ensures ok { OnOk result (WritesOut (S.sink stream.old) (flat_map text_of lists.now) (S.sink stream.new)) }
    ensures err { OnErr result (WritesFront (S.sink stream.old) (flat_map text_of lists.now) (S.sink stream.new)) }
    ensures other { S.source stream.new ≡ S.source stream.old }
{
    match write_lists(stream, lists) {
        Ok(()) => stream.flush(),
        Err(fault) => Err(fault),
    }
}

// Writes the lines of all these lists, each with CR and LF.
fn write_lists<S: Stream>(stream: &mut S, lists: &[Texts]) -> Result<(), WriteFault>
    ensures ok { OnOk result (Writes (S.sink stream.old) (flat_map text_of lists.now) (S.sink stream.new)) }
    ensures err { OnErr result (WritesFront (S.sink stream.old) (flat_map text_of lists.now) (S.sink stream.new)) }
    ensures other { S.source stream.new ≡ S.source stream.old }
{
    for lines in lists {
        match write_lines(stream, lines.as_slice()) {
            Ok(()) => {}
            Err(fault) => return Err(fault),
        }
    }
    Ok(())
}

// Writes lines, each with CR and LF.
fn write_lines<S: Stream>(stream: &mut S, lines: &[Text]) -> Result<(), WriteFault>
    ensures ok { OnOk result (Writes (S.sink stream.old) (text_of lines.now) (S.sink stream.new)) }
    ensures err { OnErr result (WritesFront (S.sink stream.old) (text_of lines.now) (S.sink stream.new)) }
    ensures other { S.source stream.new ≡ S.source stream.old }
{
    for line in lines {
        match write_line(stream, line.as_bytes()) {
            Ok(()) => {}
            Err(fault) => return Err(fault),
        }
    }
    Ok(())
}

// Writes a line with CR and LF.
fn write_line<S: Stream>(stream: &mut S, line: &[u8]) -> Result<(), WriteFault>
    ensures ok { OnOk result (Writes (S.sink stream.old) (line.now ++ 13 ∷ 10 ∷ []) (S.sink stream.new)) }
    ensures err { OnErr result (WritesFront (S.sink stream.old) (line.now ++ 13 ∷ 10 ∷ []) (S.sink stream.new)) }
    ensures other { S.source stream.new ≡ S.source stream.old }
{
    match write_all(stream, line) {
        Ok(()) => write_all(stream, b"\r\n"),
        Err(fault) => Err(fault),
    }
}
