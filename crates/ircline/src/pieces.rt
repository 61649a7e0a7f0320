// A whole stream, from the pieces in which it arrived.
ghost use Rattle.std.specs.Prelude.{◌≡◌, ◌++◌, List, ℕ, IfOk, IfErr, is_some, true, false};
ghost use Rattle.std.specs.List.{flat_map, list_all};
ghost use Rattle.std.specs.Option.{option_to_list};
ghost use Rattle.ircline.specs.Classes.{is_end};
ghost use Rattle.ircline.specs.Stream.{lines_of, begun, last_line};

use crate::line::Line;
use crate::reader::LineReader;
use bytetext::{NoMemory, Text};
use std::alloc::Global;

/// Reads the lines of the stream that arrived in these `pieces`, in order, and last the line that only the stream's end
/// ends. The lines are the same however the stream was cut.
///
/// # Errors
/// `NoMemory` if the lines cannot be allocated; never if every byte is CR or LF, so that there are no lines.
pub fn read_pieces(alloc: Global, pieces: &[Text]) -> Result<Vec<Line>, NoMemory>
    ensures lines { IfOk result (λ lines. let stream = flat_map (λ (piece : List ℕ). piece) pieces.now in
        lines.items ≡ lines_of stream ++ option_to_list (last_line (begun stream))) }
    ensures memory { IfErr result (λ _. list_all is_end (flat_map (λ (piece : List ℕ). piece) pieces.now) ≡ false) }
{
    let mut reader = LineReader::new(alloc);
    let mut lines = Vec::new(alloc);
    for piece in pieces {
        let mut ended = reader.feed(alloc, piece.as_bytes())?;
        lines.append(&mut ended)?;
    }
    let last = reader.finish(alloc)?;
    push_last(&mut lines, last)?;
    Ok(lines)
}

fn push_last(lines: &mut Vec<Line>, last: Option<Line>) -> Result<(), NoMemory>
    ensures last { IfOk result (λ _. lines.new.items ≡ lines.old.items ++ option_to_list last) }
    ensures memory { IfErr result (λ _. is_some last ≡ true) }
{
    if let Some(line) = last {
        lines.push(line)?;
    }
    Ok(())
}
