// What one call of a reader or a writer answers.
ghost use Rattle.std.specs.Prelude.{◌≡◌, ◌<◌, length};
ghost use Rattle.std.specs.Io.KnownBytes.{Appends, Consumes, Keeps};
ghost use Rattle.streams.specs.Answers.{given_by, taken_by};
ghost use Rattle.streams.specs.Calls.{FitsIn, IsFrontOf, IsTrueEnd, bytes_given, bytes_taken};

use crate::obstacle::{Obstacle, obstacle_of};
use crate::stream::{Given, Taken};
use std::io;
use std::io::{Read, Write};

/// Asks `reader` for bytes, again after each interruption, and puts them at the front of `buffer`. Returns `Stall` if
/// the call would block, or if `reader` is a socket that is still connecting, and `Fault` after any other error or
/// 2 ^ 64 - 1 interruptions. For implementers of [`Stream`](crate::Stream).
pub fn ask<R: Read>(reader: &mut R, buffer: &mut [u8]) -> Given
    requires { 0 < length buffer.old }
    ensures fits { FitsIn buffer.new result }
    ensures left { Consumes (R.remaining reader.old) (R.remaining reader.new) (bytes_given result buffer.new) }
    ensures end { IsTrueEnd result (R.remaining reader.new) }
{
    for _turn in 0..u64::MAX {
        if let Some(answer) = given_by(reader.read(buffer)) {
            return answer;
        }
    }
    Given::Fault
}

// Returns what a reader's `answer` means, or `None` if the call was interrupted.
fn given_by(answer: io::Result<usize>) -> Option<Given>
    ensures { result ≡ given_by answer }
{
    match answer {
        Ok(0) => Some(Given::End),
        Ok(count) => Some(Given::Bytes(count)),
        Err(error) => match obstacle_of(error.kind()) {
            Obstacle::Interruption => None,
            Obstacle::Wait => Some(Given::Stall),
            Obstacle::Fault => Some(Given::Fault),
        },
    }
}

/// Offers `bytes` to `writer`, again after each interruption. Returns `Nothing` if the call would block, or if `writer`
/// is a socket that is still connecting, and `Fault` after any other error or 2 ^ 64 - 1 interruptions. For implementers
/// of [`Stream`](crate::Stream).
pub fn offer<W: Write>(writer: &mut W, bytes: &[u8]) -> Taken
    requires { 0 < length bytes.now }
    ensures front { IsFrontOf bytes.now result }
    ensures holds { Appends (W.contents writer.old) (W.contents writer.new) (bytes_taken result bytes.now) }
{
    for _turn in 0..u64::MAX {
        if let Some(answer) = taken_by(writer.write(bytes)) {
            return answer;
        }
    }
    Taken::Fault
}

// Returns what a writer's `answer` means, or `None` if the call was interrupted.
fn taken_by(answer: io::Result<usize>) -> Option<Taken>
    ensures { result ≡ taken_by answer }
{
    match answer {
        Ok(0) => Some(Taken::Nothing),
        Ok(count) => Some(Taken::Bytes(count)),
        Err(error) => match obstacle_of(error.kind()) {
            Obstacle::Interruption => None,
            Obstacle::Wait => Some(Taken::Nothing),
            Obstacle::Fault => Some(Taken::Fault),
        },
    }
}
