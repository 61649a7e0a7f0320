// The pieces in which a log is written.
ghost use Rattle.std.specs.Prelude.{◌≡◌, ◌<◌, ◌≤◌, length, drop, vec_len};
ghost use Rattle.std.specs.Io.KnownBytes.{Appends};
ghost use Rattle.streams.specs.Calls.{bytes_taken};
ghost use Rattle.net.specs.Logs.{EndsWith, IsLeftAfter};
ghost use Rattle.net.specs.declared.log_piece.TheConstants.{PIECE};

use crate::standard_output::StandardOutput;
use std::fs::File;
use std::io;
use std::io::Write;
use streams::{Taken, offer};

// The most bytes of one write. A pipe that epoll calls writable takes so many without blocking.
const PIECE: usize = 4_096;

// Writes what waits to standard output, until that takes no more, or a write fails.
pub(crate) fn write_out<R: Print>(waiting: &mut Vec<u8>, output: &mut StandardOutput, rt: &R)
    ensures rest { EndsWith waiting.old.items waiting.new.items }
    ensures shorter { vec_len waiting.new ≤ vec_len waiting.old }
{
    while !waiting.is_empty() && output.is_writable() {
        match write_piece(waiting, &mut io::writer(rt)) {
            Taken::Bytes(_) => {}
            Taken::Nothing | Taken::Fault => return,
        }
    }
}

// Writes what waits to `file`, until a write fails.
pub(crate) fn write_to_file(waiting: &mut Vec<u8>, file: &mut File)
    ensures rest { EndsWith waiting.old.items waiting.new.items }
    ensures shorter { vec_len waiting.new ≤ vec_len waiting.old }
{
    while !waiting.is_empty() {
        match write_piece(waiting, file) {
            Taken::Bytes(_) => {}
            Taken::Nothing | Taken::Fault => return,
        }
    }
}

// Writes a piece from the front of `waiting` to `out`, and removes what `out` took.
// Returns what `out` answered.
fn write_piece<W: Write>(waiting: &mut Vec<u8>, out: &mut W) -> Taken
    requires some { 0 < vec_len waiting.old }
    ensures left { IsLeftAfter result waiting.old.items waiting.new.items }
    ensures holds { Appends (W.contents out.old) (W.contents out.new) (bytes_taken result waiting.old.items) }
{
    let piece = piece_len(waiting.as_slice());
    let answer = offer(out, &waiting[..piece]);
    match answer {
        Taken::Bytes(count) => remove_front(waiting, count),
        Taken::Nothing | Taken::Fault => {}
    }
    answer
}

// Returns how many bytes the next piece has: those of the whole lines among the first `PIECE`, or all of these if no line
// ends there.
fn piece_len(waiting: &[u8]) -> usize
    requires { 0 < length waiting.now }
    ensures some { 0 < result }
    ensures most { result ≤ PIECE }
    ensures within { result ≤ length waiting.now }
{
    let most = PIECE.min(waiting.len());
    match memchr::memrchr(b'\n', &waiting[..most]) {
        Some(place) => place + 1,
        None => most,
    }
}

fn remove_front(bytes: &mut Vec<u8>, count: usize)
    requires { count ≤ vec_len bytes.old }
    ensures { bytes.new.items ≡ drop count bytes.old.items }
{
    let _removed = bytes.drain(..count);
}
