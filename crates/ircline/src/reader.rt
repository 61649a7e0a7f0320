// Reads the lines of a stream of bytes, in whatever pieces it arrives.
ghost use Rattle.std.specs.Prelude.{◌≡◌, ℕ, List, [], ◌++◌, map, take, drop, length, false, ◌<◌, ◌≤◌, IfOk, IfErr, IsTrue, OnErr};
ghost use Rattle.std.specs.List.{list_all};
ghost use Rattle.ircline.specs.Classes.{filled, is_end};
ghost use Rattle.ircline.specs.Reading.{line_of, TakesMemory};
ghost use Rattle.ircline.specs.Stream.{with_run, runs_from, rest_from, lines_of, begun, held_of, last_line};

use crate::line::Line;
use crate::read::{LIMIT, first_end, read_run};
use crate::words::parted;
use bytetext::{NoMemory, TryCopy, bytes_of};
use std::alloc::Global;
use std::marker::Model;

/// Reads the lines of a stream, piece by piece. CR alone and LF alone end a line, and empty lines are skipped.
///
/// Contracts see the bytes of the run that has begun and not ended, at most the first 511: a run of more than 510 bytes
/// is one bad line whatever it holds, so the reader keeps no more.
///
/// ```text
/// let mut reader = LineReader::new(alloc);
/// for line in reader.feed(alloc, b"PING :irc.test\r\nPRIV")? { .. }
/// ```
#[derive(Debug, Drop)]
pub struct LineReader {
    held: Vec<u8>,
}

impl Model for LineReader {
    ghost use Rattle.std.specs.Prelude.{List, ℕ, length, ◌≤◌};

    ghost Value = { List ℕ };

    ghost view = { λ r. r.held.items };

    ghost invariant = { λ r. length r.held.items ≤ 511 };
}

impl LineReader {
    /// Creates a reader at the beginning of a stream. Does not allocate.
    pub fn new(alloc: Global) -> LineReader
        ensures { result ≡ [] }
    {
        LineReader {
            held: Vec::new(alloc),
        }
    }

    /// Reads the next `piece` of the stream, and returns the lines that it ends, in order.
    ///
    /// # Errors
    /// `NoMemory` if the lines, or the run that has begun, cannot be allocated; never if `piece` is empty. The reader
    /// is then unchanged, and the caller can feed the piece again.
    pub fn feed(&mut self, alloc: Global, piece: &[u8]) -> Result<Vec<Line>, NoMemory>
        // For any stream whose unfinished run is held, its lines continue with these.
        ensures lines { (stream : List ℕ) → self.old ≡ held_of stream
            → IfOk result (λ lines. lines_of (stream ++ piece.now) ≡ lines_of stream ++ lines.items) }
        ensures held { (stream : List ℕ) → self.old ≡ held_of stream
            → IfOk result (λ _. self.new ≡ held_of (stream ++ piece.now)) }
        ensures few { length self.new ≤ 511 }
        // If no run has begun, a piece of only CR and LF does not allocate.
        ensures memory { self.old ≡ [] → OnErr result (list_all is_end piece.now ≡ false) }
        ensures some { OnErr result (0 < length piece.now) }
        ensures err { OnErr result (self.new ≡ self.old) }
    {
        let held = self.held.as_slice();
        if piece.is_empty() {
            return Ok(Vec::new(alloc));
        }
        let (front, rest) = parted(piece, first_end(piece));
        let run = joined(alloc, held, front)?;
        let mut lines = Vec::new(alloc);
        if rest.is_empty() {
            self.held = run;
            return Ok(lines);
        }
        push_line(alloc, &mut lines, run.as_slice())?;
        let tail = push_lines(alloc, &mut lines, rest)?;
        self.held = joined(alloc, tail, b"")?;
        Ok(lines)
    }

    /// Returns the line that the stream's end ends, if there is one. The reader is then at the beginning of a stream.
    ///
    /// # Errors
    /// `NoMemory` if the line cannot be allocated. The reader is then unchanged.
    pub fn finish(&mut self, alloc: Global) -> Result<Option<Line>, NoMemory>
        ensures line { (stream : List ℕ) → self.old ≡ held_of stream
            → IfOk result (λ line. line ≡ last_line (begun stream)) }
        // If no run has begun, or the run reads as a fault, the call does not allocate.
        ensures memory { OnErr result (IsTrue (filled self.old) × TakesMemory (line_of self.old)) }
        ensures empty { IfOk result (λ _. self.new ≡ []) }
        ensures err { OnErr result (self.new ≡ self.old) }
    {
        let line = last_line(alloc, self.held.as_slice())?;
        self.held.clear();
        Ok(line)
    }
}

impl TryCopy for LineReader {
    fn copy(&self, alloc: Global) -> Result<LineReader, NoMemory> {
        let held = Vec::from_slice(alloc, self.held.as_slice())?;
        Ok(LineReader { held })
    }
}

// The bytes of both, but no more than it takes to show that a run is too long.
fn joined(alloc: Global, front: &[u8], back: &[u8]) -> Result<Vec<u8>, NoMemory>
    ensures run { IfOk result (λ run. run.items ≡ take 511 (front.now ++ back.now)) }
    ensures few { IfOk result (λ run. length run.items ≤ 511) }
    ensures memory { IfErr result (λ _. 0 < length (front.now ++ back.now)) }
{
    let front = first_bytes(front, LIMIT + 1);
    let mut run = bytes_of(alloc, front)?;
    run.extend_from_slice(first_bytes(back, LIMIT + 1 - front.len()))?;
    Ok(run)
}

// The first `most` bytes, or all if there are fewer.
fn first_bytes(bytes: &[u8], most: usize) -> &[u8]
    ensures bytes { result.now ≡ take most bytes.now }
    ensures few { length result.now ≤ most }
{
    if bytes.len() <= most {
        bytes
    } else {
        &bytes[..most]
    }
}

// Reads the last run, if it isn't empty.
fn last_line(alloc: Global, run: &[u8]) -> Result<Option<Line>, NoMemory>
    ensures line { IfOk result (λ line. line ≡ last_line run.now) }
    ensures memory { OnErr result (IsTrue (filled run.now) × TakesMemory (line_of run.now)) }
{
    if run.is_empty() {
        return Ok(None);
    }
    Ok(Some(read_run(alloc, run)?))
}

// Appends what `run` reads as to `lines`, if the run isn't empty.
fn push_line(alloc: Global, lines: &mut Vec<Line>, run: &[u8]) -> Result<(), NoMemory>
    ensures lines { IfOk result (λ _. lines.new.items ≡ lines.old.items ++ map line_of (with_run run.now [])) }
    ensures memory { IfErr result (λ _. 0 < length run.now) }
{
    if !run.is_empty() {
        lines.push(read_run(alloc, run)?)?;
    }
    Ok(())
}

// Appends the lines of `text` to `lines`, and returns the run after its last end. The text is empty, or begins with
// an end.
fn push_lines<'a>(
    alloc: Global,
    lines: &mut Vec<Line>,
    text: &'a [u8],
) -> Result<&'a [u8], NoMemory>
    ensures lines { IfOk result (λ _. lines.new.items ≡ lines.old.items ++ lines_of text.now) }
    ensures rest { IfOk result (λ rest. rest.now ≡ begun text.now) }
    ensures memory { IfErr result (λ _. list_all is_end text.now ≡ false) }
{
    let mut text = text;
    loop {
        let (run, rest) = parted(text, first_end(text));
        let [_, behind @ ..] = rest else {
            return Ok(run);
        };
        push_line(alloc, lines, run)?;
        text = behind;
    }
}
