// The lines of a hub's book.
ghost use Rattle.std.specs.Prelude.{◌≡◌, ◌<◌, ◌==◌, IfSome, length, position};
ghost use Rattle.handshake.specs.Books.{IsFirst, bar_line, entry_after, entry_line, free_line, line_in, other_in};

use crate::drawn_number::DrawnNumber;
use crate::line::HandshakeLine;
use crate::words::{after_one, cut_word, leaf_in};
use itoa::Buffer;

/// A line of a hub's book.
#[derive(Clone, Copy)]
pub enum BookLine {
    /// The folder with this number is the leaf.
    Enters { leaf: u16, made: DrawnNumber },
    /// No folder is the leaf.
    Frees { leaf: u16 },
    /// The folder with this number never joins again.
    Bars { made: DrawnNumber },
}

/// Returns the line by which the folder with the number `made` is `leaf`: `leaf N MADE`, with its line feed.
pub fn entry_line(leaf: u16, made: &DrawnNumber) -> HandshakeLine
    ensures { result ≡ entry_line leaf made.now }
{
    let mut buffer = Buffer::new();
    let mut line = HandshakeLine::empty();
    line.put(b"leaf ");
    line.put(buffer.format(leaf).as_bytes());
    line.put(b" ");
    line.put(made.as_bytes());
    line.put(b"\n");
    line
}

/// Returns the line by which no folder is `leaf`: `free N`, with its line feed.
pub fn free_line(leaf: u16) -> HandshakeLine
    ensures { result ≡ free_line leaf }
{
    let mut buffer = Buffer::new();
    let mut line = HandshakeLine::empty();
    line.put(b"free ");
    line.put(buffer.format(leaf).as_bytes());
    line.put(b"\n");
    line
}

/// Returns the line by which the folder with the number `made` never joins again: `bar MADE`, with its line feed.
pub fn bar_line(made: &DrawnNumber) -> HandshakeLine
    ensures { result ≡ bar_line made.now }
{
    let mut line = HandshakeLine::empty();
    line.put(b"bar ");
    line.put(made.as_bytes());
    line.put(b"\n");
    line
}

/// Parses `line`, without its line feed. Returns `None` if a hub writes no such line.
pub(crate) fn line_in(line: &[u8]) -> Option<BookLine>
    ensures { result ≡ line_in line.now }
{
    match line.strip_prefix(b"leaf ") {
        Some(words) => entry_after(words),
        None => other_in(line),
    }
}

fn entry_after(words: &[u8]) -> Option<BookLine>
    ensures { result ≡ entry_after words.now }
{
    let leaf = cut_word(words);
    Some(BookLine::Enters {
        leaf: leaf_in(leaf.word)?,
        made: DrawnNumber::read(leaf.rest)?,
    })
}

// A line that does not begin with `leaf `.
fn other_in(line: &[u8]) -> Option<BookLine>
    ensures { result ≡ other_in line.now }
{
    match line.strip_prefix(b"free ") {
        Some(word) => Some(BookLine::Frees {
            leaf: leaf_in(word)?,
        }),
        None => Some(BookLine::Bars {
            made: DrawnNumber::read(line.strip_prefix(b"bar ")?)?,
        }),
    }
}

/// The first line of some bytes, and the bytes after it.
#[derive(Clone, Copy)]
pub struct FirstLine<'a> {
    /// What the line says.
    pub line: BookLine,
    /// The bytes after its line feed.
    pub rest: &'a [u8],
}

/// Parses the first line of `bytes`. Returns `None` if no line feed ends it, or a hub writes no such line.
pub fn first_line(bytes: &[u8]) -> Option<FirstLine<'_>>
    ensures { IsFirst bytes.now result }
{
    let Some(end) = line_end(bytes) else {
        return None;
    };
    let (line, rest) = bytes.split_at(end);
    match line_in(line) {
        Some(line) => Some(FirstLine {
            line,
            rest: after_one(rest),
        }),
        None => None,
    }
}

// The place of the first line feed.
fn line_end(bytes: &[u8]) -> Option<usize>
    ensures place { result ≡ position (λ b. b == 10) bytes.now }
    ensures within { IfSome result (λ end. end < length bytes.now) }
{
    bytes.iter().position(|byte| *byte == b'\n')
}
