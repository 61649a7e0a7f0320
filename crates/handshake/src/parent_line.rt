// The line of the file `parent`, in which an heir's hub names the net that it goes on from.
ghost use Rattle.std.specs.Prelude.{◌≡◌, ◌<◌, ℕ, List, Some, IfSome};
ghost use Rattle.handshake.specs.Digits.{digits_in};
ghost use Rattle.handshake.specs.Parents.{IsParentLine, ends_line, parent_in, parent_line, parent_named};

use crate::drawn_number::DrawnNumber;
use crate::words::{FirstWord, cut_word, wide_in};

/// Parses the content of the file `parent`: the number of the net that an heir goes on from, a space, the version of the
/// leaf that was promoted, and a line feed. Returns that number, or `None` if a promotion writes no such line.
pub fn parent_in(bytes: &[u8]) -> Option<DrawnNumber>
    ensures written { IfSome result (λ net. IsParentLine net bytes.now) }
    // Each line that a promotion writes is read.
    ensures read { (net : List ℕ) (version : ℕ) → digits_in 16 net ≡ Some net → version < 4294967296
        → bytes.now ≡ parent_line net version → result ≡ Some net }
{
    in_line(bytes)
}

// The number of the net that a whole line names.
fn in_line(bytes: &[u8]) -> Option<DrawnNumber>
    ensures { result ≡ parent_in bytes.now }
{
    if ends_line(bytes) {
        named(&bytes[..bytes.len() - 1])
    } else {
        None
    }
}

// Whether the last byte is a line feed.
fn ends_line(bytes: &[u8]) -> bool
    ensures { result ≡ ends_line bytes.now }
{
    !bytes.is_empty() && bytes[bytes.len() - 1] == b'\n'
}

// The number of the net that a line names, without its line feed.
fn named(front: &[u8]) -> Option<DrawnNumber>
    ensures { result ≡ parent_named front.now }
{
    let FirstWord { word, rest } = cut_word(front);
    if wide_in(rest).is_some() {
        DrawnNumber::read(word)
    } else {
        None
    }
}
