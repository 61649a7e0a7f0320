// The lower case of a byte and of a text.
ghost use Rattle.std.specs.Prelude.{◌≡◌, ◌==◌, ◌<◌, ◌↔◌, IsTrue, MatchResult, length, slice_index};
ghost use Rattle.rfccase.specs.Casemapping.{low, folded, IsSame, low_by, folded_by, IsSameBy};
ghost use Rattle.rfccase.specs.Table.{lower_cases};

use crate::casemappings::Casemapping;
use bytetext::{NoMemory, bytes_of};
use std::alloc::Global;

/// Returns the lower case of `byte`, or `byte` itself if it has none (RFC 2812 section 2.2).
pub fn fold(byte: u8) -> u8
    ensures lower { result ≡ low byte }
    ensures table { result ≡ slice_index lower_cases byte }
{
    match byte {
        b'A'..=b']' => byte + 32,
        b'~' => b'^',
        _ => byte,
    }
}

/// Returns whether `a` and `b` are the same but for the case of their bytes.
pub fn same(a: &[u8], b: &[u8]) -> bool
    ensures { IsTrue result ↔ IsSame a.now b.now }
{
    same_by(Casemapping::Rfc1459, a, b)
}

/// Replaces each byte of `text` by its lower case.
pub fn fold_slice(text: &mut [u8])
    ensures { text.new ≡ folded text.old }
{
    for byte in text.iter_mut() {
        *byte = fold(*byte);
    }
}

/// Returns the lower case of `text`.
///
/// # Errors
/// `NoMemory` if the copy cannot be allocated; never if `text` is empty.
pub fn fold_text(alloc: Global, text: &[u8]) -> Result<Vec<u8>, NoMemory>
    ensures { MatchResult result (λ lower. lower.items ≡ folded text.now) (λ _. 0 < length text.now) }
{
    let mut lower = bytes_of(alloc, text)?;
    fold_slice(&mut lower);
    Ok(lower)
}

/// The lower case of a byte by a server's casemapping.
pub fn fold_by(mapping: Casemapping, byte: u8) -> u8
    ensures { result ≡ low_by mapping byte }
{
    match byte {
        b'A'..=b']' if byte <= b'Z' || mapping.folds_brackets() => byte + 32,
        b'~' if mapping.folds_tilde() => b'^',
        _ => byte,
    }
}

/// Whether two texts are the same by a server's casemapping.
pub fn same_by(mapping: Casemapping, a: &[u8], b: &[u8]) -> bool
    ensures { IsTrue result ↔ IsSameBy mapping a.now b.now }
{
    if a.len() != b.len() {
        return false;
    }
    // Many names of one network begin alike.
    let len = a.len();
    if len > 0 && !is_same_byte(mapping, a[len - 1], b[len - 1]) {
        return false;
    }
    for (i, byte) in a.iter().enumerate() {
        if !is_same_byte(mapping, *byte, b[i]) {
            return false;
        }
    }
    true
}

// Whether two bytes have the same lower case by a server's casemapping. Most that do are equal; others are 32 apart.
fn is_same_byte(mapping: Casemapping, a: u8, b: u8) -> bool
    ensures { result ≡ (low_by mapping a == low_by mapping b) }
{
    a == b || (a.abs_diff(b) == 32 && fold_by(mapping, a) == fold_by(mapping, b))
}

/// Puts the lower case of each byte by a server's casemapping in its place.
pub fn fold_slice_by(mapping: Casemapping, text: &mut [u8])
    ensures { text.new ≡ folded_by mapping text.old }
{
    for byte in text.iter_mut() {
        *byte = fold_by(mapping, *byte);
    }
}

/// The lower case of a text by a server's casemapping.
///
/// # Errors
/// `NoMemory` where room for the copy is refused: never where the text is empty.
pub fn fold_text_by(alloc: Global, mapping: Casemapping, text: &[u8]) -> Result<Vec<u8>, NoMemory>
    ensures { MatchResult result (λ lower. lower.items ≡ folded_by mapping text.now) (λ _. 0 < length text.now) }
{
    let mut lower = bytes_of(alloc, text)?;
    fold_slice_by(mapping, &mut lower);
    Ok(lower)
}
