// The rest of a line: a word that takes all that follows, spaces and all.
ghost use Rattle.std.specs.Prelude.{◌≡◌, ◌≢◌, ◌∷◌, ◌+◌, ◌<◌, length, map, None, IfOk, IfErr};
ghost use Rattle.recordtext.specs.Words.{line_of, rest_of};

use bytetext::{NoMemory, Text, bytes_of};
use std::alloc::Global;

/// Returns the rest of a line, the words `first` and `rest` with one space between each two, or `None` if it is empty.
///
/// # Errors
/// `NoMemory` if memory cannot be allocated; never if the rest is empty.
pub fn rest_of(alloc: Global, first: &[u8], rest: &[&[u8]]) -> Result<Option<Text>, NoMemory>
    ensures text { IfOk result (λ text. text ≡ rest_of (first.now ∷ map (λ word. word.now) rest.now)) }
    ensures memory { IfErr result (λ _. rest_of (first.now ∷ map (λ word. word.now) rest.now) ≢ None) }
{
    let line = line_of(alloc, first, rest)?;
    if line.is_empty() {
        return Ok(None);
    }
    Ok(Some(Text::new(line)))
}

// Words as a line, with one space between each two.
fn line_of(alloc: Global, first: &[u8], rest: &[&[u8]]) -> Result<Vec<u8>, NoMemory>
    ensures line { IfOk result (λ line. line.items ≡ line_of (first.now ∷ map (λ word. word.now) rest.now)) }
    ensures memory { IfErr result (λ _. 0 < length first.now + length rest.now) }
{
    let mut line = bytes_of(alloc, first)?;
    for word in rest {
        line.push(b' ')?;
        line.extend_from_slice(word)?;
    }
    Ok(line)
}
