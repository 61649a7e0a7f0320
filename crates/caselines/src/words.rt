// The words of a case.
ghost use Rattle.std.specs.Prelude.{◌≡◌, ◌≤◌, ◌-◌, length, IfErr};
ghost use Rattle.bytetext.specs.declared.failure.Failure.TheVariants.{Refused};
ghost use Rattle.caselines.specs.declared.stop.CaseFault.TheVariants.{BadNumber as bad_number};

use crate::stop::{BAD_NUMBER, CaseError, CaseFault};
use bottimers::{ClockFault, Zone};
use bytetext::{Failure, Text};
use hex::FromHexError;
use std::alloc::Global;
use std::str::FromStr;

/// Returns the words of `line`: bare, between single quotes, or `x:` and hexadecimal digits.
pub fn words_of(alloc: Global, line: &[u8]) -> Result<Vec<Text>, CaseError> {
    let mut words = Vec::new(alloc);
    let mut rest = line;
    while let [first, others @ ..] = rest {
        if *first == b' ' {
            rest = others;
        } else if *first == b'\'' {
            let (word, left) = cut(others, b'\'');
            words.push(Text::from_slice(alloc, word)?)?;
            rest = left;
        } else {
            let (word, left) = cut(rest, b' ');
            words.push(bare(alloc, word)?)?;
            rest = left;
        }
    }
    Ok(words)
}

/// Returns what stands in `text` before the first byte `at`, and what stands after it.
pub fn cut(text: &[u8], at: u8) -> (&[u8], &[u8])
    ensures { length result.1.now ≤ length text.now - 1 }
{
    match text.iter().position(|byte| *byte == at) {
        Some(end) => (&text[..end], &text[end + 1..]),
        None => (text, &text[text.len()..]),
    }
}

/// Returns the number that `word` spells. Does not allocate.
///
/// # Errors
/// `BadNumber` if it spells none.
pub fn number<T: FromStr>(word: &[u8]) -> Result<T, CaseError>
where
    T::Err: Drop,
    ensures { IfErr result (λ why. why ≡ Refused bad_number) }
{
    match std::str::from_utf8(word) {
        Ok(digits) => digits.parse::<T>().map_err(|_| BAD_NUMBER),
        Err(_) => Err(BAD_NUMBER),
    }
}

// The text of a word without quotes.
fn bare(alloc: Global, word: &[u8]) -> Result<Text, CaseError> {
    match word {
        [b'x', b':', digits @ ..] => bytes_of(alloc, digits),
        _ => Ok(Text::from_slice(alloc, word)?),
    }
}

// The bytes that hexadecimal digits spell.
fn bytes_of(alloc: Global, digits: &[u8]) -> Result<Text, CaseError> {
    match hex::decode(alloc, digits) {
        Ok(bytes) => Ok(Text::new(bytes)),
        Err(FromHexError::OutOfMemory) => Err(Failure::NoMemory),
        Err(_) => Err(Failure::Refused(CaseFault::BadHex)),
    }
}

/// Returns the zone that `word` spells: minutes ahead of UTC, or a rule of POSIX.
pub fn zone_of(word: &[u8]) -> Result<Zone, ClockFault> {
    match number::<i32>(word) {
        Ok(minutes) => Zone::fixed(minutes),
        Err(_) => Zone::posix(word),
    }
}
