// Lines, their words, and the numbers that words stand for.
ghost use Rattle.std.specs.Prelude.{◌≡◌, ◌<◌, ◌≤◌, decimal, drop, length, take, IfSome};
ghost use Rattle.std.specs.List.{prefix_len};
ghost use Rattle.std.specs.Str.{bytes_eq};
ghost use Rattle.handshake.specs.Numbers.{as_written, digit_onto, leaf_in, number_in, wide_from, wide_in};
ghost use Rattle.handshake.specs.Reading.{is_letter, line_len, rest_of, word_of};

use crate::MAX_LINE;
use itoa::Buffer;

/// Returns the length of the first line of `heard` without its line feed, if the first 200 bytes contain that line
/// feed.
pub fn line_len(heard: &[u8]) -> Option<usize>
    ensures value { result ≡ line_len heard.now }
    ensures within { IfSome result (λ len. len < length heard.now) }
    ensures short { IfSome result (λ len. len < MAX_LINE) }
{
    front_of(heard).iter().position(|byte| *byte == b'\n')
}

// The first 200 bytes, or all if there are fewer.
fn front_of(heard: &[u8]) -> &[u8]
    ensures front { result.now ≡ take MAX_LINE heard.now }
    ensures short { length result.now ≤ MAX_LINE }
    ensures within { length result.now ≤ length heard.now }
{
    if heard.len() > MAX_LINE {
        &heard[..MAX_LINE]
    } else {
        heard
    }
}

/// A word, and the bytes after it.
#[derive(Clone, Copy)]
pub struct FirstWord<'a> {
    /// The bytes up to the next space.
    pub word: &'a [u8],
    /// The bytes after that space.
    pub rest: &'a [u8],
}

/// Splits `words` into the first word and the rest.
pub fn cut_word(words: &[u8]) -> FirstWord<'_>
    ensures word { result.word.now ≡ word_of words.now }
    ensures rest { result.rest.now ≡ rest_of words.now }
{
    let len = word_len(words);
    let (word, rest) = words.split_at(len);
    FirstWord {
        word,
        rest: after_one(rest),
    }
}

// The number of bytes before the first space.
fn word_len(words: &[u8]) -> usize
    ensures value { result ≡ prefix_len is_letter words.now }
    ensures within { result ≤ length words.now }
{
    words.iter().take_while(|byte| **byte != b' ').count()
}

/// Returns all bytes but the first.
pub(crate) fn after_one(bytes: &[u8]) -> &[u8]
    ensures { result.now ≡ drop 1 bytes.now }
{
    match bytes {
        [_, rest @ ..] => rest,
        [] => bytes,
    }
}

/// Parses `word` as a number below 65,536 without leading zeros.
pub fn number_in(word: &[u8]) -> Option<u16>
    ensures { result ≡ number_in word.now }
{
    match wide_in(word) {
        Some(value) if value < 65_536 => Some(value as u16),
        Some(_) | None => None,
    }
}

/// Parses `word` as the number of a leaf, from 1.
pub(crate) fn leaf_in(word: &[u8]) -> Option<u16>
    ensures { result ≡ leaf_in word.now }
{
    match number_in(word) {
        Some(0) | None => None,
        Some(leaf) => Some(leaf),
    }
}

/// Parses `word` as a number below 4,294,967,296 without leading zeros.
pub fn wide_in(word: &[u8]) -> Option<u32>
    ensures { result ≡ wide_in word.now }
{
    as_written(word, value_of(word))
}

// The number, if the word is how it is written.
fn as_written(word: &[u8], value: Option<u32>) -> Option<u32>
    ensures { result ≡ as_written word.now value }
{
    let value = value?;
    if is_written(word, value) {
        Some(value)
    } else {
        None
    }
}

// Whether a number is written as this word.
fn is_written(word: &[u8], value: u32) -> bool
    ensures { result ≡ bytes_eq (decimal value) word.now }
{
    let mut buffer = Buffer::new();
    buffer.format(value).as_bytes() == word
}

// The number that the digits of `word` stand for, if it is below 4,294,967,296. An empty `word` stands for 0.
fn value_of(word: &[u8]) -> Option<u32>
    ensures { result ≡ wide_from 0 word.now }
{
    let mut value: u32 = 0;
    for byte in word {
        value = digit_onto(value, *byte)?;
    }
    Some(value)
}

// The number that one more digit makes of `value`, if it is below 4,294,967,296.
fn digit_onto(value: u32, byte: u8) -> Option<u32>
    ensures { result ≡ digit_onto value byte }
{
    if byte < 48 || byte > 57 {
        return None;
    }
    let longer = u64::from(value) * 10 + u64::from(byte - 48);
    if longer < 4_294_967_296 {
        Some(longer as u32)
    } else {
        None
    }
}
