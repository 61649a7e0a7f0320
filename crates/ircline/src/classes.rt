// The classes of words that a line is made of (RFC 2812 section 2.3.1), as tests.
ghost use Rattle.std.specs.Prelude.{◌≡◌};
ghost use Rattle.std.specs.List.{list_all};
ghost use Rattle.ircline.specs.Classes.{is_end, octet, nospcrlf, middle, trailing, letter, digit, command, names};
ghost use Rattle.ircline.specs.Carrying.{capital, kept_command};

use crate::prefix::nick;

// Whether the byte ends a line.
pub(crate) fn is_end(byte: u8) -> bool
    ensures { result ≡ is_end byte }
{
    byte == b'\r' || byte == b'\n'
}

// Whether the byte may stand in a line.
fn is_octet(byte: u8) -> bool
    ensures { result ≡ octet byte }
{
    byte != 0 && !is_end(byte)
}

// Whether the byte may stand in a word of a line.
fn is_nospcrlf(byte: u8) -> bool
    ensures { result ≡ nospcrlf byte }
{
    is_octet(byte) && byte != b' '
}

// Whether each byte may stand in a word of a line.
fn is_word(text: &[u8]) -> bool
    ensures { result ≡ list_all nospcrlf text.now }
{
    text.iter().all(|byte| is_nospcrlf(*byte))
}

/// Returns whether `text` may be a parameter before the last one.
pub fn is_middle(text: &[u8]) -> bool
    ensures { result ≡ middle text.now }
{
    match text {
        [] => false,
        [first, ..] => *first != b':' && is_word(text),
    }
}

/// Returns whether `text` may be the last parameter.
pub fn is_trailing(text: &[u8]) -> bool
    ensures { result ≡ trailing text.now }
{
    text.iter().all(|byte| is_octet(*byte))
}

fn is_letter(byte: u8) -> bool
    ensures { result ≡ letter byte }
{
    matches!(byte, b'A'..=b'Z' | b'a'..=b'z')
}

fn is_digit(byte: u8) -> bool
    ensures { result ≡ digit byte }
{
    matches!(byte, b'0'..=b'9')
}

fn is_letters(text: &[u8]) -> bool
    ensures { result ≡ list_all letter text.now }
{
    text.iter().all(|byte| is_letter(*byte))
}

fn is_digits(text: &[u8]) -> bool
    ensures { result ≡ list_all digit text.now }
{
    text.iter().all(|byte| is_digit(*byte))
}

/// Returns whether `text` is a command: letters, or three digits.
pub fn is_command(text: &[u8]) -> bool
    ensures { result ≡ command text.now }
{
    (!text.is_empty() && is_letters(text)) || (text.len() == 3 && is_digits(text))
}

fn is_capital(byte: u8) -> bool
    ensures { result ≡ capital byte }
{
    matches!(byte, b'A'..=b'Z')
}

fn is_capitals(text: &[u8]) -> bool
    ensures { result ≡ list_all capital text.now }
{
    text.iter().all(|byte| is_capital(*byte))
}

/// Returns whether `text` is a command as messages keep it: letters in upper case, or three digits.
pub fn is_kept_command(text: &[u8]) -> bool
    ensures { result ≡ kept_command text.now }
{
    (!text.is_empty() && is_capitals(text)) || (text.len() == 3 && is_digits(text))
}

/// Returns whether `text` may be a prefix.
pub fn is_prefix(text: &[u8]) -> bool
    ensures { result ≡ names text.now }
{
    is_word(text) && !nick(text).is_empty()
}
