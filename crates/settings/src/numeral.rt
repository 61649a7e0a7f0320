// Numbers as words.
ghost use Rattle.std.specs.Prelude.{◌≡◌, ◌<◌};
ghost use Rattle.bytetext.specs.Numerals.{digit_onto, is_digit, number_from};
ghost use Rattle.settings.specs.Words.{number_of, port_of};

/// Returns the number that `word` spells in digits, if it is below 65,536.
pub fn number(word: &[u8]) -> Option<u16>
    ensures { result ≡ number_of word.now }
{
    if word.is_empty() {
        return None;
    }
    value_of_digits(word)
}

/// Returns the number that the digits of `word` stand for, if it is below 65,536. An empty `word` stands for 0.
pub fn value_of_digits(word: &[u8]) -> Option<u16>
    ensures { result ≡ number_from 0 word.now }
{
    let mut value: u16 = 0;
    for byte in word {
        value = digit_onto(value, *byte)?;
    }
    Some(value)
}

// The number that one more digit makes of `value`, if it is below 65,536.
fn digit_onto(value: u16, byte: u8) -> Option<u16>
    ensures { result ≡ digit_onto value byte }
{
    if byte < 48 || byte > 57 {
        return None;
    }
    let longer = u32::from(value) * 10 + u32::from(byte - 48);
    if longer < 65_536 {
        Some(longer as u16)
    } else {
        None
    }
}

/// Returns the port that `word` spells: a number other than 0.
pub fn port(word: &[u8]) -> Option<u16>
    ensures { result ≡ port_of word.now }
{
    match number(word) {
        Some(0) | None => None,
        Some(port) => Some(port),
    }
}
