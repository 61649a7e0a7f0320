// Numbers as words.
ghost use Rattle.std.specs.Prelude.{◌≡◌, ◌^◌};
ghost use Rattle.std.specs.List.{list_all};
ghost use Rattle.recordtext.specs.Words.{below, is_digit, number_below, value_of};

/// Returns the number that the digits of `word` mean, if it is below 2^64.
pub fn number(word: &[u8]) -> Option<u64>
    ensures { result ≡ number_below (2 ^ 64) word.now }
{
    if word.is_empty() || !are_digits(word) {
        return None;
    }
    value_of(word)
}

/// Returns the number that the digits of `word` mean, if it is below 65,536.
pub fn bot_number(word: &[u8]) -> Option<u16>
    ensures { result ≡ number_below 65536 word.now }
{
    let number = number(word)?;
    if number < 65536 {
        Some(number as u16)
    } else {
        None
    }
}

fn are_digits(word: &[u8]) -> bool
    ensures { result ≡ list_all is_digit word.now }
{
    word.iter().all(|byte| is_digit(*byte))
}

fn is_digit(byte: u8) -> bool
    ensures { result ≡ is_digit byte }
{
    byte >= 48 && byte <= 57
}

// What digits mean, if that is below 2^64.
fn value_of(word: &[u8]) -> Option<u64>
    ensures { result ≡ below (2 ^ 64) (value_of word.now) }
{
    let mut value: u64 = 0;
    for byte in word {
        let digit = u64::from(byte.saturating_sub(48));
        value = value.checked_mul(10)?.checked_add(digit)?;
    }
    Some(value)
}
