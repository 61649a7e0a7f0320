// Hexadecimal digits.
ghost use Rattle.std.specs.Prelude.{◌≡◌, length};
ghost use Rattle.std.specs.List.{list_all};
ghost use Rattle.handshake.specs.Digits.{is_digit, are_digits};

/// Whether `word` has exactly `count` digits, `0` to `9` and `a` to `f`, and nothing else.
pub fn are_digits(count: usize, word: &[u8]) -> bool
    ensures { result ≡ are_digits count word.now }
{
    if word.len() != count {
        return false;
    }
    have_digits(word)
}

fn have_digits(word: &[u8]) -> bool
    ensures { result ≡ list_all is_digit word.now }
{
    word.iter().all(|byte| is_digit(*byte))
}

fn is_digit(byte: u8) -> bool
    ensures { result ≡ is_digit byte }
{
    byte >= 48 && byte <= 57 || byte >= 97 && byte <= 102
}
