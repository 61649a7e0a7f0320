// The first word of a text, and what follows it.
ghost use Rattle.std.specs.Prelude.{◌≡◌, ◌≤◌, length};
ghost use Rattle.bytetext.specs.Words.{word_len, spaces_len, first_word, after_word};

/// Returns the first word of `text`, which ends before its first space: `join` of `join #a key`. It is empty if `text`
/// is empty or begins with a space.
pub fn first_word(text: &[u8]) -> &[u8]
    ensures { result.now ≡ first_word text.now }
{
    &text[..count_word(text)]
}

/// Returns what follows the first word of `text` and the spaces after that word: `#a key` of `join  #a key`.
pub fn after_word(text: &[u8]) -> &[u8]
    ensures { result.now ≡ after_word text.now }
{
    let rest = &text[count_word(text)..];
    &rest[count_spaces(rest)..]
}

// Returns the length of the first word.
fn count_word(text: &[u8]) -> usize
    ensures value { result ≡ word_len text.now }
    ensures within { result ≤ length text.now }
{
    let mut count = 0;
    while count < text.len() && text[count] != b' ' {
        count += 1;
    }
    count
}

// Returns how many spaces `text` begins with.
fn count_spaces(text: &[u8]) -> usize
    ensures value { result ≡ spaces_len text.now }
    ensures within { result ≤ length text.now }
{
    let mut count = 0;
    while count < text.len() && text[count] == b' ' {
        count += 1;
    }
    count
}
