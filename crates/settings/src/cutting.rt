// Words cut off the front of a line.
ghost use Rattle.std.specs.Prelude.{◌≡◌, ◌≤◌, length};
ghost use Rattle.std.specs.List.{prefix_len};
ghost use Rattle.settings.specs.Words.{is_space, is_letter, word_of, rest_of, after_spaces};

/// A word, and what follows it.
#[derive(Clone, Copy)]
pub struct Cut<'a> {
    /// The bytes up to the next space.
    pub word: &'a [u8],
    /// What follows, without the spaces between.
    pub rest: &'a [u8],
}

/// Returns the first word of `line`, and the rest.
pub fn cut_word(line: &[u8]) -> Cut<'_>
    ensures word { result.word.now ≡ word_of line.now }
    ensures rest { result.rest.now ≡ rest_of line.now }
{
    let (word, rest) = line.split_at(word_len(line));
    Cut {
        word,
        rest: after_spaces(rest),
    }
}

/// Returns `line` without the spaces before its first word.
pub fn after_spaces(line: &[u8]) -> &[u8]
    ensures { result.now ≡ after_spaces line.now }
{
    &line[spaces_len(line)..]
}

// How many bytes stand before the first space.
fn word_len(line: &[u8]) -> usize
    ensures value { result ≡ prefix_len is_letter line.now }
    ensures within { result ≤ length line.now }
{
    line.iter().take_while(|byte| **byte != b' ').count()
}

// How many spaces stand in front.
fn spaces_len(line: &[u8]) -> usize
    ensures value { result ≡ prefix_len is_space line.now }
    ensures within { result ≤ length line.now }
{
    line.iter().take_while(|byte| **byte == b' ').count()
}
