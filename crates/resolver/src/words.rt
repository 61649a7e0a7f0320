// The words of a line.
ghost use Rattle.std.specs.Prelude.{◌≡◌, ◌≤◌, ◌==◌, not, Some, length};
ghost use Rattle.std.specs.List.{prefix_len};
ghost use Rattle.std.specs.Str.{bytes_eq};
ghost use Rattle.resolver.specs.Replies.{folded};
ghost use Rattle.resolver.specs.Files.{is_blank, word_len, first_word, has_word, uncommented, Spells};

use std::net::IpAddr;

// Returns whether `byte` stands between words: a space, a tab, or the CR of a line that ends with CR LF.
fn is_blank(byte: u8) -> bool
    ensures { result ≡ is_blank byte }
{
    byte == b' ' || byte == b'\t' || byte == b'\r'
}

// Returns the first word of `line`, empty if the line has none.
pub(crate) fn first_word(line: &[u8]) -> &[u8]
    ensures { result.now ≡ first_word line.now }
{
    let (_, rest) = line.split_at(blanks_len(line));
    let (word, _) = rest.split_at(word_len(rest));
    word
}

fn blanks_len(line: &[u8]) -> usize
    ensures value { result ≡ prefix_len is_blank line.now }
    ensures within { result ≤ length line.now }
{
    line.iter().take_while(|byte| is_blank(**byte)).count()
}

// Returns how many bytes of `line` stand before its first blank.
pub(crate) fn word_len(line: &[u8]) -> usize
    ensures value { result ≡ word_len line.now }
    ensures within { result ≤ length line.now }
{
    line.iter().take_while(|byte| !is_blank(**byte)).count()
}

// Returns whether `word` is one of the words of `line`, without regard to case (RFC 4343). `word` is not to be empty.
pub(crate) fn has_word(line: &[u8], word: &[u8]) -> bool
    ensures { result ≡ has_word line.now word.now }
{
    let mut has = false;
    for other in line.split(|byte| is_blank(*byte)) {
        has |= is_same(other, word);
    }
    has
}

fn is_same(other: &[u8], word: &[u8]) -> bool
    ensures { result ≡ bytes_eq (folded other.now) (folded word.now) }
{
    other.eq_ignore_ascii_case(word)
}

// Returns what stands before the comment on `line`.
pub(crate) fn uncommented(line: &[u8]) -> &[u8]
    ensures { result.now ≡ uncommented line.now }
{
    let (text, _) = line.split_at(text_len(line));
    text
}

fn text_len(line: &[u8]) -> usize
    ensures value { result ≡ prefix_len (λ b. not (b == 35)) line.now }
    ensures within { result ≤ length line.now }
{
    line.iter().take_while(|byte| **byte != b'#').count()
}

// Returns the address that `text` spells.
pub(crate) fn address_in(text: &[u8]) -> Option<IpAddr>
    ensures { Spells (Some text.now) result }
{
    match IpAddr::parse_ascii(text) {
        Ok(address) => Some(address),
        Err(_) => None,
    }
}
