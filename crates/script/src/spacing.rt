// What is wrong with a line's spacing.
ghost use Rattle.std.specs.Prelude.{◌≡◌, map};
ghost use Rattle.std.specs.List.{list_any};
ghost use Rattle.recordtext.specs.Words.{is_empty};
ghost use Rattle.script.specs.Spacing.{ends_in, ends_reason, gap_before, has_mark, is_tab, misread, spacing_reason};

use crate::reason::Reason;

/// Returns what is wrong with the ends and the spaces of a `line` that has the wrong number of `words`, or `None` if
/// they are right.
pub fn spacing_reason(line: &[u8], words: &[&[u8]]) -> Option<Reason>
    ensures { result ≡ spacing_reason line.now (map (λ word. word.now) words.now) }
{
    if let Some(reason) = ends_reason(line) {
        return Some(reason);
    }
    if ends_in(line, b' ') {
        return Some(Reason::SpaceAfter);
    }
    if has_gap(words) {
        return Some(Reason::TwoSpaces);
    }
    if has_tab(line) {
        return Some(Reason::Tab);
    }
    None
}

/// Returns whether `line` ends in a carriage return or begins with a byte order mark, or `None` if it has neither.
pub fn ends_reason(line: &[u8]) -> Option<Reason>
    ensures { result ≡ ends_reason line.now }
{
    if ends_in(line, b'\r') {
        Some(Reason::CarriageReturn)
    } else if has_mark(line) {
        Some(Reason::ByteOrderMark)
    } else {
        None
    }
}

/// Returns why `word` is none that was expected: `gap` if it is empty, which is a space too many; that it has a tab, so
/// that it is two words; else `reason`.
pub fn misread(gap: Reason, reason: Reason, word: &[u8]) -> Reason
    ensures { result ≡ misread gap reason word.now }
{
    if word.is_empty() {
        gap
    } else if has_tab(word) {
        Reason::Tab
    } else {
        reason
    }
}

/// Returns what is wrong if an empty word comes before these `words`. If none follow, it is a space at the end of the
/// line.
pub fn gap_before(words: &[&[u8]]) -> Reason
    ensures { result ≡ gap_before (map (λ word. word.now) words.now) }
{
    match words {
        [] => Reason::SpaceAfter,
        [_, ..] => Reason::TwoSpaces,
    }
}

// Whether a line ends in this byte.
fn ends_in(line: &[u8], byte: u8) -> bool
    ensures { result ≡ ends_in byte line.now }
{
    !line.is_empty() && line[line.len() - 1] == byte
}

// Whether a line begins with a byte order mark.
fn has_mark(line: &[u8]) -> bool
    ensures { result ≡ has_mark line.now }
{
    line.len() >= 3 && line[0] == 0xef && line[1] == 0xbb && line[2] == 0xbf
}

// Whether one of the words is empty.
fn has_gap(words: &[&[u8]]) -> bool
    ensures { result ≡ list_any is_empty (map (λ word. word.now) words.now) }
{
    for word in words {
        if word.is_empty() {
            return true;
        }
    }
    false
}

fn has_tab(word: &[u8]) -> bool
    ensures { result ≡ list_any is_tab word.now }
{
    word.iter().any(|byte| is_tab(*byte))
}

fn is_tab(byte: u8) -> bool
    ensures { result ≡ is_tab byte }
{
    byte == b'\t'
}
