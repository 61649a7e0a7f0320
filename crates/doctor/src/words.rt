// The words of a text of the system, as `/proc/self/limits` and `/proc/self/status` are.
ghost use Rattle.std.specs.Prelude.{◌≡◌, ◌≤◌, length, map, option_map};
ghost use Rattle.std.specs.List.{prefix_len};
ghost use Rattle.doctor.specs.Words.{digit_onto, first_word, has_number, is_among, is_blank, is_number, number_after};
ghost use Rattle.doctor.specs.Words.{first_of, number_in, rest_after, rest_of, word_len};
ghost use Rattle.doctor.specs.declared.words.TheConstants.{MOST};

// No number above ten times this is read.
const MOST: u64 = 1_000_000_000_000_000_000;

// Returns the number after `label`, on the first line of `text` that begins with it.
pub(crate) fn number_after(text: &[u8], label: &[u8]) -> Option<u64>
    ensures { result ≡ number_after text.now label.now }
{
    match rest_after(text, label) {
        Some(rest) => number_in(first_word(rest)),
        None => None,
    }
}

// Returns whether `number` is among the words after `label`, on the first line of `text` that begins with it.
pub(crate) fn has_number(text: &[u8], label: &[u8], number: u64) -> bool
    ensures { result ≡ has_number text.now label.now number }
{
    match rest_after(text, label) {
        Some(rest) => is_among(rest, number),
        None => false,
    }
}

// Returns whether `number` is one of the words of a line.
fn is_among(line: &[u8], number: u64) -> bool
    ensures { result ≡ is_among number line.now }
{
    let mut is_there = false;
    for word in line.split(|byte| is_blank(*byte)) {
        is_there |= is_number(word, number);
    }
    is_there
}

fn is_number(word: &[u8], number: u64) -> bool
    ensures { result ≡ is_number number word.now }
{
    match number_in(word) {
        Some(found) => found == number,
        None => false,
    }
}

// Returns what follows `label` on the first line of `text` that begins with it.
fn rest_after<'a>(text: &'a [u8], label: &[u8]) -> Option<&'a [u8]>
    ensures { option_map (λ rest. rest.now) result ≡ rest_after text.now label.now }
{
    let mut found = None;
    for line in text.split(|byte| *byte == b'\n') {
        found = first_of(found, rest_of(line, label));
    }
    found
}

// Returns what follows `label` on `line`, if the line begins with it.
fn rest_of<'a>(line: &'a [u8], label: &[u8]) -> Option<&'a [u8]>
    ensures { option_map (λ rest. rest.now) result ≡ rest_of label.now line.now }
{
    line.strip_prefix(label)
}

// Returns the first of these, or else the other.
fn first_of<'a>(found: Option<&'a [u8]>, other: Option<&'a [u8]>) -> Option<&'a [u8]>
    ensures { option_map (λ rest. rest.now) result
        ≡ first_of (option_map (λ rest. rest.now) found.entry) (option_map (λ rest. rest.now) other.entry) }
{
    match found {
        Some(rest) => Some(rest),
        None => other,
    }
}

// Returns the first word of a line, empty if the line has none.
fn first_word(line: &[u8]) -> &[u8]
    ensures { result.now ≡ first_word line.now }
{
    let (_, rest) = line.split_at(blanks_len(line));
    let (word, _) = rest.split_at(word_len(rest));
    word
}

fn blanks_len(line: &[u8]) -> usize
    ensures value { result ≡ prefix_len is_blank line.now }
    ensures within { result ≤ length line.now }
{
    let mut len = 0;
    for byte in line {
        if !is_blank(*byte) {
            break;
        }
        len += 1;
    }
    len
}

fn word_len(line: &[u8]) -> usize
    ensures value { result ≡ word_len line.now }
    ensures within { result ≤ length line.now }
{
    let mut len = 0;
    for byte in line {
        if is_blank(*byte) {
            break;
        }
        len += 1;
    }
    len
}

// Returns whether `byte` stands between words.
fn is_blank(byte: u8) -> bool
    ensures { result ≡ is_blank byte }
{
    byte == b' ' || byte == b'\t'
}

// Returns the number that `word` spells in digits, if it is not too long.
fn number_in(word: &[u8]) -> Option<u64>
    ensures { result ≡ number_in word.now }
{
    if word.is_empty() {
        return None;
    }
    let mut value: u64 = 0;
    for byte in word {
        value = digit_onto(value, *byte)?;
    }
    Some(value)
}

// The number that one more digit makes of `value`.
fn digit_onto(value: u64, byte: u8) -> Option<u64>
    ensures { result ≡ digit_onto value byte }
{
    if byte < 48 || byte > 57 || value > MOST {
        None
    } else {
        Some(value * 10 + u64::from(byte - 48))
    }
}
