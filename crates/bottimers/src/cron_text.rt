// Reads the fields of a cron mask (crontab(5); Eggdrop's bind type CRON).
ghost use Rattle.std.specs.Prelude.{◌≡◌, ◌+◌, ◌-◌, ◌*◌, ◌<◌, ◌≤◌, ◌==◌, ℕ, if◌then◌else◌, Some, None, IfSome, is_some, min};
ghost use Rattle.std.specs.Prelude.{[], ◌∷◌, option_copied, position, MatchOption};
ghost use Rattle.bottimers.specs.CronSets.{has};
ghost use Rattle.bottimers.specs.CronText.{has_byte, before, after, is_star, number_in, ends_in, span_of, is_field, in_field};
ghost use Rattle.bottimers.specs.CronText.{fields_of, first_field, other_fields};

use crate::span::{Span, union};

// Splits `text` at the first byte `at`. There is no second part if the text lacks that byte.
fn cut(text: &[u8], at: u8) -> (&[u8], Option<&[u8]>)
    ensures front { result.0.now ≡ before at text.now }
    ensures back { option_copied result.1
        ≡ (if has_byte at text.now then Some (after at text.now) else None) }
{
    match place(text, at) {
        Some(i) => (&text[..i], Some(&text[i + 1..])),
        None => (text, None),
    }
}

// Returns the place of the first byte `at`.
fn place(text: &[u8], at: u8) -> Option<usize>
    ensures { result ≡ position (λ b. b == at) text.now }
{
    text.iter().position(|b| *b == at)
}

// Every number from this one on is too large.
const TOO_LARGE: u32 = 1000;

// Returns the number that the text means, if it is one from `low` to `high`.
fn number(text: &[u8], low: u8, high: u8) -> Option<u8>
    ensures value { result ≡ number_in low high text.now }
    ensures within { IfSome result (λ n. (low ≤ n) × (n ≤ high)) }
{
    if text.is_empty() {
        return None;
    }
    let mut value: u32 = 0;
    for b in text {
        if *b < b'0' || *b > b'9' {
            return None;
        }
        value = shifted(value, *b);
    }
    if (low as u32) <= value && value <= high as u32 {
        Some(value as u8)
    } else {
        None
    }
}

// Appends one digit to the number, which stays at `TOO_LARGE` once it is that large.
fn shifted(value: u32, digit: u8) -> u32
    requires { (value ≤ TOO_LARGE) × (48 ≤ digit) × (digit ≤ 57) }
    ensures { result ≡ min TOO_LARGE (value * 10 + (digit - 48)) }
{
    (value * 10 + (digit - b'0') as u32).min(TOO_LARGE)
}

// Whether the text is `*`.
pub(crate) fn is_star(text: &[u8]) -> bool
    ensures { result ≡ is_star text.now }
{
    text.len() == 1 && text[0] == b'*'
}

// Returns the first and the last number of an item without its step.
fn ends(base: &[u8], low: u8, high: u8, stepped: bool) -> Option<(u8, u8)>
    ensures value { result ≡ ends_in low high stepped base.now }
    ensures within { IfSome result (λ e. e.1 ≤ high) }
{
    if is_star(base) {
        return Some((low, high));
    }
    let (front, back) = cut(base, b'-');
    match back {
        Some(back) => {
            let first = number(front, low, high)?;
            let last = number(back, low, high)?;
            if first <= last {
                Some((first, last))
            } else {
                None
            }
        }
        None => {
            let n = number(base, low, high)?;
            Some((n, if stepped { high } else { n }))
        }
    }
}

// Returns the numbers of one item.
fn span(item: &[u8], low: u8, high: u8) -> Option<Span>
    ensures value { result ≡ span_of low high item.now }
    ensures within { IfSome result (λ s. (0 < s.step) × (s.last ≤ high)) }
{
    let (base, step) = cut(item, b'/');
    match step {
        Some(step) => {
            let step = number(step, 1, high)?;
            let (first, last) = ends(base, low, high, true)?;
            Some(Span { first, last, step })
        }
        None => {
            let (first, last) = ends(item, low, high, false)?;
            Some(Span {
                first,
                last,
                step: 1,
            })
        }
    }
}

// Returns the set of one field, with numbers from `low` to `high`.
pub(crate) fn field(text: &[u8], low: u8, high: u8) -> Option<u64>
    requires { high < 64 }
    ensures accepted { is_some result ≡ is_field low high text.now }
    ensures set { IfSome result (λ set. (n : ℕ) → has set n ≡ in_field low high text.now n) }
{
    let mut set = 0;
    let mut rest = Some(text);
    while let Some(items) = rest {
        let (item, more) = cut(items, b',');
        let Some(span) = span(item, low, high) else {
            return None;
        };
        set = union(set, span.bits());
        rest = more;
    }
    Some(set)
}

// Returns the first field of a mask and the rest of the mask, if there is a field.
pub(crate) fn take_field(mask: &[u8]) -> Option<(&[u8], &[u8])>
    ensures { MatchOption result (fields_of mask.now ≡ [])
        (λ p. fields_of mask.now ≡ p.0.now ∷ fields_of p.1.now) }
{
    let mut rest = mask;
    while !rest.is_empty() && rest[0] == b' ' {
        rest = &rest[1..];
    }
    if rest.is_empty() {
        return None;
    }
    let (first, others) = cut(rest, b' ');
    match others {
        Some(others) => Some((first, others)),
        None => Some((first, b"")),
    }
}

// Returns the first field and the rest, with `*` for a missing field.
pub(crate) fn next_field(mask: &[u8]) -> (&[u8], &[u8])
    ensures first { result.0.now ≡ first_field (fields_of mask.now) }
    ensures others { fields_of result.1.now ≡ other_fields (fields_of mask.now) }
{
    match take_field(mask) {
        Some(parts) => parts,
        None => (b"*", mask),
    }
}
