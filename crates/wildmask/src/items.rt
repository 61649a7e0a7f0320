// The items of a mask's text.
ghost use Rattle.std.specs.Prelude.{◌≡◌, ◌<◌, [], ◌∷◌, length, MatchOption};
ghost use Rattle.std.specs.List.{list_any};
ghost use Rattle.wildmask.specs.Items.{items_of, item_of, is_special};
ghost use Rattle.wildmask.specs.Tails.{ends_plainly};

use crate::tails::MOST_BYTES;

/// Where a mask is used, which decides what `%` and `~` mean in it.
#[derive(Clone, Copy, Debug, Drop)]
pub enum MaskKind {
    /// In a bind: `%` and `~` are special.
    Bind,
    /// As a hostmask: `%` and `~` are literals.
    Host,
}

/// One item of a mask.
#[derive(Clone, Copy, Drop)]
pub enum Item {
    /// A byte, in either case.
    Literal(u8),
    /// `?`: one byte.
    AnyByte,
    /// `*`: any bytes.
    AnyText,
    /// `%` of a bind: any bytes without a space.
    NoSpace,
    /// `~` of a bind: one or more spaces.
    Spaces,
}

/// Returns the first item of `mask`, the unread text of a mask of this `kind`, and the text after that item; `None` at
/// the end.
pub fn next_item(kind: MaskKind, mask: &[u8]) -> Option<(Item, &[u8])>
    ensures items { MatchOption result (mask.now ≡ [])
        (λ next. items_of kind mask.now ≡ next.0 ∷ items_of kind next.1.now) }
    ensures shorter { MatchOption result (Unit {0}) (λ next. length next.1.now < length mask.now) }
{
    match mask {
        [] => None,
        // Most bytes are plain, so they are told first.
        [byte, rest @ ..] if !is_special(*byte) => Some((Item::Literal(*byte), rest)),
        [b'\\', escaped, rest @ ..] if is_special(*escaped) => Some((
            Item::Literal(*escaped),
            rest,
        )),
        [byte, rest @ ..] => Some((item_of(kind, *byte), rest)),
    }
}

// Whether the last 16 bytes of a mask's text are literals, whatever comes before them.
pub(crate) fn ends_plainly(text: &[u8]) -> bool
    ensures { result ≡ ends_plainly text.now }
{
    if text.len() < MOST_BYTES {
        return false;
    }
    let (_, end) = text.split_at(text.len() - MOST_BYTES);
    !has_special(end)
}

fn has_special(bytes: &[u8]) -> bool
    ensures { result ≡ list_any is_special bytes.now }
{
    bytes.iter().any(|byte| is_special(*byte))
}

// Whether a backslash before the byte makes it a literal.
fn is_special(byte: u8) -> bool
    ensures { result ≡ is_special byte }
{
    matches!(byte, b'?' | b'*' | b'%' | b'~' | b'\\')
}

// The item of a byte without a backslash before it.
fn item_of(kind: MaskKind, byte: u8) -> Item
    ensures { result ≡ item_of kind byte }
{
    match (kind, byte) {
        (_, b'?') => Item::AnyByte,
        (_, b'*') => Item::AnyText,
        (MaskKind::Bind, b'%') => Item::NoSpace,
        (MaskKind::Bind, b'~') => Item::Spaces,
        _ => Item::Literal(byte),
    }
}
