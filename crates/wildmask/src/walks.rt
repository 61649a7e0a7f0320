// Whether items match a text: moves a set of places among them over the text once.
ghost use Rattle.std.specs.Prelude.{◌≡◌, ◌↔◌, ◌⊎◌, ℕ, List, [], ◌∷◌, ◌+◌, ◌*◌, ◌≤◌, ◌<◌, IsTrue, MatchOption, drop, get_or, length, true};
ghost use Rattle.std.specs.Int.{bit_at};
ghost use Rattle.wildmask.specs.declared.items.Item.TheVariants.{AnyText};
ghost use Rattle.rfccase.specs.declared.casemappings.Casemapping.{Casemapping};
ghost use Rattle.wildmask.specs.Codes.{decoded, items_in};
ghost use Rattle.wildmask.specs.Matching.{Matches};
ghost use Rattle.wildmask.specs.Walks.{MatchesFrom, MatchesAfter, IsClosed, IsIdle, AllLower, takes_byte, may_be_empty};

use crate::codes::{is_star, item_of};
use crate::counts::Count;
use crate::items::Item;
use crate::places::Places;
use rfccase::{Casemapping, fold_by};

/// Returns whether the items of `codes` match all of `text`. Adds the comparisons that it makes to `count`.
pub fn walk(mapping: Casemapping, codes: &[u8], text: &[u8], count: &mut Count) -> bool
    requires few { length codes.now ≤ 120 }
    requires lower { AllLower mapping (items_in codes.now) }
    ensures matches { IsTrue result ↔ Matches mapping (items_in codes.now) text.now }
    ensures counted { count.new.steps ≤ count.old.steps + length codes.now * length text.now }
{
    let mut places = with_skipped(codes, Places::none(), 0);
    let mut idle = None;
    for byte in text {
        if is_at_last_star(codes, places) {
            return true;
        }
        if places.is_none() {
            return false;
        }
        let after = step_unless_idle(mapping, codes, places, idle, *byte, count);
        idle = idle_byte(places, after, *byte);
        places = after;
    }
    places.has(codes.len())
}

// The places after one more byte: unchanged if the byte is the one that is known to leave them as they are.
fn step_unless_idle(
    mapping: Casemapping,
    codes: &[u8],
    places: Places,
    idle: Option<u8>,
    byte: u8,
    count: &mut Count,
) -> Places
    requires few { length codes.now ≤ 120 }
    requires lower { AllLower mapping (items_in codes.now) }
    requires closed { IsClosed (items_in codes.now) places.bits }
    requires idle { IsIdle mapping (items_in codes.now) places.bits idle }
    ensures moved { (text : List ℕ) →
        MatchesFrom mapping 0 (items_in codes.now) places.bits (byte ∷ text) ↔ MatchesFrom mapping 0 (items_in codes.now) result.bits text }
    ensures closed { IsClosed (items_in codes.now) result.bits }
    ensures counted { count.new.steps ≤ count.old.steps + length codes.now }
{
    match idle {
        Some(known) if known == byte => places,
        Some(_) | None => step(mapping, codes, places, byte, count),
    }
}

// The byte, if it left the places as they were: a text that repeats one byte need not be walked.
fn idle_byte(before: Places, after: Places, byte: u8) -> Option<u8>
    ensures { MatchOption result (Unit {0}) (λ known. (known ≡ byte) × (before.bits ≡ after.bits)) }
{
    if before.bits == after.bits {
        Some(byte)
    } else {
        None
    }
}

// Whether the last item is a star and in the set of places: then whatever is left of the text matches.
fn is_at_last_star(codes: &[u8], places: Places) -> bool
    requires { length codes.now ≤ 120 }
    ensures { IsTrue result → (mapping : Casemapping) (text : List ℕ) → MatchesFrom mapping 0 (items_in codes.now) places.bits text }
{
    match codes {
        [.., last] => is_star(*last) && places.has(codes.len() - 1),
        [] => false,
    }
}

// The places after one more byte.
fn step(mapping: Casemapping, codes: &[u8], places: Places, byte: u8, count: &mut Count) -> Places
    requires few { length codes.now ≤ 120 }
    requires lower { AllLower mapping (items_in codes.now) }
    requires closed { IsClosed (items_in codes.now) places.bits }
    ensures moved { (text : List ℕ) →
        MatchesFrom mapping 0 (items_in codes.now) places.bits (byte ∷ text) ↔ MatchesFrom mapping 0 (items_in codes.now) result.bits text }
    ensures closed { IsClosed (items_in codes.now) result.bits }
    ensures counted { count.new.steps ≤ count.old.steps + length codes.now }
{
    let lower = fold_by(mapping, byte);
    let mut after = Places::none();
    let mut from = 0;
    while let Some(at) = next_item(codes, places, from) {
        after = moved(mapping, codes, after, at, lower, count);
        from = at + 1;
    }
    after
}

// The first place of the set, from `from` on, that has an item.
fn next_item(codes: &[u8], places: Places, from: usize) -> Option<usize>
    requires few { length codes.now ≤ 120 }
    requires from { from ≤ length codes.now }
    ensures { MatchOption result ((q : ℕ) → from ≤ q → q < length codes.now → bit_at places.bits q ≡ 0)
        (λ at. (from ≤ at) × (at < length codes.now) × (bit_at places.bits at ≡ 1)
        × ((q : ℕ) → from ≤ q → q < at → bit_at places.bits q ≡ 0)) }
{
    match places.first_from(from) {
        Some(at) if at < codes.len() => Some(at),
        _ => None,
    }
}

// The places, and those that the mask reaches when the item at place `at` meets a byte with the lower case `lower`. A
// star drops the others: whatever matches from them matches from the star too.
fn moved(
    mapping: Casemapping,
    codes: &[u8],
    places: Places,
    at: usize,
    lower: u8,
    count: &mut Count,
) -> Places
    requires few { length codes.now ≤ 120 }
    requires at { at < length codes.now }
    requires closed { IsClosed (items_in codes.now) places.bits }
    requires star { decoded (get_or codes.now at 0) ≡ AnyText → (text : List ℕ) →
        MatchesFrom mapping 0 (items_in codes.now) places.bits text → Matches mapping (drop at (items_in codes.now)) text }
    ensures moved { (text : List ℕ) → MatchesFrom mapping 0 (items_in codes.now) result.bits text ↔
        (MatchesFrom mapping 0 (items_in codes.now) places.bits text
        ⊎ ((takes_byte (decoded (get_or codes.now at 0)) lower ≡ true)
        × MatchesAfter mapping (decoded (get_or codes.now at 0)) (drop (at + 1) (items_in codes.now)) text)) }
    ensures closed { IsClosed (items_in codes.now) result.bits }
    ensures counted { count.new.steps ≡ count.old.steps + 1 }
{
    let item = item_of(codes[at]);
    if takes(item, lower, count) {
        match item {
            Item::Literal(_) | Item::AnyByte => with_skipped(codes, places, at + 1),
            Item::AnyText => with_skipped(codes, Places::none(), at),
            Item::NoSpace => with_skipped(codes, places, at),
            Item::Spaces => with_skipped(codes, with_skipped(codes, places, at), at + 1),
        }
    } else {
        places
    }
}

// The places with `at`, and with each place after it that is reached over items that may take nothing.
fn with_skipped(codes: &[u8], places: Places, at: usize) -> Places
    requires few { length codes.now ≤ 120 }
    requires at { at ≤ length codes.now }
    requires closed { IsClosed (items_in codes.now) places.bits }
    ensures with { (mapping : Casemapping) (text : List ℕ) → MatchesFrom mapping 0 (items_in codes.now) result.bits text ↔
        (MatchesFrom mapping 0 (items_in codes.now) places.bits text ⊎ Matches mapping (drop at (items_in codes.now)) text) }
    ensures closed { IsClosed (items_in codes.now) result.bits }
{
    let mut places = places.with(at);
    let mut last = at;
    while last < codes.len() && may_be_empty(item_of(codes[last])) {
        last += 1;
        places = places.with(last);
    }
    places
}

/// Returns whether a piece that `item` takes may begin with a byte whose lower case is `lower`. This is the
/// comparison of an item with a byte that `count` counts.
pub fn takes(item: Item, lower: u8, count: &mut Count) -> bool
    ensures value { result ≡ takes_byte item lower }
    ensures counted { count.new.steps ≡ count.old.steps + 1 }
{
    count.note();
    match item {
        Item::Literal(byte) => byte == lower,
        Item::AnyByte | Item::AnyText => true,
        Item::NoSpace => lower != b' ',
        Item::Spaces => lower == b' ',
    }
}

// Whether an item can take the empty text.
fn may_be_empty(item: Item) -> bool
    ensures { result ≡ may_be_empty item }
{
    match item {
        Item::AnyText | Item::NoSpace => true,
        Item::Literal(_) | Item::AnyByte | Item::Spaces => false,
    }
}
