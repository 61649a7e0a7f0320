// Runs of items that take one byte each, before, between and after stars. They are matched without a set of places.
ghost use Rattle.std.specs.Prelude.{◌≡◌, ◌↔◌, ℕ, List, ◌∷◌, ◌++◌, ◌+◌, ◌-◌, ◌*◌, ◌≤◌, IsTrue, MatchOption, length, take, true};
ghost use Rattle.wildmask.specs.declared.items.Item.{Item};
ghost use Rattle.wildmask.specs.declared.items.Item.TheVariants.{AnyText};
ghost use Rattle.wildmask.specs.Codes.{decoded, items_in};
ghost use Rattle.wildmask.specs.Matching.{Matches};
ghost use Rattle.wildmask.specs.Walks.{AllLower, AllOne, takes_one};

use crate::codes::{is_star, item_of};
use crate::counts::Count;
use crate::items::Item;
use crate::walks::{takes, walk};
use rfccase::{Casemapping, fold_by};

/// Returns whether the items of `front` and `end` match all of `text`, and adds the comparisons to `count`. The
/// literals after the last special item (`end`) are compared first, from the last one backwards.
pub fn matches_end_first(
    mapping: Casemapping,
    front: &[u8],
    end: &[u8],
    text: &[u8],
    count: &mut Count,
) -> bool
    requires few { length front.now ≤ 120 }
    requires lower { AllLower mapping (items_in front.now) }
    requires lower_end { AllLower mapping (items_in end.now) }
    requires one { AllOne (items_in end.now) }
    ensures matches { IsTrue result ↔ Matches mapping (items_in front.now ++ items_in end.now) text.now }
    ensures counted { count.new.steps ≤ count.old.steps + (length front.now + length end.now + 1) * (length text.now + 1) }
{
    if text.len() < end.len() {
        return false;
    }
    let (rest, last) = text.split_at(text.len() - end.len());
    fits(mapping, end, last, count) && matches_run_first(mapping, front, rest, count)
}

// Whether the items match all of a text. The items in front that take one byte each are compared first.
fn matches_run_first(mapping: Casemapping, codes: &[u8], text: &[u8], count: &mut Count) -> bool
    requires few { length codes.now ≤ 120 }
    requires lower { AllLower mapping (items_in codes.now) }
    ensures matches { IsTrue result ↔ Matches mapping (items_in codes.now) text.now }
    ensures counted { count.new.steps ≤ count.old.steps + length codes.now + length codes.now * length text.now }
{
    match after_first_run(mapping, codes, text, count) {
        Some((others, rest)) => matches_stars(mapping, others, rest, count),
        None => false,
    }
}

// What is left of items and of a text after the items in front that take one byte each; `None` if one of those does
// not take its byte.
fn after_first_run<'a, 'b>(
    mapping: Casemapping,
    codes: &'a [u8],
    text: &'b [u8],
    count: &mut Count,
) -> Option<(&'a [u8], &'b [u8])>
    requires lower { AllLower mapping (items_in codes.now) }
    ensures matches { MatchOption result (Matches mapping (items_in codes.now) text.now → ⊥)
        (λ left. Matches mapping (items_in codes.now) text.now ↔ Matches mapping (items_in left.0.now) left.1.now) }
    ensures lower { MatchOption result (Unit {0}) (λ left. AllLower mapping (items_in left.0.now)) }
    ensures shorter { MatchOption result (Unit {0})
        (λ left. (length left.0.now ≤ length codes.now) × (length left.1.now ≤ length text.now)) }
    ensures counted { count.new.steps ≤ count.old.steps + length codes.now }
{
    let mut left = codes;
    let mut rest = text;
    while let Some((item, others)) = first_of_run(left) {
        let [byte, after @ ..] = rest else {
            return None;
        };
        if !takes(item, fold_by(mapping, *byte), count) {
            return None;
        }
        left = others;
        rest = after;
    }
    Some((left, rest))
}

// The first item and the others, if the first takes one byte.
fn first_of_run(codes: &[u8]) -> Option<(Item, &[u8])>
    ensures item { MatchOption result (Unit {0})
        (λ p. (items_in codes.now ≡ p.0 ∷ items_in p.1.now) × (takes_one p.0 ≡ true)) }
    ensures shorter { MatchOption result (Unit {0}) (λ p. length p.1.now + 1 ≡ length codes.now) }
{
    match codes {
        [code, others @ ..] if takes_one(*code) => Some((item_of(*code), others)),
        _ => None,
    }
}

// Whether the items match all of a text: a run between two stars takes the first piece that fits, and `walk` matches
// what is left.
fn matches_stars(mapping: Casemapping, codes: &[u8], text: &[u8], count: &mut Count) -> bool
    requires few { length codes.now ≤ 120 }
    requires lower { AllLower mapping (items_in codes.now) }
    ensures matches { IsTrue result ↔ Matches mapping (items_in codes.now) text.now }
    ensures counted { count.new.steps ≤ count.old.steps + length codes.now * length text.now }
{
    let mut left = codes;
    let mut rest = text;
    while let Some((run, others)) = run_between_stars(left) {
        match after_run(mapping, run, rest, count) {
            None => return false,
            Some(after) => {
                left = others;
                rest = after;
            }
        }
    }
    walk(mapping, left, rest, count)
}

// If the items are a star, a run and another star: the run, and the items from the other star on.
fn run_between_stars(codes: &[u8]) -> Option<(&[u8], &[u8])>
    ensures parts { MatchOption result (Unit {0}) (λ parts. (items : List Item)
        × (items_in codes.now ≡ AnyText ∷ items_in parts.0.now ++ AnyText ∷ items)
        × (items_in parts.1.now ≡ AnyText ∷ items) × AllOne (items_in parts.0.now)) }
    ensures shorter { MatchOption result (Unit {0}) (λ parts. length parts.0.now + length parts.1.now + 1 ≡ length codes.now) }
{
    match codes {
        [first, after @ ..] if is_star(*first) => {
            let (run, others) = split_run(after);
            match others {
                [other, ..] if is_star(*other) => Some((run, others)),
                _ => None,
            }
        }
        _ => None,
    }
}

// The items in front that take one byte each, and the others.
fn split_run(codes: &[u8]) -> (&[u8], &[u8])
    ensures whole { items_in codes.now ≡ items_in result.0.now ++ items_in result.1.now }
    ensures one { AllOne (items_in result.0.now) }
    ensures len { length result.0.now + length result.1.now ≡ length codes.now }
{
    let mut len = 0;
    while len < codes.len() && takes_one(codes[len]) {
        len += 1;
    }
    codes.split_at(len)
}

// Whether an item takes exactly one byte.
fn takes_one(code: u8) -> bool
    ensures { result ≡ takes_one (decoded code) }
{
    match item_of(code) {
        Item::Literal(_) | Item::AnyByte => true,
        Item::AnyText | Item::NoSpace | Item::Spaces => false,
    }
}

// What is left of a text after the first piece that a run of items takes; `None` if it takes no piece.
fn after_run<'a>(
    mapping: Casemapping,
    run: &[u8],
    text: &'a [u8],
    count: &mut Count,
) -> Option<&'a [u8]>
    requires one { AllOne (items_in run.now) }
    requires lower { AllLower mapping (items_in run.now) }
    ensures first { MatchOption result
        ((items : List Item) → Matches mapping (AnyText ∷ items_in run.now ++ items) text.now → ⊥)
        (λ left. (items : List Item) →
        Matches mapping (AnyText ∷ items_in run.now ++ AnyText ∷ items) text.now ↔ Matches mapping (AnyText ∷ items) left.now) }
    ensures shorter { MatchOption result (Unit {0}) (λ left. length left.now ≤ length text.now) }
    ensures counted { MatchOption result (count.new.steps ≤ count.old.steps + length run.now * length text.now)
        (λ left. count.new.steps ≤ count.old.steps + length run.now * (length text.now - length left.now)) }
{
    let mut rest = text;
    while run.len() <= rest.len() {
        let (first, left) = rest.split_at(run.len());
        if fits(mapping, run, first, count) {
            return Some(left);
        }
        match rest {
            [_, others @ ..] => rest = others,
            [] => return None,
        }
    }
    None
}

// Whether items that take one byte each match a text of as many bytes, compared from the last one backwards.
fn fits(mapping: Casemapping, codes: &[u8], text: &[u8], count: &mut Count) -> bool
    requires len { length codes.now ≡ length text.now }
    requires one { AllOne (items_in codes.now) }
    requires lower { AllLower mapping (items_in codes.now) }
    ensures value { IsTrue result ↔ Matches mapping (items_in codes.now) text.now }
    ensures counted { count.new.steps ≤ count.old.steps + length codes.now }
{
    let mut left = codes.len();
    while left > 0 {
        if !takes(
            item_of(codes[left - 1]),
            fold_by(mapping, text[left - 1]),
            count,
        ) {
            return false;
        }
        left -= 1;
    }
    true
}
