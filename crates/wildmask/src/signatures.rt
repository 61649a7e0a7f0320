// The pairs of adjacent bytes that a text has, and those that a mask needs.
ghost use Rattle.std.specs.Prelude.{◌≡◌};
ghost use Rattle.wildmask.specs.Signatures.{every, either, lower_literal, pair, pair_of as pair_of_both, text_signature, is_within};

use crate::items::Item;
use rfccase::fold;
use std::marker::Model;

/// A set of pairs of adjacent bytes: those that a text has, or those of literals that a mask needs. A mask that needs a
/// pair that a text lacks does not match it. Several pairs share one of 128 places, so a pair that seems to be in the
/// set may not be. Contracts see the places as the bits of two numbers.
#[derive(Clone, Copy, Debug, PartialEq, Eq)]
pub struct Signature {
    first: u64,
    second: u64,
}

impl Model for Signature {
    ghost use Rattle.wildmask.specs.Signatures.{Pairs};

    ghost Value = { Pairs };

    ghost view = { λ s. record { first = s.first; second = s.second } };

    ghost inverse = { λ p. record { first = p.first; second = p.second } };
}

// The set without pairs.
pub(crate) const NONE: Signature = Signature {
    first: 0,
    second: 0,
};

impl Signature {
    /// Returns the pairs of `text`, in lower case. Does not allocate.
    pub fn of(text: &[u8]) -> Signature
        ensures { result ≡ text_signature text.now }
    {
        let [first, rest @ ..] = text else {
            return NONE;
        };
        let mut pairs = NONE;
        let mut before = fold(*first);
        for byte in rest {
            let lower = fold(*byte);
            pairs = pairs.or(pair_of(before, lower));
            before = lower;
        }
        pairs
    }

    /// Returns whether the signature of a text, `text`, has each pair of this one, a mask's. If not, the mask does not
    /// match.
    pub fn is_within(self, text: Signature) -> bool
        ensures { result ≡ is_within self text }
    {
        self.first & text.first == self.first && self.second & text.second == self.second
    }

    // The pairs of both.
    pub(crate) fn or(self, other: Signature) -> Signature
        ensures { result ≡ either self other }
    {
        Signature {
            first: self.first | other.first,
            second: self.second | other.second,
        }
    }
}

// The lower case of a literal, if the item is one.
pub(crate) fn lower_literal(item: Item) -> Option<u8>
    ensures { result ≡ lower_literal item }
{
    match item {
        Item::Literal(byte) => Some(fold(byte)),
        Item::AnyByte | Item::AnyText | Item::NoSpace | Item::Spaces => None,
    }
}

// The pair of the lower cases of two adjacent literals; without one of them, none.
pub(crate) fn pair_between(first: Option<u8>, second: Option<u8>) -> Signature
    ensures { result ≡ pair_of_both every first second }
{
    match (first, second) {
        (Some(a), Some(b)) => pair_of(a, b),
        _ => NONE,
    }
}

// The pair of two lower cases.
pub(crate) fn pair_of(a: u8, b: u8) -> Signature
    ensures { result ≡ pair a b }
{
    let place = (u32::from(a) + u32::from(b) * 23) % 128;
    let is_first = place < 64;
    let bit = 1 << (if is_first { place } else { place - 64 });
    Signature {
        first: if is_first { bit } else { 0 },
        second: if is_first { 0 } else { bit },
    }
}
