// The pairs of adjacent bytes that a long text has, and those that a bind's mask needs.
ghost use Rattle.std.specs.Prelude.{◌≡◌};
ghost use Rattle.wildmask.specs.Codes.{items_in};
ghost use Rattle.wildmask.specs.WideSignatures.{wide_either, wide_pair, wide_pair_of_both, wide_text_signature, wide_items_signature, is_wide_within};

use crate::codes::item_of;
use crate::signatures::{NONE, Signature, lower_literal, pair_of};
use rfccase::fold;
use std::marker::Model;

/// A set of pairs of adjacent bytes like a [`Signature`], but with 256 places instead of 128. A line of talk has half of
/// 128 places, so that too many masks would seem to match it. Contracts see the places as the bits of four numbers.
#[derive(Clone, Copy, Debug)]
pub struct WideSignature {
    low: Signature,
    high: Signature,
}

impl Model for WideSignature {
    ghost use Rattle.wildmask.specs.WideSignatures.{WidePairs};

    ghost Value = { WidePairs };

    ghost view = { λ s. record { low = s.low; high = s.high } };

    ghost inverse = { λ p. record { low = p.low; high = p.high } };
}

// The set without pairs.
const NO_PAIRS: WideSignature = WideSignature {
    low: NONE,
    high: NONE,
};

impl WideSignature {
    /// Returns the pairs of `text`, in lower case. Does not allocate.
    pub fn of(text: &[u8]) -> WideSignature
        ensures { result ≡ wide_text_signature text.now }
    {
        let [first, rest @ ..] = text else {
            return NO_PAIRS;
        };
        let mut pairs = NO_PAIRS;
        let mut before = fold(*first);
        for byte in rest {
            let lower = fold(*byte);
            pairs = pairs.or(wide_pair_of(before, lower));
            before = lower;
        }
        pairs
    }

    /// Returns whether the signature of a text, `text`, has each pair of this one, a mask's. If not, the mask does not
    /// match.
    pub fn is_within(self, text: WideSignature) -> bool
        ensures { result ≡ is_wide_within self text }
    {
        self.low.is_within(text.low) && self.high.is_within(text.high)
    }

    // The pairs that a mask with these items needs.
    pub(crate) fn needed_by(codes: &[u8]) -> WideSignature
        ensures { result ≡ wide_items_signature (items_in codes.now) }
    {
        let mut pairs = NO_PAIRS;
        let mut before = None;
        for code in codes {
            let lower = lower_literal(item_of(*code));
            pairs = pairs.or(wide_pair_between(before, lower));
            before = lower;
        }
        pairs
    }

    // The pairs of both.
    fn or(self, other: WideSignature) -> WideSignature
        ensures { result ≡ wide_either self other }
    {
        WideSignature {
            low: self.low.or(other.low),
            high: self.high.or(other.high),
        }
    }
}

// The pair of the lower cases of two adjacent literals; without one of them, none.
fn wide_pair_between(first: Option<u8>, second: Option<u8>) -> WideSignature
    ensures { result ≡ wide_pair_of_both first second }
{
    match (first, second) {
        (Some(a), Some(b)) => wide_pair_of(a, b),
        _ => NO_PAIRS,
    }
}

// The pair of two lower cases.
fn wide_pair_of(a: u8, b: u8) -> WideSignature
    ensures { result ≡ wide_pair a b }
{
    let pair = pair_of(a, b);
    if (u32::from(a) + u32::from(b) * 23) % 256 < 128 {
        WideSignature {
            low: pair,
            high: NONE,
        }
    } else {
        WideSignature {
            low: NONE,
            high: pair,
        }
    }
}
