// The items of a mask, ready to match. They are apart from `Mask` so that one place ties its text to its items.
ghost use Rattle.std.specs.Prelude.{◌≡◌, ◌↔◌, ◌+◌, ◌*◌, ◌≤◌, IsTrue, length, map};
ghost use Rattle.wildmask.specs.Codes.{items_in, lower};
ghost use Rattle.wildmask.specs.Items.{items_of};
ghost use Rattle.wildmask.specs.Matching.{Matches};
ghost use Rattle.wildmask.specs.WideSignatures.{wide_items_signature};
ghost use Rattle.wildmask.specs.Tails.{front_len, tail_of};
ghost use Rattle.wildmask.specs.Walks.{AllLower};

use crate::codes::{code_of, is_literal};
use crate::counts::Count;
use crate::items::{MaskKind, next_item};
use crate::runs::matches_end_first;
use crate::tails::Tail;
use crate::wide_signatures::WideSignature;
use rfccase::Casemapping;
use std::marker::Model;

// The most items that a mask has: as many as bytes.
const MOST_ITEMS: usize = 120;

/// The items of a mask, each literal as its lower case. Contracts see the items as a list.
#[derive(Debug, Drop)]
pub struct Pattern {
    codes: [u8; MOST_ITEMS],
    len: usize,
    // the number of items up to the last special one
    front: usize,
}

impl Model for Pattern {
    ghost use Rattle.std.specs.Prelude.{◌≡◌, ◌≤◌, List, drop, take};
    ghost use Rattle.wildmask.specs.declared.items.Item.{Item};
    ghost use Rattle.wildmask.specs.Codes.{items_in};
    ghost use Rattle.wildmask.specs.Tails.{front_len};

    ghost Value = { List Item };

    ghost view = { λ p. items_in (take p.len p.codes) };

    ghost invariant = { λ p. (p.len ≤ 120) × (p.front ≡ front_len (items_in (take p.len p.codes))) };
}

impl Pattern {
    /// Creates the items of a mask from its `kind` and `text`, to match by this casemapping.
    pub fn of(mapping: Casemapping, kind: MaskKind, text: &[u8]) -> Pattern
        requires { length text.now ≤ 120 }
        ensures { result ≡ map (lower mapping) (items_of kind text.now) }
    {
        let mut codes = [0; MOST_ITEMS];
        let mut len = 0;
        let mut rest = text;
        while let Some((item, others)) = next_item(kind, rest) {
            codes[len] = code_of(mapping, item);
            len += 1;
            rest = others;
        }
        let front = front_of(&codes[..len]);
        Pattern { codes, len, front }
    }

    /// Returns whether the items match all of `text`, and adds the comparisons to `count`. The literals at the end are
    /// compared first.
    pub fn matches(&self, mapping: Casemapping, text: &[u8], count: &mut Count) -> bool
        requires lower { AllLower mapping self.now }
        ensures matches { IsTrue result ↔ Matches mapping self.now text.now }
        ensures counted { count.new.steps ≤ count.old.steps + (length self.now + 1) * (length text.now + 1) }
    {
        let (front, end) = self.codes[..self.len].split_at(self.front);
        matches_end_first(mapping, front, end, text, count)
    }

    /// Returns the literals at the end, the last 16 at most.
    pub fn tail(&self) -> Tail
        ensures { result ≡ tail_of self.now }
    {
        Tail::of_end(&self.codes[self.front..self.len], MOST_ITEMS)
    }

    /// Returns the pairs that the items need, in 256 places.
    pub fn wide_signature(&self) -> WideSignature
        ensures { result ≡ wide_items_signature self.now }
    {
        WideSignature::needed_by(&self.codes[..self.len])
    }
}

// The number of items up to the last special one.
fn front_of(codes: &[u8]) -> usize
    ensures value { result ≡ front_len (items_in codes.now) }
    ensures within { result ≤ length codes.now }
{
    let mut front = codes.len();
    while front > 0 && is_literal(codes[front - 1]) {
        front -= 1;
    }
    front
}
