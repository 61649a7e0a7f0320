// What a mask needs of a text that it matches, read from the mask's text in one walk.
ghost use Rattle.std.specs.Prelude.{◌≡◌, ◌≤◌, length};
ghost use Rattle.wildmask.specs.Items.{items_of, literals_of};
ghost use Rattle.wildmask.specs.Signatures.{items_signature};

use crate::items::{MaskKind, next_item};
use crate::signatures::{NONE, Signature, lower_literal, pair_between};

// What decides whether a mask is worth a match.
#[derive(Clone, Copy)]
pub(crate) struct Needs {
    // the number of literals among the items
    pub(crate) literals: u8,
    // the pairs of adjacent literals
    pub(crate) pairs: Signature,
}

// What the mask with this `kind` and `text` needs.
pub(crate) fn needs_of(kind: MaskKind, text: &[u8]) -> Needs
    requires { length text.now ≤ 120 }
    ensures literals { result.literals ≡ literals_of kind text.now }
    ensures pairs { result.pairs ≡ items_signature (items_of kind text.now) }
{
    let mut literals = 0;
    let mut pairs = NONE;
    let mut before = None;
    let mut rest = text;
    while let Some((item, others)) = next_item(kind, rest) {
        let lower = lower_literal(item);
        if lower.is_some() {
            literals += 1;
        }
        pairs = pairs.or(pair_between(before, lower));
        before = lower;
        rest = others;
    }
    Needs { literals, pairs }
}
