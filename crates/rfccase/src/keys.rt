// A text as a key.
ghost use Rattle.std.specs.Prelude.{◌≡◌, ◌<◌, ◌↔◌, ℕ, List, IsTrue, MatchResult, Some, length, nat_eq, refl};
ghost use Rattle.std.specs.Ordering.{nat_cmp};
ghost use Rattle.std.specs.Hash as fed;
ghost use Rattle.std.specs.Cmp.Lexicographic.{pointwise, slice_cmp, nat_list_eq_equiv, nat_list_cmp_total, texts_ties, texts_po};
ghost use Rattle.std.specs.Cmp.{partial_equiv_from_equiv};
ghost use Rattle.std.specs.Cmp.Rules.{hashing};
ghost use Rattle.std.proofs.Common.{rules};
ghost use Rattle.rfccase.specs.Casemapping.{folded, IsSame, folded_by, IsSameBy};

use crate::casemappings::Casemapping;
use crate::folds::{fold_text, fold_text_by};
use bytetext::{NoMemory, TryCopy};
use std::alloc::Global;
use std::cmp::Ordering;
use std::hash::{Hash, Hasher};
use std::marker::Model;

/// A text as a key of a map or a set: two keys are equal exactly if their texts are the same by [`same`].
/// Contracts see the lower case of the text as a list of bytes, by which keys are also ordered.
///
/// [`same`]: crate::same
#[derive(Debug, Drop)]
pub struct FoldKey {
    lower: Vec<u8>,
}

impl Model for FoldKey {
    ghost use Rattle.std.specs.Prelude.{List, ℕ};

    ghost Value = { List ℕ };

    ghost view = { λ k. k.lower.items };
}

impl FoldKey {
    /// Creates the key of `text`.
    ///
    /// # Errors
    /// `NoMemory` if the key cannot be allocated; never if `text` is empty.
    pub fn new(alloc: Global, text: &[u8]) -> Result<FoldKey, NoMemory>
        ensures { MatchResult result (λ key. key ≡ folded text.now) (λ _. 0 < length text.now) }
    {
        let lower = fold_text(alloc, text)?;
        Ok(FoldKey { lower })
    }

    /// The key of this text by a server's casemapping.
    ///
    /// # Errors
    /// `NoMemory` where room for the key is refused: never where the text is empty.
    pub fn by(alloc: Global, mapping: Casemapping, text: &[u8]) -> Result<FoldKey, NoMemory>
        ensures { MatchResult result (λ key. key ≡ folded_by mapping text.now) (λ _. 0 < length text.now) }
    {
        let lower = fold_text_by(alloc, mapping, text)?;
        Ok(FoldKey { lower })
    }

    /// Returns the lower case of the key's text.
    pub fn as_bytes(&self) -> &[u8]
        ensures { result.now ≡ self.now }
    {
        self.lower.as_slice()
    }
}

impl TryCopy for FoldKey {
    fn copy(&self, alloc: Global) -> Result<FoldKey, NoMemory> {
        let lower = Vec::from_slice(alloc, self.as_bytes())?;
        Ok(FoldKey { lower })
    }
}

impl PartialEq for FoldKey {
    ghost eq = { pointwise nat_eq };

    ghost laws = { partial_equiv_from_equiv nat_list_eq_equiv };

    fn eq(&self, other: &FoldKey) -> bool
        ensures bytes { result ≡ pointwise nat_eq self.now other.now }
        ensures same { (a b : List ℕ) → self.now ≡ folded a → other.now ≡ folded b →
            IsTrue result ↔ IsSame a b }
    {
        self.lower == other.lower
    }
}

impl Eq for FoldKey {
    ghost laws = { nat_list_eq_equiv };
}

impl PartialOrd for FoldKey {
    ghost partial_cmp = { λ a b. Some (slice_cmp nat_cmp a b) };

    ghost laws = { texts_po };

    fn partial_cmp(&self, other: &FoldKey) -> Option<Ordering> {
        Some(self.cmp(other))
    }
}

impl Ord for FoldKey {
    ghost cmp = { slice_cmp nat_cmp };

    ghost total = { nat_list_cmp_total };

    ghost matches_partial_cmp = { λ a b. refl };

    ghost matches_eq = { texts_ties };

    fn cmp(&self, other: &FoldKey) -> Ordering {
        self.lower.cmp(&other.lower)
    }
}

impl Hash for FoldKey {
    ghost hash_input = { fed.slice fed.u8 };

    ghost respects_eq = { Prim.search (hashing, rules) };

    fn hash<H: Hasher>(&self, state: &mut H) {
        self.lower.hash(state);
    }
}
