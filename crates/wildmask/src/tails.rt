// The end of a mask, and of a text, as a key.
ghost use Rattle.std.specs.Prelude.{◌≡◌, ℕ, List, nat_eq, refl};
ghost use Rattle.std.specs.Hash as fed;
ghost use Rattle.std.specs.Cmp.Lexicographic.{pointwise, nat_list_eq_equiv};
ghost use Rattle.std.specs.Cmp.{partial_equiv_from_equiv};
ghost use Rattle.std.specs.Cmp.Rules.{hashing};
ghost use Rattle.std.proofs.Common.{rules};
ghost use Rattle.wildmask.specs.Tails.{end_key};

use rfccase::fold_slice;
use std::hash::{Hash, Hasher};
use std::marker::Model;

// The most bytes that a tail has (our own choice).
pub(crate) const MOST_BYTES: usize = 16;

/// The lower cases of a text's last bytes, 16 at most, as a key of a map. A map keeps a mask under its tail
/// ([`Mask::tail`](crate::Mask::tail)), and a look-up tries the ends of a text.
/// Contracts see the lower cases as a list.
#[derive(Clone, Copy, Debug)]
pub struct Tail {
    bytes: [u8; MOST_BYTES],
    len: usize,
}

impl Model for Tail {
    ghost use Rattle.std.specs.Prelude.{List, ℕ, ◌≡◌, length, take};
    ghost use Rattle.wildmask.specs.Tails.{padded};

    ghost Value = { List ℕ };

    ghost view = { λ t. take t.len t.bytes };

    ghost invariant = { λ t. (length (take t.len t.bytes) ≡ t.len) × (padded (take t.len t.bytes) ≡ t.bytes) };

    ghost inverse = { λ xs. record { bytes = padded xs; len = length xs } };
}

impl Tail {
    /// Creates the key of the last `len` bytes of `text`, 16 at most; of all, if it has fewer. Does not allocate.
    pub fn of_end(text: &[u8], len: usize) -> Tail
        ensures { result ≡ end_key len text.now }
    {
        let len = len.min(MOST_BYTES).min(text.len());
        let end = &text[text.len() - len..];
        let mut bytes = [0; MOST_BYTES];
        let room = &mut bytes[..len];
        room.copy_from_slice(end);
        fold_slice(room);
        Tail { bytes, len }
    }

    /// Returns the lower cases.
    pub fn as_bytes(&self) -> &[u8]
        ensures { result.now ≡ self.now }
    {
        &self.bytes[..self.len]
    }
}

impl PartialEq for Tail {
    ghost eq = { pointwise nat_eq };

    ghost laws = { partial_equiv_from_equiv nat_list_eq_equiv };

    fn eq(&self, other: &Tail) -> bool {
        self.as_bytes() == other.as_bytes()
    }
}

impl Eq for Tail {
    ghost laws = { nat_list_eq_equiv };
}

impl Hash for Tail {
    ghost hash_input = { fed.slice fed.u8 };

    ghost respects_eq = { Prim.search (hashing, rules) };

    fn hash<H: Hasher>(&self, state: &mut H) {
        self.as_bytes().hash(state);
    }
}
