// The lower case of a short text, on the stack.
ghost use Rattle.std.specs.Prelude.{◌≡◌, ◌<◌, MatchOption, length};
ghost use Rattle.rfccase.specs.Casemapping.{folded, folded_by};

use crate::casemappings::Casemapping;
use crate::folds::{fold_slice, fold_slice_by};
use std::marker::Model;

/// The lower case of a text of at most `N` bytes, held on the stack: for a look-up among folded keys in a call that
/// must not allocate. Contracts see the folded bytes as a list.
#[derive(Drop)]
pub struct ShortFold<const N: usize> {
    bytes: [u8; N],
    len: usize,
}

impl<const N: usize> Model for ShortFold<N> {
    ghost use Rattle.std.specs.Prelude.{List, ℕ, take, ◌≤◌};

    ghost Value = { List ℕ };

    ghost view = { λ s. take s.len s.bytes };

    ghost invariant = { λ s. s.len ≤ N };
}

impl<const N: usize> ShortFold<N> {
    /// Creates the lower case of `text`, or returns `None` if it has more than `N` bytes.
    pub fn new(text: &[u8]) -> Option<ShortFold<N>>
        ensures { MatchOption result (N < length text.now) (λ lower. lower ≡ folded text.now) }
    {
        let len = text.len();
        if N < len {
            return None;
        }
        let mut bytes = [0; N];
        let room = &mut bytes[..len];
        room.copy_from_slice(text);
        fold_slice(room);
        Some(ShortFold { bytes, len })
    }

    /// Creates the lower case of `text` by a server's casemapping, or returns `None` if it has more than `N` bytes.
    pub fn by(mapping: Casemapping, text: &[u8]) -> Option<ShortFold<N>>
        ensures { MatchOption result (N < length text.now) (λ lower. lower ≡ folded_by mapping text.now) }
    {
        let len = text.len();
        if N < len {
            return None;
        }
        let mut bytes = [0; N];
        let room = &mut bytes[..len];
        room.copy_from_slice(text);
        fold_slice_by(mapping, room);
        Some(ShortFold { bytes, len })
    }

    /// Returns the lower case of the text.
    pub fn as_bytes(&self) -> &[u8]
        ensures { result.now ≡ self.now }
    {
        &self.bytes[..self.len]
    }

    /// Returns an equal short text of its own. Does not allocate.
    pub fn copy(&self) -> ShortFold<N>
        ensures { result ≡ self.now }
    {
        ShortFold {
            bytes: self.bytes,
            len: self.len,
        }
    }
}
