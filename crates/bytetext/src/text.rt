// One text.
ghost use Rattle.std.specs.Prelude.{◌≡◌, ◌<◌, ◌↔◌, [], IsTrue, MatchResult, length};

use crate::memory::NoMemory;
use crate::seq::{Seq, TryCopy};
use std::alloc::{AllocError, Global};
use std::marker::Model;

/// A text of any bytes. Contracts see the list of its bytes.
#[derive(Debug, Drop)]
pub struct Text {
    bytes: Vec<u8>,
}

impl Model for Text {
    ghost use Rattle.std.specs.Prelude.{List, ℕ};

    ghost Value = { List ℕ };

    ghost view = { λ t. t.bytes.items };
}

impl Text {
    /// Creates the text of these `bytes`. Does not allocate.
    pub fn new(bytes: Vec<u8>) -> Text
        ensures { result ≡ bytes.items }
    {
        Text { bytes }
    }

    /// Creates the empty text, which grows on `alloc` later. Does not allocate.
    pub fn empty(alloc: Global) -> Text
        ensures { result ≡ [] }
    {
        Text::new(Vec::new(alloc))
    }

    /// Creates a text from a copy of `bytes`.
    ///
    /// # Errors
    /// `NoMemory` if the copy cannot be allocated; never if `bytes` is empty.
    pub fn from_slice(alloc: Global, bytes: &[u8]) -> Result<Text, NoMemory>
        ensures { MatchResult result (λ t. t ≡ bytes.now) (λ _. 0 < length bytes.now) }
    {
        let bytes = bytes_of(alloc, bytes)?;
        Ok(Text { bytes })
    }

    /// Returns the bytes.
    pub fn as_bytes(&self) -> &[u8]
        ensures { result.now ≡ self.now }
    {
        self.bytes.as_slice()
    }

    /// Returns the number of bytes.
    pub fn len(&self) -> usize
        ensures { result ≡ length self.now }
    {
        self.bytes.len()
    }

    /// Returns whether the text has no bytes.
    pub fn is_empty(&self) -> bool
        ensures { IsTrue result ↔ (self.now ≡ []) }
    {
        self.bytes.is_empty()
    }

    /// Returns whether the text equals `bytes`, byte for byte.
    pub fn is_same(&self, bytes: &[u8]) -> bool
        ensures { IsTrue result ↔ (self.now ≡ bytes.now) }
    {
        self.bytes.as_slice() == bytes
    }

    /// Returns the bytes as a `Vec`. Does not allocate.
    pub fn into_vec(self) -> Vec<u8>
        ensures { result.items ≡ self }
    {
        self.bytes
    }
}

impl TryCopy for Text {
    fn copy(&self, alloc: Global) -> Result<Text, NoMemory> {
        Text::from_slice(alloc, self.bytes.as_slice())
    }
}

impl Clone for Text {
    ghost is_clone = { λ text twin. twin ≡ text };

    fn clone(&self) -> Result<Text, AllocError> {
        Ok(Text {
            bytes: self.bytes.clone()?,
        })
    }
}

/// Copies `bytes` into a new `Vec`.
///
/// # Errors
/// `NoMemory` if the copy cannot be allocated; never if `bytes` is empty.
pub fn bytes_of(alloc: Global, bytes: &[u8]) -> Result<Vec<u8>, NoMemory>
    ensures { MatchResult result (λ copy. copy.items ≡ bytes.now) (λ _. 0 < length bytes.now) }
{
    let mut copy = Vec::with_capacity(alloc, bytes.len())?;
    copy.extend_from_slice(bytes)?;
    Ok(copy)
}

/// A list of texts.
pub type Texts = Seq<Text>;
