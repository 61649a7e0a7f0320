// A list of values, and copies that can fail for lack of memory.
ghost use Rattle.std.specs.Prelude.{◌≡◌, ◌<◌, ◌↔◌, ◌++◌, ◌∷◌, [], IsTrue, IfOk, MatchResult, OnOk, OnErr, length};

use crate::memory::NoMemory;
use std::alloc::Global;
use std::marker::Model;

/// A type whose values can be copied if memory allows.
pub trait TryCopy: Drop + Sized {
    /// Returns an equal value of its own.
    ///
    /// # Errors
    /// `NoMemory` if the copy cannot be allocated.
    fn copy(&self, alloc: Global) -> Result<Self, NoMemory>
        ensures { IfOk result (λ twin. twin ≡ self.now) };
}

/// A list. Contracts see its items in order, and no capacity.
#[derive(Debug, Drop)]
pub struct Seq<T> {
    items: Vec<T>,
}

impl<T> Model for Seq<T> {
    ghost use Rattle.std.specs.Prelude.{List};

    ghost Value = { List T };

    ghost view = { λ s. s.items.items };
}

impl<T> Seq<T> {
    /// Creates the list of these `items`. Does not allocate.
    pub fn new(items: Vec<T>) -> Seq<T>
        ensures { result ≡ items.items }
    {
        Seq { items }
    }

    /// Creates an empty list. Does not allocate.
    pub fn empty(alloc: Global) -> Seq<T>
        ensures { result ≡ [] }
    {
        Seq::new(Vec::new(alloc))
    }

    /// Returns the items, in order.
    pub fn as_slice(&self) -> &[T]
        ensures { result.now ≡ self.now }
    {
        self.items.as_slice()
    }

    /// Returns the number of items.
    pub fn len(&self) -> usize
        ensures { result ≡ length self.now }
    {
        self.items.len()
    }

    /// Returns whether the list has no items.
    pub fn is_empty(&self) -> bool
        ensures { IsTrue result ↔ (self.now ≡ []) }
    {
        self.items.is_empty()
    }

    /// Returns the items as a `Vec`. Does not allocate.
    pub fn into_vec(self) -> Vec<T>
        ensures { result.items ≡ self }
    {
        self.items
    }
}

impl<T: Drop> Seq<T> {
    /// Appends `item`.
    ///
    /// # Errors
    /// `NoMemory` if there is no room for `item`; the list is then unchanged, and `item` is dropped.
    pub fn push(&mut self, item: T) -> Result<(), NoMemory>
        ensures ok { OnOk result (self.new ≡ self.old ++ item ∷ []) }
        ensures err { OnErr result (self.new ≡ self.old) }
    {
        self.items.push(item)?;
        Ok(())
    }
}

impl<T: TryCopy> TryCopy for Seq<T> {
    fn copy(&self, alloc: Global) -> Result<Seq<T>, NoMemory> {
        let items = copies_of(alloc, self.items.as_slice())?;
        Ok(Seq { items })
    }
}

/// Copies each of the `items`, in order.
///
/// # Errors
/// `NoMemory` if a copy cannot be allocated; never if `items` is empty.
pub fn copies_of<T: TryCopy>(alloc: Global, items: &[T]) -> Result<Vec<T>, NoMemory>
    ensures { MatchResult result (λ copies. copies.items ≡ items.now) (λ _. 0 < length items.now) }
{
    let mut copies = Vec::with_capacity(alloc, items.len())?;
    for item in items {
        copies.push(item.copy(alloc)?)?;
    }
    Ok(copies)
}
