// A hostmask, and a list of hostmasks.
ghost use Rattle.std.specs.Prelude.{◌≡◌};
ghost use Rattle.userfile.specs.Held.{has_mask, masks_without};

use crate::texts::is_same;
use bytetext::{NoMemory, TryCopy, copies_of};
use rfccase::Casemapping;
use std::alloc::Global;
use std::marker::Model;
use wildmask::{Mask, MaskError, Signature, Tail};

/// A hostmask, which matches persons, written as `nick!user@host`. Contracts see its text as it was given.
#[derive(Debug, Drop)]
pub struct Hostmask {
    mask: Mask,
}

impl Model for Hostmask {
    ghost use Rattle.std.specs.Prelude.{List, ℕ, ◌≡◌};
    ghost use Rattle.wildmask.specs.declared.items.MaskKind.TheVariants.{Host};

    ghost Value = { List ℕ };

    ghost view = { λ h. h.mask.text };

    ghost invariant = { λ h. h.mask.kind ≡ Host };
}

impl Hostmask {
    ghost use Rattle.std.specs.Prelude.{◌≡◌, ◌↔◌, ◌≤◌, IsTrue, true, length};
    ghost use Rattle.wildmask.specs.Masks.{host_mask, IsMatchBy};
    ghost use Rattle.userfile.specs.Shapes.{is_hostmask};
    ghost use Rattle.userfile.specs.Hostmasks.{MakesHostmask, is_match, literals, mask_tail, mask_pairs};

    /// Creates the hostmask of `text`.
    ///
    /// # Errors
    /// `Refused` with the first fault of the text, or `NoMemory` if it has none and a copy cannot be allocated.
    pub fn new(alloc: Global, text: &[u8]) -> Result<Hostmask, MaskError>
        ensures { MakesHostmask text.now result }
    {
        let mask = Mask::host(alloc, text)?;
        Ok(Hostmask { mask })
    }

    /// Returns the text as it was given.
    pub fn as_bytes(&self) -> &[u8]
        ensures given { result.now ≡ self.now }
        ensures good { is_hostmask self.now ≡ true }
    {
        self.mask.text()
    }

    /// Returns whether the mask matches the person `who`. Letters are compared by `mapping`, the casemapping of the
    /// person's server.
    pub fn matches(&self, mapping: Casemapping, who: &[u8]) -> bool
        ensures relation { IsTrue result ↔ IsMatchBy mapping (host_mask self.now) who.now }
        ensures test { result ≡ is_match mapping self.now who.now }
    {
        self.mask.matches_by(mapping, who)
    }

    // The mask's tail.
    pub(crate) fn tail(&self) -> Tail
        ensures value { result ≡ mask_tail self.now }
        ensures short { length result ≤ 16 }
    {
        self.mask.tail()
    }

    // The pairs of adjacent bytes that the mask needs.
    pub(crate) fn pairs(&self) -> Signature
        ensures { result ≡ mask_pairs self.now }
    {
        self.mask.signature()
    }

    /// Returns the number of literals among the mask's items.
    pub fn literals(&self) -> u8
        ensures { result ≡ literals self.now }
    {
        self.mask.literals()
    }
}

impl TryCopy for Hostmask {
    fn copy(&self, alloc: Global) -> Result<Hostmask, NoMemory> {
        let mask = self.mask.copy(alloc)?;
        Ok(Hostmask { mask })
    }
}

/// A list of hostmasks. Contracts see their texts in order.
#[derive(Debug, Drop)]
pub struct Hostmasks {
    items: Vec<Hostmask>,
}

impl Model for Hostmasks {
    ghost use Rattle.std.specs.Prelude.{List, ℕ};

    ghost Value = { List (List ℕ) };

    ghost view = { λ h. h.items.items };
}

impl Hostmasks {
    ghost use Rattle.std.specs.Prelude.{◌≡◌, [], ◌∷◌, ◌++◌, OnOk, OnErr, length};
    ghost use Rattle.userfile.specs.Held.{has_mask, masks_without};

    /// Creates the list of the masks `items`. Does not allocate.
    pub fn new(items: Vec<Hostmask>) -> Hostmasks
        ensures { result ≡ items.items }
    {
        Hostmasks { items }
    }

    /// Creates a list without masks. Does not allocate.
    pub fn empty(alloc: Global) -> Hostmasks
        ensures { result ≡ [] }
    {
        Hostmasks::new(Vec::new(alloc))
    }

    /// Returns the masks, in order.
    pub fn as_slice(&self) -> &[Hostmask]
        ensures { result.now ≡ self.now }
    {
        self.items.as_slice()
    }

    /// Returns the number of masks.
    pub fn len(&self) -> usize
        ensures { result ≡ length self.now }
    {
        self.items.len()
    }

    /// Returns the masks as a `Vec`. Does not allocate.
    pub fn into_vec(self) -> Vec<Hostmask>
        ensures { result.items ≡ self }
    {
        self.items
    }

    /// Returns whether one of the masks has the text `mask`, by casemapping.
    pub fn has(&self, mask: &[u8]) -> bool
        ensures { result ≡ has_mask mask.now self.now }
    {
        has_mask(self.items.as_slice(), mask)
    }

    // Appends a mask.
    pub(crate) fn push(&mut self, mask: Hostmask) -> Result<(), NoMemory>
        ensures ok { OnOk result (self.new ≡ self.old ++ mask ∷ []) }
        ensures err { OnErr result (self.new ≡ self.old) }
    {
        self.items.push(mask)?;
        Ok(())
    }

    // Removes the mask of this text.
    pub(crate) fn remove(&mut self, mask: &[u8])
        ensures { self.new ≡ masks_without mask.now self.old }
    {
        keep_others(&mut self.items, mask);
    }
}

impl TryCopy for Hostmasks {
    fn copy(&self, alloc: Global) -> Result<Hostmasks, NoMemory> {
        let items = copies_of(alloc, self.items.as_slice())?;
        Ok(Hostmasks { items })
    }
}

// Whether one of the masks has this text, by casemapping.
pub(crate) fn has_mask(masks: &[Hostmask], mask: &[u8]) -> bool
    ensures { result ≡ has_mask mask.now masks.now }
{
    masks.iter().any(|held| is_same(mask, held.as_bytes()))
}

// Removes the masks of this text, and keeps the others in their order.
fn keep_others(masks: &mut Vec<Hostmask>, mask: &[u8])
    ensures { masks.new.items ≡ masks_without mask.now masks.old.items }
{
    masks.retain(|held| !is_same(mask, held.as_bytes()));
}
