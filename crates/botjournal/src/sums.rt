// The sums that the texts of a journal carry.
ghost use Rattle.std.specs.Prelude.{◌≡◌, IfOk, OnOk, take};
ghost use Rattle.botjournal.specs.declared.TheConstants.{LAYOUT};
ghost use Rattle.botjournal.specs.Bases.{HasShapes, base_bytes};
ghost use Rattle.botjournal.specs.Entries.{HasShape, entry_bytes};
ghost use Rattle.botjournal.specs.Sums.{start, after, sealed, step, through};

use crate::LAYOUT;
use crate::base::Base;
use crate::bases::write_base;
use crate::entries::write_entry;
use crate::entry::Entry;
use bytetext::{NoMemory, Text};
use sha2::{Digest as _, Sha256};
use std::alloc::Global;

/// How many bytes a sum has.
pub(crate) const SUM: usize = 8;

/// What the next text's sum stands on: the sum before it, and its place in its half, which counts from 0 for the base.
#[derive(Clone, Copy)]
pub(crate) struct Seal {
    sum: [u8; 8],
    place: u64,
}

/// A text that ends with its sum, and the seal after it.
#[derive(Drop)]
pub(crate) struct Sealed {
    pub(crate) text: Vec<u8>,
    pub(crate) seal: Seal,
}

/// Returns the text of `base` alone in this generation.
pub(crate) fn sealed_base(alloc: Global, generation: u32, base: &Base) -> Result<Sealed, NoMemory>
    requires { HasShapes base.now }
    ensures text { IfOk result (λ made. made.text.items ≡ sealed (start LAYOUT generation) (base_bytes base.now)) }
    ensures seal { IfOk result (λ made. made.seal ≡ after (start LAYOUT generation) (base_bytes base.now)) }
{
    let mut text = write_base(alloc, base)?;
    let seal = Seal::start(LAYOUT, generation).put(&mut text)?;
    Ok(Sealed { text, seal })
}

/// Returns the text of `entry` after this seal.
pub(crate) fn sealed_entry(alloc: Global, before: Seal, entry: &Entry) -> Result<Sealed, NoMemory>
    requires { HasShape entry.now }
    ensures text { IfOk result (λ made. made.text.items ≡ sealed before (entry_bytes entry.now)) }
    ensures seal { IfOk result (λ made. made.seal ≡ after before (entry_bytes entry.now)) }
{
    let mut text = write_entry(alloc, entry)?;
    let seal = before.put(&mut text)?;
    Ok(Sealed { text, seal })
}

impl Seal {
    /// Returns the seal before a base of this layout and generation.
    pub(crate) fn start(layout: u8, generation: u32) -> Seal
        ensures { result ≡ start layout generation }
    {
        let number = layout as u64 * 0x1_0000_0000 + generation as u64;
        Seal {
            sum: number.to_be_bytes(),
            place: 0,
        }
    }

    /// Adds its sum to a text, and returns the seal after it.
    fn put(self, text: &mut Vec<u8>) -> Result<Seal, NoMemory>
        ensures text { OnOk result (text.new.items ≡ sealed self text.old.items) }
        ensures seal { IfOk result (λ seal. seal ≡ after self text.old.items) }
    {
        let next = self.after(text);
        text.extend_from_slice(&next.sum)?;
        Ok(next)
    }

    /// Returns the seal after `text` if it ends with its sum.
    pub(crate) fn step(self, text: &[u8]) -> Option<Seal>
        ensures { result ≡ step self text.now }
    {
        if text.len() < SUM {
            return None;
        }
        let end = text.len() - SUM;
        let next = self.after(&text[..end]);
        if &text[end..] == next.sum.as_slice() {
            Some(next)
        } else {
            None
        }
    }

    /// Returns the seal after these texts if each of them ends with its sum.
    pub(crate) fn through(self, texts: &[Text]) -> Option<Seal>
        ensures { result ≡ through self texts.now }
    {
        let mut seal = self;
        for text in texts {
            match seal.step(text.as_bytes()) {
                Some(next) => seal = next,
                None => return None,
            }
        }
        Some(seal)
    }

    // The seal after a text of these bytes and its sum.
    #[tactic(auto, unfolding(crate::specs::Sums::sum_after))]
    fn after(self, bytes: &[u8]) -> Seal
        ensures { result ≡ after self bytes.now }
    {
        let mut hasher = Sha256::new();
        hasher.update(self.sum);
        hasher.update(self.place.to_be_bytes());
        hasher.update((bytes.len() as u64).to_be_bytes());
        hasher.update(bytes);
        Seal {
            sum: first_bytes(hasher.finalize()),
            place: self.place.wrapping_add(1),
        }
    }
}

// The first eight bytes of a digest.
fn first_bytes(digest: [u8; 32]) -> [u8; 8]
    ensures { result ≡ take 8 digest }
{
    let mut sum = [0; 8];
    sum.copy_from_slice(&digest[..8]);
    sum
}
