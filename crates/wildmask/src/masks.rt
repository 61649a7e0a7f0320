// A mask: its text, and what a match needs of it.

use crate::checks::fault_of;
use crate::counts::Count;
use crate::faults::MaskError;
use crate::items::{MaskKind, ends_plainly};
use crate::needs::needs_of;
use crate::pattern::Pattern;
use crate::signatures::Signature;
use crate::tails::{MOST_BYTES, Tail};
use crate::wide_signatures::WideSignature;
use bytetext::{NoMemory, Text, TryCopy, refuse};
use rfccase::Casemapping;
use std::alloc::Global;
use std::marker::Model;

/// A mask: a text with wildcards, which matches other texts. Contracts see the text as it was given, and whether the
/// mask is a bind's or a hostmask.
///
/// ```text
/// let mask = Mask::host(alloc, b"*!bo?@*.net")?;
/// let who = b"x!Bob@a.net";
/// mask.tail() == Tail::of_end(who, 4)                      // true: the same group
/// mask.signature().is_within(Signature::of(who))           // true: worth a match
/// mask.matches(who)                                        // true
/// ```
#[derive(Debug, Drop)]
pub struct Mask {
    kind: MaskKind,
    text: Text,
    literals: u8,
    signature: Signature,
}

impl Model for Mask {
    ghost use Rattle.std.specs.Prelude.{◌≡◌, None};
    ghost use Rattle.wildmask.specs.Items.{items_of, literals_of};
    ghost use Rattle.wildmask.specs.Masks.{GivenMask, fault_of};
    ghost use Rattle.wildmask.specs.Signatures.{items_signature};

    ghost Value = { GivenMask };

    ghost view = { λ m. record { kind = m.kind; text = m.text } };

    ghost invariant = { λ m. (fault_of m.kind m.text ≡ None) × (m.literals ≡ literals_of m.kind m.text)
        × (m.signature ≡ items_signature (items_of m.kind m.text)) };
}

impl Mask {
    ghost use Rattle.rfccase.specs.declared.casemappings.Casemapping.{Casemapping};
    ghost use Rattle.std.specs.Prelude.{◌≡◌, ◌↔◌, ◌+◌, ◌*◌, ◌≤◌, ℕ, List, IsTrue, None, length, map};
    ghost use Rattle.wildmask.specs.declared.items.MaskKind.TheVariants.{Bind, Host};
    ghost use Rattle.wildmask.specs.Codes.{lower};
    ghost use Rattle.wildmask.specs.Items.{literals_of};
    ghost use Rattle.wildmask.specs.Masks.{IsMatch, IsMatchBy, Makes, fault_of, is_match, is_match_by, mask_items};
    ghost use Rattle.wildmask.specs.Signatures.{is_within, items_signature, text_signature};
    ghost use Rattle.wildmask.specs.WideSignatures.{is_wide_within, wide_items_signature, wide_text_signature};
    ghost use Rattle.wildmask.specs.Tails.{end_key, tail_of};

    /// Creates the mask of a bind from `text` (Eggdrop's Tcl commands document, "bind"): `?` is one byte, `*` any
    /// bytes, `%` any bytes without a space, `~` one or more spaces, and `\` makes `? * % ~ \` literal. Other bytes
    /// are literals.
    ///
    /// # Errors
    /// M2 if the text is empty; then M1 if it has more than 120 bytes; then `NoMemory` if a copy of it cannot be
    /// allocated.
    pub fn bind(alloc: Global, text: &[u8]) -> Result<Mask, MaskError>
        ensures { Makes Bind text.now result }
    {
        Mask::of(alloc, MaskKind::Bind, text)
    }

    /// Creates a hostmask from `text`, to match texts `nick!user@host`: as [`Mask::bind`], but `%` and `~` are
    /// literals. The text may also be `$a:NAME`, the account `NAME` of the IRC network, where no byte of `NAME` is one
    /// of `! @ * ?`. Such a mask matches by the same rule, so it matches no `nick!user@host`.
    ///
    /// # Errors
    /// M2 if the text is empty; then M1 if it has more than 120 bytes; then M3 if a byte is a space or below, or the text
    /// has neither an `@` after its first `!` nor the form `$a:NAME`; then `NoMemory` if a copy of the text cannot be
    /// allocated.
    pub fn host(alloc: Global, text: &[u8]) -> Result<Mask, MaskError>
        ensures { Makes Host text.now result }
    {
        Mask::of(alloc, MaskKind::Host, text)
    }

    fn of(alloc: Global, kind: MaskKind, text: &[u8]) -> Result<Mask, MaskError>
        ensures { Makes kind text.now result }
    {
        refuse(fault_of(kind, text))?;
        let needs = needs_of(kind, text);
        let text = Text::from_slice(alloc, text)?;
        Ok(Mask {
            kind,
            text,
            literals: needs.literals,
            signature: needs.pairs,
        })
    }

    /// Returns whether the mask matches all of `text`, by the casemapping of RFC 2812. Does not allocate.
    pub fn matches(&self, text: &[u8]) -> bool
        ensures matches { IsTrue result ↔ IsMatch self.now text.now }
        ensures test { result ≡ is_match self.now text.now }
    {
        self.matches_by(Casemapping::Rfc1459, text)
    }

    /// Returns whether the mask matches all of `text`, by a server's casemapping. Does not allocate.
    pub fn matches_by(&self, mapping: Casemapping, text: &[u8]) -> bool
        ensures matches { IsTrue result ↔ IsMatchBy mapping self.now text.now }
        ensures test { result ≡ is_match_by mapping self.now text.now }
    {
        self.matches_counted(mapping, text, &mut Count::new())
    }

    /// Returns whether the mask matches all of `text`, by a server's casemapping, and adds one to `count` for each
    /// comparison of an item with a byte. It compares the literals at the end first, from the last one backwards, and then
    /// moves a set of places among the other items over the text once. So a mask of `m` items and a text of `n` bytes
    /// take at most `(m + 1) * (n + 1)` comparisons.
    pub fn matches_counted(&self, mapping: Casemapping, text: &[u8], count: &mut Count) -> bool
        ensures matches { IsTrue result ↔ IsMatchBy mapping self.now text.now }
        ensures test { result ≡ is_match_by mapping self.now text.now }
        ensures counted { count.new.steps ≤ count.old.steps + (length (mask_items self.now) + 1) * (length text.now + 1) }
    {
        self.pattern(mapping).matches(mapping, text, count)
    }

    /// Returns the number of literals among the mask's items. An escaped byte counts as one.
    pub fn literals(&self) -> u8
        ensures { result ≡ literals_of self.now.kind self.now.text }
    {
        self.literals
    }

    /// Returns the mask's tail: the lower cases of the literals after its last special item, the last 16 at most. A
    /// text that the mask matches ends with it, by whichever casemapping it matches.
    pub fn tail(&self) -> Tail
        ensures value { result ≡ tail_of (mask_items self.now) }
        ensures ends { (by : Casemapping) (text : List ℕ) → IsMatchBy by self.now text → result ≡ end_key (length result) text }
        ensures within { (by : Casemapping) (text : List ℕ) → IsMatchBy by self.now text → length result ≤ length text }
        ensures short { length result ≤ 16 }
    {
        self.last_literals()
    }

    // The literals after the last special item. Most texts end with so many literals that they need not be parsed.
    fn last_literals(&self) -> Tail
        ensures { result ≡ tail_of (mask_items self.now) }
    {
        let text = self.text.as_bytes();
        if ends_plainly(text) {
            Tail::of_end(text, MOST_BYTES)
        } else {
            self.pattern(Casemapping::Rfc1459).tail()
        }
    }

    /// Returns the pairs of adjacent literals that the mask needs. A text that the mask matches has each of them, by
    /// whichever casemapping it matches.
    pub fn signature(&self) -> Signature
        ensures value { result ≡ items_signature (mask_items self.now) }
        ensures needed { (by : Casemapping) (text : List ℕ) → IsMatchBy by self.now text → IsTrue (is_within result (text_signature text)) }
    {
        self.signature
    }

    /// Returns the pairs of adjacent literals that the mask needs, in 256 places. A text that the mask matches has each of
    /// them, by whichever casemapping it matches.
    pub fn wide_signature(&self) -> WideSignature
        ensures value { result ≡ wide_items_signature (mask_items self.now) }
        ensures needed { (by : Casemapping) (text : List ℕ) → IsMatchBy by self.now text → IsTrue (is_wide_within result (wide_text_signature text)) }
    {
        self.pattern(Casemapping::Rfc1459).wide_signature()
    }

    // Parses the items of the mask from its text. Many masks are kept and few are matched, so no mask keeps its items.
    fn pattern(&self, mapping: Casemapping) -> Pattern
        ensures { result ≡ map (lower mapping) (mask_items self.now) }
    {
        Pattern::of(mapping, self.kind, self.text.as_bytes())
    }

    /// Returns the mask's text as it was given.
    pub fn text(&self) -> &[u8]
        ensures given { result.now ≡ self.now.text }
        ensures sound { fault_of self.now.kind self.now.text ≡ None }
    {
        self.text.as_bytes()
    }
}

impl TryCopy for Mask {
    fn copy(&self, alloc: Global) -> Result<Mask, NoMemory> {
        let text = self.text.copy(alloc)?;
        Ok(Mask {
            kind: self.kind,
            text,
            literals: self.literals,
            signature: self.signature,
        })
    }
}
