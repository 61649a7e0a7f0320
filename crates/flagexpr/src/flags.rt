// A set of letters, kept as the bits of a number.
ghost use Rattle.std.specs.Prelude.{◌≡◌, ◌==◌, ℕ, ◌^◌, ◌<◌, ◌↔◌, ◌&&◌, ◌||◌, IsTrue, IfOk, filter, SomeIff};
ghost use Rattle.std.specs.Char.{is_ascii_alphabetic};
ghost use Rattle.std.specs.List.{list_any, list_all};
ghost use Rattle.std.specs.Result.{result_err};
ghost use Rattle.flagexpr.specs.Letters.{place_of, has_letter, with_letter, set_of, letters, shares, is_within, dash_for_none, spelling};
ghost use Rattle.flagexpr.specs.Faults.{is_lone, flags_fault};

use crate::fault::FlagFault;
use bytetext::{NoMemory, Text};
use std::alloc::Global;
use std::marker::Model;

// Every letter, in the order in which flags are printed.
const LETTERS: [u8; 52] = *b"abcdefghijklmnopqrstuvwxyzABCDEFGHIJKLMNOPQRSTUVWXYZ";

/// A set of letters, `a` to `z` and `A` to `Z`.
///
/// Contracts see it as a number below 2 ^ 52 whose bits 0 to 25 stand for `a` to `z` and bits 26 to 51 for `A` to
/// `Z`. Two sets are equal as numbers exactly if they have the same letters.
#[derive(Clone, Copy, Debug, PartialEq, Eq)]
pub struct Flags {
    bits: u64,
}

impl Model for Flags {
    ghost use Rattle.std.specs.Prelude.{ℕ, ◌<◌, ◌^◌};

    ghost Value = { ℕ };

    ghost view = { λ f. f.bits };

    ghost invariant = { λ f. f.bits < 2 ^ 52 };

    ghost inverse = { λ n. record { bits = n } };
}

impl Flags {
    /// Returns the set without letters.
    pub fn empty() -> Flags
        ensures { result ≡ 0 }
    {
        Flags { bits: 0 }
    }

    /// Parses `text` as a set of letters, in any order and with repeats; `-` and the empty text have none.
    ///
    /// # Errors
    /// `BadLetter` if a byte is not a letter, unless the text is `-` alone.
    #[tactic(auto, unfolding(crate::specs::Faults::flags_fault))]
    pub fn parse(text: &[u8]) -> Result<Flags, FlagFault>
        ensures fault { result_err result ≡ flags_fault text.now }
        ensures value { IfOk result (λ flags. flags ≡ set_of text.now) }
        ensures letters { IfOk result (λ flags. (letter : ℕ) →
            has_letter flags letter ≡ (is_ascii_alphabetic letter && list_any (λ b. b == letter) text.now)) }
    {
        if !are_flags(text) {
            return Err(FlagFault::BadLetter);
        }
        Ok(Flags::of(text))
    }

    // The letters among some bytes.
    pub(crate) fn of(bytes: &[u8]) -> Flags
        ensures { result ≡ set_of bytes.now }
    {
        let mut flags = Flags::empty();
        for byte in bytes {
            flags = flags.with(*byte);
        }
        flags
    }

    /// Creates the set of these `bits`: bits 0 to 25 are `a` to `z`, bits 26 to 51 are `A` to `Z`. Returns `None` if
    /// any other bit is set.
    pub fn from_bits(bits: u64) -> Option<Flags>
        ensures { SomeIff result (bits < 2 ^ 52) bits }
    {
        if bits < 1 << 52 {
            Some(Flags { bits })
        } else {
            None
        }
    }

    /// Returns the set as bits, as [`Flags::from_bits`] takes them.
    pub fn bits(self) -> u64
        ensures value { result ≡ self }
        ensures small { result < 2 ^ 52 }
        // Sets with the same letters are the same number.
        ensures same { (other : ℕ) → other < 2 ^ 52 → ((letter : ℕ) → has_letter self letter ≡ has_letter other letter) → self ≡ other }
    {
        self.bits
    }

    /// Returns whether `letter` is in the set. A byte that is not a letter never is.
    #[tactic(auto, unfolding(crate::specs::Letters::has_letter))]
    pub fn has(self, letter: u8) -> bool
        ensures { result ≡ has_letter self letter }
    {
        letter.is_ascii_alphabetic() && self.bits >> place_of(letter) & 1 == 1
    }

    /// Returns whether the set has no letters.
    pub fn is_empty(self) -> bool
        ensures { IsTrue result ↔ (self ≡ 0) }
    {
        self.bits == 0
    }

    // The set with this byte too, if it is a letter.
    #[tactic(auto, unfolding(crate::specs::Letters::with_letter))]
    pub(crate) fn with(self, byte: u8) -> Flags
        ensures { result ≡ with_letter self byte }
    {
        if !byte.is_ascii_alphabetic() {
            return self;
        }
        Flags {
            bits: self.bits | 1 << place_of(byte),
        }
    }

    // Whether any letter is in both sets.
    pub(crate) fn shares(self, other: Flags) -> bool
        ensures { result ≡ shares self other }
    {
        self.bits & other.bits != 0
    }

    // Whether each letter of this set is in the other.
    pub(crate) fn is_within(self, other: Flags) -> bool
        ensures { result ≡ is_within self other }
    {
        self.bits & other.bits == self.bits
    }

    /// Returns the letters as text, `a` to `z` and then `A` to `Z`, or `-` if there are none. [`Flags::parse`] turns
    /// the text back into this set.
    ///
    /// # Errors
    /// `NoMemory` if the text cannot be allocated.
    pub fn text(self, alloc: Global) -> Result<Text, NoMemory>
        ensures text { IfOk result (λ text. text ≡ spelling self) }
        ensures again { IfOk result (λ text. set_of text ≡ self) }
    {
        let letters = self.kept(alloc, &LETTERS)?;
        let bytes = or_dash(letters)?;
        Ok(Text::new(bytes))
    }

    // Those of the given letters that are in the set, in their order.
    fn kept(self, alloc: Global, letters: &[u8]) -> Result<Vec<u8>, NoMemory>
        ensures kept { IfOk result (λ kept. kept.items ≡ filter (has_letter self) letters.now) }
        ensures small { self < 2 ^ 52 }
    {
        let mut kept = Vec::with_capacity(alloc, self.bits.count_ones() as usize)?;
        for letter in letters {
            if self.has(*letter) {
                kept.push(*letter)?;
            }
        }
        Ok(kept)
    }
}

// The bit of a letter.
fn place_of(letter: u8) -> u32
    requires { IsTrue (is_ascii_alphabetic letter) }
    ensures place { result ≡ place_of letter }
    ensures small { result < 52 }
{
    if letter >= b'a' {
        u32::from(letter - b'a')
    } else {
        u32::from(letter - b'A') + 26
    }
}

// The letters, or `-` if there are none.
fn or_dash(mut letters: Vec<u8>) -> Result<Vec<u8>, NoMemory>
    ensures { IfOk result (λ bytes. bytes.items ≡ dash_for_none letters.items) }
{
    if letters.is_empty() {
        letters.push(b'-')?;
    }
    Ok(letters)
}

// Whether a text is `-` or only letters.
fn are_flags(text: &[u8]) -> bool
    ensures { result ≡ (is_lone 45 text.now || list_all is_ascii_alphabetic text.now) }
{
    is_lone(b'-', text) || are_letters(text)
}

// Whether each byte is a letter.
fn are_letters(text: &[u8]) -> bool
    ensures { result ≡ list_all is_ascii_alphabetic text.now }
{
    for byte in text {
        if !byte.is_ascii_alphabetic() {
            return false;
        }
    }
    true
}

// Whether a text is this one byte.
pub(crate) fn is_lone(byte: u8, text: &[u8]) -> bool
    ensures { result ≡ is_lone byte text.now }
{
    match text {
        [only] => *only == byte,
        _ => false,
    }
}
