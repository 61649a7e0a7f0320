// Splits a text at a byte.
ghost use Rattle.std.specs.Prelude.{◌≡◌, ◌≤◌, ℕ, Bool, true, false, [], length, MatchOption};
ghost use Rattle.std.specs.Option.{ForSome};
ghost use Rattle.bstr.specs.Find.{IsFirstByte};
ghost use Rattle.ircline.specs.Words.{up_to, from_first, holds, before, behind};

use bstr::ByteSlice as _;

/// Splits `text` at the index `first`, where a search found its byte. Returns all of the text and nothing if the search
/// found none.
pub fn parted(text: &[u8], first: Option<usize>) -> (&[u8], &[u8])
    requires { ForSome first (λ i. i ≤ length text.now) }
    ensures { (test : ℕ → Bool) → IsFirstByte test text.now first
        → (result.0.now ≡ up_to test text.now) × (result.1.now ≡ from_first test text.now) }
{
    match first {
        Some(place) => text.split_at(place),
        None => (text, b""),
    }
}

/// Returns whether `text` holds `byte`.
pub fn holds(text: &[u8], byte: u8) -> bool
    ensures { result ≡ holds byte text.now }
{
    halves(text, byte).is_some()
}

/// Returns what is before and after the first `byte` in `text`, or `None` if there is none.
pub fn halves(text: &[u8], byte: u8) -> Option<(&[u8], &[u8])>
    ensures { MatchOption result
        ((holds byte text.now ≡ false) × (before byte text.now ≡ text.now) × (behind byte text.now ≡ []))
        (λ parts. (holds byte text.now ≡ true)
        × (parts.0.now ≡ before byte text.now) × (parts.1.now ≡ behind byte text.now)) }
{
    match text.find_byte(byte) {
        Some(place) => {
            let (front, back) = text.split_at(place);
            Some((front, &back[1..]))
        }
        None => None,
    }
}
