// Texts that are the same by casemapping (RFC 2812 section 2.2), and the parameters of a message.
ghost use Rattle.std.specs.Prelude.{◌≡◌, drop, take};
ghost use Rattle.std.specs.List.{slice_get};
ghost use Rattle.std.specs.Option.{option_copied};
ghost use Rattle.rfccase.specs.Casemapping.{is_same};
ghost use Rattle.miniircd.specs.People.{word_at};

use bytetext::Text;
use rfccase::same;

// Returns whether two texts are the same by casemapping.
pub(crate) fn is_same(a: &[u8], b: &[u8]) -> bool
    ensures { result ≡ is_same a.now b.now }
{
    same(a, b)
}

// Returns the parameter at `index`, from 0.
pub(crate) fn param(params: &[Text], index: usize) -> Option<&[u8]>
    ensures { option_copied result ≡ slice_get params.now index }
{
    match params.get(index) {
        Some(text) => Some(text.as_bytes()),
        None => None,
    }
}

// Returns the parameter at `index`, or an empty text if it is missing.
pub(crate) fn word(params: &[Text], index: usize) -> &[u8]
    ensures { result.now ≡ word_at index params.now }
{
    match params.get(index) {
        Some(text) => text.as_bytes(),
        None => b"",
    }
}

// Returns the parameters from the place `from` on.
pub(crate) fn params_from(params: &[Text], from: usize) -> &[Text]
    ensures { result.now ≡ drop from params.now }
{
    if from < params.len() {
        &params[from..]
    } else {
        &[]
    }
}

// Returns the first bytes of a text, at most `len`.
pub(crate) fn front(text: &[u8], len: usize) -> &[u8]
    ensures { result.now ≡ take len text.now }
{
    &text[..len.min(text.len())]
}
