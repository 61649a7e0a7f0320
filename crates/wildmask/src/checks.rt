// Which texts are masks.
ghost use Rattle.std.specs.Prelude.{◌≡◌, ◌==◌, nat_lt, position};
ghost use Rattle.std.specs.List.{list_all, list_any};
ghost use Rattle.wildmask.specs.Masks.{fault_of, bind_fault, host_fault, is_hostmask, is_person_mask, is_account_mask, is_account_byte};

use crate::faults::MaskFault;
use crate::items::MaskKind;

/// The most bytes that a mask has.
pub const MOST_BYTES: usize = 120;

/// Returns the fault for which [`Mask::bind`](crate::Mask::bind) would reject `text`. Does not allocate.
pub fn bind_fault(text: &[u8]) -> Option<MaskFault>
    ensures { result ≡ bind_fault text.now }
{
    fault_of(MaskKind::Bind, text)
}

/// Returns the fault for which [`Mask::host`](crate::Mask::host) would reject `text`. Does not allocate.
pub fn host_fault(text: &[u8]) -> Option<MaskFault>
    ensures { result ≡ host_fault text.now }
{
    fault_of(MaskKind::Host, text)
}

/// Returns the first fault of `text` as a mask of this `kind`.
pub fn fault_of(kind: MaskKind, text: &[u8]) -> Option<MaskFault>
    ensures { result ≡ fault_of kind text.now }
{
    if text.is_empty() {
        return Some(MaskFault::MaskEmpty);
    }
    if text.len() > MOST_BYTES {
        return Some(MaskFault::MaskTooLong);
    }
    match kind {
        MaskKind::Host if !is_hostmask(text) => Some(MaskFault::NotAHostmask),
        MaskKind::Host | MaskKind::Bind => None,
    }
}

fn is_hostmask(text: &[u8]) -> bool
    ensures { result ≡ is_hostmask text.now }
{
    is_person_mask(text) || is_account_mask(text)
}

// Whether each byte is above the space, and an `@` follows the first `!`.
fn is_person_mask(text: &[u8]) -> bool
    ensures { result ≡ is_person_mask text.now }
{
    let Some(bang) = first_bang(text) else {
        return false;
    };
    is_printable(text) && has_at(&text[bang + 1..])
}

// Whether a byte is an `@`. Most texts have one among their first bytes, so this looks at one byte at a time.
fn has_at(text: &[u8]) -> bool
    ensures { result ≡ list_any (λ b. b == 64) text.now }
{
    text.iter().any(|byte| *byte == b'@')
}

fn is_printable(text: &[u8]) -> bool
    ensures { result ≡ list_all (λ b. nat_lt 32 b) text.now }
{
    // No early exit, so that a compiler may look at many bytes at once.
    let mut good = true;
    for byte in text {
        good &= *byte > b' ';
    }
    good
}

// Whether the text is `$a:` and the name of an account, in which no byte has a meaning of its own.
fn is_account_mask(text: &[u8]) -> bool
    ensures { result ≡ is_account_mask text.now }
{
    text.starts_with(b"$a:") && text.len() > 3 && are_account_bytes(&text[3..])
}

fn are_account_bytes(name: &[u8]) -> bool
    ensures { result ≡ list_all is_account_byte name.now }
{
    name.iter().all(|byte| is_account_byte(*byte))
}

fn is_account_byte(byte: u8) -> bool
    ensures { result ≡ is_account_byte byte }
{
    byte > b' ' && !matches!(byte, b'!' | b'@' | b'*' | b'?')
}

fn first_bang(text: &[u8]) -> Option<usize>
    ensures { result ≡ position (λ b. b == 33) text.now }
{
    text.iter().position(|byte| *byte == b'!')
}
