// Base64, and names that are escaped.
ghost use Rattle.std.specs.Prelude.{◌≡◌, ◌++◌, None, Some, IfOk, OnOk, MatchOption};
ghost use Rattle.registration.specs.Messages.{base64, escaped, escaped_byte, unbase64};

use base64::DecodeAllocError;
use base64::engine::general_purpose::STANDARD;
use bytetext::NoMemory;
use std::alloc::Global;

// Returns the Base64 of `bytes`.
pub(crate) fn base64_of(alloc: Global, bytes: &[u8]) -> Result<Vec<u8>, NoMemory>
    ensures { IfOk result (λ text. text.items ≡ base64 bytes.now) }
{
    let text = STANDARD.encode(alloc, bytes)?;
    Ok(text.into_bytes())
}

// Returns the bytes that `text` is the Base64 of, or `None` if it is not Base64.
pub(crate) fn bytes_in(alloc: Global, text: &[u8]) -> Result<Option<Vec<u8>>, NoMemory>
    ensures { IfOk result (λ bytes. MatchOption bytes (unbase64 text.now ≡ None) (λ found. unbase64 text.now ≡ Some found.items)) }
{
    match STANDARD.decode(alloc, text) {
        Ok(bytes) => Ok(Some(bytes)),
        Err(DecodeAllocError::DecodeError(_)) => Ok(None),
        Err(DecodeAllocError::OutOfMemory) => Err(NoMemory),
    }
}

// Returns a name as SCRAM writes it: `=` as `=3D`, and `,` as `=2C`.
pub(crate) fn escaped(alloc: Global, name: &[u8]) -> Result<Vec<u8>, NoMemory>
    ensures { IfOk result (λ text. text.items ≡ escaped name.now) }
{
    let mut text = Vec::new(alloc);
    for byte in name {
        put_escaped(&mut text, *byte)?;
    }
    Ok(text)
}

// Appends a byte of a name.
fn put_escaped(text: &mut Vec<u8>, byte: u8) -> Result<(), NoMemory>
    ensures { OnOk result (text.new.items ≡ text.old.items ++ escaped_byte byte) }
{
    match byte {
        b'=' => text.extend_from_slice(b"=3D")?,
        b',' => text.extend_from_slice(b"=2C")?,
        other => text.push(other)?,
    }
    Ok(())
}
