// An answer as a terminal may show it.
ghost use Rattle.std.specs.Prelude.{◌≡◌, ◌++◌, ◌&&◌, ◌||◌, false, not, IfOk, OnErr, OnOk};
ghost use Rattle.std.specs.Str.{is_utf8};
ghost use Rattle.commandline.specs.Escapes.{begins_control, digit, escape, has_control, is_clean, is_control, is_shown, shown_as};

use bytetext::NoMemory;
use std::alloc::Global;
use std::str;

/// Returns `answer` as a terminal may show it, which a control byte could command. UTF-8 without control characters, but
/// for line feeds, stays as it is. Of any other answer, each byte but line feeds, spaces and printable ASCII becomes `\x`
/// and two hexadecimal digits.
///
/// # Errors
/// `NoMemory` if an allocation fails: never if the answer stays as it is.
pub fn escaped(alloc: Global, answer: Vec<u8>) -> Result<Vec<u8>, NoMemory>
    ensures shown { IfOk result (λ shown. shown.items ≡ shown_as answer.items) }
    ensures harmless { IfOk result (λ shown. has_control shown.items ≡ false) }
    ensures memory { OnErr result (is_clean answer.items ≡ false) }
{
    if is_clean(answer.as_slice()) {
        return Ok(answer);
    }
    let mut shown = Vec::new(alloc);
    for byte in answer.as_slice() {
        put_escape(&mut shown, *byte)?;
    }
    Ok(shown)
}

// Whether bytes are UTF-8 without control characters, but for line feeds.
fn is_clean(bytes: &[u8]) -> bool
    ensures { result ≡ is_clean bytes.now }
{
    match str::from_utf8(bytes) {
        Ok(_) => !has_control(bytes),
        Err(_) => false,
    }
}

// Whether a control character is among UTF-8 text.
fn has_control(bytes: &[u8]) -> bool
    ensures { result ≡ has_control bytes.now }
{
    let mut rest = bytes;
    while let Some((byte, behind)) = rest.split_first() {
        if is_control(*byte) || (*byte == 194 && begins_control(behind)) {
            return true;
        }
        rest = behind;
    }
    false
}

// Whether a byte is an ASCII control character, and no line feed.
fn is_control(byte: u8) -> bool
    ensures { result ≡ is_control byte }
{
    (byte < 32 && byte != 10) || byte == 127
}

// Whether bytes that follow 194 end one of the control characters U+0080 to U+009F.
fn begins_control(bytes: &[u8]) -> bool
    ensures { result ≡ begins_control bytes.now }
{
    match bytes.first() {
        Some(byte) => *byte >= 128 && *byte <= 159,
        None => false,
    }
}

// Appends a byte as it is shown.
fn put_escape(shown: &mut Vec<u8>, byte: u8) -> Result<(), NoMemory>
    ensures { OnOk result (shown.new.items ≡ shown.old.items ++ escape byte) }
{
    if is_shown(byte) {
        shown.push(byte)?;
    } else {
        shown.extend_from_slice(&[b'\\', b'x', digit(byte / 16), digit(byte % 16)])?;
    }
    Ok(())
}

// Whether a byte is shown as it is.
fn is_shown(byte: u8) -> bool
    ensures { result ≡ is_shown byte }
{
    (byte >= 32 && byte <= 126) || byte == 10
}

// The hexadecimal digit of a number below 16.
fn digit(number: u8) -> u8
    ensures { result ≡ digit number }
{
    if number < 10 {
        b'0' + number
    } else if number < 16 {
        b'a' - 10 + number
    } else {
        b'?'
    }
}
