// The server's messages of a SCRAM exchange.
ghost use Rattle.std.specs.Prelude.{◌≡◌, ◌≤◌, ◌<◌, None, Some, MatchResult, length};
ghost use Rattle.registration.specs.Messages.{begins_with, count_fault, count_in, count_of, digit_onto, digits_from, first_fault};
ghost use Rattle.registration.specs.Messages.{is_named, nonce_in, part_len, part_of, rest_of, salt_in, value_of, verifier_fault};

use crate::limits::{MAX_ITERATIONS, MIN_ITERATIONS};
use crate::scram_fault::ScramFault;

// A server-first-message that is not refused, but for its salt.
#[derive(Clone, Copy)]
pub(crate) struct ServerFirst<'a> {
    pub(crate) nonce: &'a [u8],
    // In Base64.
    pub(crate) salt: &'a [u8],
    pub(crate) iterations: u32,
}

// Reads a server-first-message, to a client whose nonce is `own`.
pub(crate) fn server_first<'a>(own: &[u8], message: &'a [u8]) -> Result<ServerFirst<'a>, ScramFault>
    ensures read { MatchResult result
        (λ first. (first_fault own.now message.now ≡ None) × (first.nonce.now ≡ nonce_in message.now)
        × (first.salt.now ≡ salt_in message.now) × (count_in message.now ≡ Some first.iterations)
        × (MIN_ITERATIONS ≤ first.iterations) × (first.iterations ≤ MAX_ITERATIONS))
        (λ fault. first_fault own.now message.now ≡ Some fault) }
{
    let salt_on = rest_of(message);
    let nonce = part_of(message);
    let salt = part_of(salt_on);
    let count = part_of(rest_of(salt_on));
    if !(is_named(b"r=", nonce) && is_named(b"s=", salt) && is_named(b"i=", count)) {
        return Err(ScramFault::Unreadable);
    }
    if !begins_with(own, value_of(nonce)) {
        return Err(ScramFault::ForeignNonce);
    }
    let iterations = iterations_in(count_of(value_of(count)))?;
    Ok(ServerFirst {
        nonce: value_of(nonce),
        salt: value_of(salt),
        iterations,
    })
}

// The number of iterations, if it is within the limits.
fn iterations_in(count: Option<u32>) -> Result<u32, ScramFault>
    ensures { MatchResult result
        (λ iterations. (count_fault count ≡ None) × (count ≡ Some iterations)
        × (MIN_ITERATIONS ≤ iterations) × (iterations ≤ MAX_ITERATIONS))
        (λ fault. count_fault count ≡ Some fault) }
{
    let Some(iterations) = count else {
        return Err(ScramFault::Unreadable);
    };
    if iterations < MIN_ITERATIONS {
        Err(ScramFault::TooFewIterations)
    } else if iterations > MAX_ITERATIONS {
        Err(ScramFault::TooManyIterations)
    } else {
        Ok(iterations)
    }
}

// Why a server-final-message does not show this verifier, `v=..`.
pub(crate) fn verifier_fault(verifier: &[u8], message: &[u8]) -> Option<ScramFault>
    ensures { result ≡ verifier_fault verifier.now message.now }
{
    let part = part_of(message);
    if part == verifier {
        None
    } else if is_named(b"e=", part) {
        Some(ScramFault::ServerError)
    } else {
        Some(ScramFault::WrongSignature)
    }
}

// The bytes before the first comma, or all if there is none.
fn part_of(text: &[u8]) -> &[u8]
    ensures { result.now ≡ part_of text.now }
{
    &text[..part_len(text)]
}

// The bytes after the first comma.
fn rest_of(text: &[u8]) -> &[u8]
    ensures { result.now ≡ rest_of text.now }
{
    let count = part_len(text);
    if count < text.len() {
        &text[count + 1..]
    } else {
        b""
    }
}

// The number of bytes before the first comma.
fn part_len(text: &[u8]) -> usize
    ensures value { result ≡ part_len text.now }
    ensures within { result ≤ length text.now }
{
    let mut count = 0;
    while count < text.len() && text[count] != b',' {
        count += 1;
    }
    count
}

// Whether a part has this name, a letter and '='.
fn is_named(name: &[u8; 2], part: &[u8]) -> bool
    ensures { result ≡ is_named name.now part.now }
{
    part.len() >= 2 && part[..2] == name[..]
}

// The bytes of a part after its name.
fn value_of(part: &[u8]) -> &[u8]
    ensures { result.now ≡ value_of part.now }
{
    if part.len() > 2 { &part[2..] } else { b"" }
}

// Whether a nonce begins with the client's own.
fn begins_with(own: &[u8], nonce: &[u8]) -> bool
    ensures { result ≡ begins_with own.now nonce.now }
{
    nonce.len() >= own.len() && &nonce[..own.len()] == own
}

// The number that these digits stand for, if the first is not 0 and the number is below 2^32.
fn count_of(digits: &[u8]) -> Option<u32>
    ensures { result ≡ count_of digits.now }
{
    match digits {
        [] | [b'0', ..] => None,
        _ => number_of(digits),
    }
}

// The number that these digits stand for, if it is below 2^32.
fn number_of(digits: &[u8]) -> Option<u32>
    ensures { result ≡ digits_from 0 digits.now }
{
    let mut value: u32 = 0;
    for byte in digits {
        value = digit_onto(value, *byte)?;
    }
    Some(value)
}

// The number that one more digit makes of `value`, if it is below 2^32.
fn digit_onto(value: u32, byte: u8) -> Option<u32>
    ensures { result ≡ digit_onto value byte }
{
    if byte < 48 || byte > 57 {
        return None;
    }
    let longer = u64::from(value) * 10 + u64::from(byte - 48);
    if longer < 4_294_967_296 {
        Some(longer as u32)
    } else {
        None
    }
}
