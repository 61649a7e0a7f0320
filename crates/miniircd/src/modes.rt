// The single modes of a MODE (RFC 2812 section 3.2.3).
ghost use Rattle.std.specs.Prelude.{◌≡◌, ◌++◌, true, IfOk, OnOk};
ghost use Rattle.miniircd.specs.Modes.{has_argument, sign_after, is_letter, takes_argument, argument_of, arguments_after, single_at, singles};

use crate::texts::word;
use bytetext::{NoMemory, Text};
use std::alloc::Global;

/// One mode of a mode string.
#[derive(Drop)]
pub struct Single {
    /// Whether it is set.
    pub on: bool,
    /// Its letter.
    pub letter: u8,
    /// Its argument, empty if it has none.
    pub argument: Text,
}

fn has_argument(on: bool, byte: u8) -> bool
    ensures { result ≡ has_argument on byte }
{
    matches!(byte, b'o' | b'v' | b'b' | b'e' | b'I' | b'k' | b'h') || (on && byte == b'l')
}

fn is_letter(byte: u8) -> bool
    ensures { result ≡ is_letter byte }
{
    !(byte == b'+' || byte == b'-')
}

fn sign_after(on: bool, byte: u8) -> bool
    ensures { result ≡ sign_after on byte }
{
    match byte {
        b'+' => true,
        b'-' => false,
        _ => on,
    }
}

fn takes_argument(on: bool, byte: u8) -> bool
    ensures { result ≡ takes_argument on byte }
{
    is_letter(byte) && has_argument(on, byte)
}

fn argument_of(on: bool, byte: u8, arguments: &[Text]) -> &[u8]
    ensures { result.now ≡ argument_of on byte arguments.now }
{
    if takes_argument(on, byte) {
        word(arguments, 0)
    } else {
        b""
    }
}

fn arguments_after(on: bool, byte: u8, arguments: &[Text]) -> &[Text]
    ensures { result.now ≡ arguments_after on byte arguments.now }
{
    match arguments {
        [_, behind @ ..] if takes_argument(on, byte) => behind,
        _ => arguments,
    }
}

// Appends the single mode of `byte`, if it is one, to `singles`.
fn push_single(
    alloc: Global,
    singles: &mut Vec<Single>,
    on: bool,
    byte: u8,
    arguments: &[Text],
) -> Result<(), NoMemory>
    ensures { OnOk result (singles.new.items ≡ singles.old.items ++ single_at on byte arguments.now) }
{
    if is_letter(byte) {
        singles.push(Single {
            on,
            letter: byte,
            argument: Text::from_slice(alloc, argument_of(on, byte, arguments))?,
        })?;
    }
    Ok(())
}

/// Returns the single modes of the mode string `modes` and its `arguments`.
///
/// # Errors
/// Returns `NoMemory` if an allocation fails.
pub fn singles(alloc: Global, modes: &[u8], arguments: &[Text]) -> Result<Vec<Single>, NoMemory>
    ensures { IfOk result (λ all. all.items ≡ singles true modes.now arguments.now) }
{
    let mut all = Vec::new(alloc);
    let mut on = true;
    let mut rest = arguments;
    for byte in modes {
        push_single(alloc, &mut all, on, *byte, rest)?;
        rest = arguments_after(on, *byte, rest);
        on = sign_after(on, *byte);
    }
    Ok(all)
}
