// Mode strings (RFC 2812 sections 3.1.5 and 3.2.3).
ghost use Rattle.std.specs.Prelude.{◌≡◌};
ghost use Rattle.chanstate.specs.Items.{sign_after, is_letter, argument_of, arguments_after, mark_of, rank_of};

use crate::member::Mark;
use crate::support::Support;
use crate::words::{param, params_from};
use bytetext::Text;

// Returns the mark that `letter` stands for, if it is a mode that marks members.
fn mark_by(letter: u8) -> Option<Mark>
    ensures { result ≡ mark_of letter }
{
    match letter {
        b'o' => Some(Mark::Op),
        b'v' => Some(Mark::Voice),
        b'h' => Some(Mark::HalfOp),
        _ => None,
    }
}

/// Returns the mark that the mode `letter` sets or clears, by what the server has announced in `support`.
pub fn mark_in(support: &Support, letter: u8) -> Option<Mark>
    ensures { result ≡ rank_of support.now letter }
{
    if support.is_rank(letter) {
        mark_by(letter)
    } else {
        None
    }
}

/// Returns whether `byte` is a single mode and not a sign.
pub fn is_mode(byte: u8) -> bool
    ensures { result ≡ is_letter byte }
{
    byte != b'+' && byte != b'-'
}

/// Returns whether modes are set after `byte`, if `on` says whether they were before it.
pub fn next_sign(on: bool, byte: u8) -> bool
    ensures { result ≡ sign_after on byte }
{
    match byte {
        b'+' => true,
        b'-' => false,
        _ => on,
    }
}

/// Returns the argument of the mode `letter`, the first of `arguments`; empty if it has none. `on` says whether the
/// mode is set or cleared, and `support` which modes have arguments.
pub fn argument<'a>(support: &Support, on: bool, letter: u8, arguments: &'a [Text]) -> &'a [u8]
    ensures { result.now ≡ argument_of support.now on letter arguments.now }
{
    if support.takes_argument(on, letter) {
        param(arguments, 0).unwrap_or(b"")
    } else {
        b""
    }
}

/// Returns those of `arguments` that are left after `byte`. `on` says whether modes are set or cleared there, and
/// `support` which modes have arguments.
pub fn next_arguments<'a>(
    support: &Support,
    on: bool,
    byte: u8,
    arguments: &'a [Text],
) -> &'a [Text]
    ensures { result.now ≡ arguments_after support.now on byte arguments.now }
{
    if is_mode(byte) && support.takes_argument(on, byte) {
        params_from(arguments, 1)
    } else {
        arguments
    }
}
