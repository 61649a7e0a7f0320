// A message to a line.
ghost use Rattle.std.specs.Prelude.{◌≡◌, ◌∷◌, [], ◌++◌, length, nat_le, IfOk, IfErr, OnOk};
ghost use Rattle.ircline.specs.Printing.{wants_colon, params_text, prefix_text, canonical, ReadsBack};
ghost use Rattle.ircline.specs.Carrying.{carries_prefix, carries_params, carries};
ghost use Rattle.ircline.specs.Refusals.{Fails};

use crate::classes::{is_kept_command, is_middle, is_prefix, is_trailing};
use crate::fault::{NotPrintable, PrintError};
use crate::message::Message;
use crate::read::LIMIT;
use bytetext::{Failure, NoMemory, Text};
use std::alloc::Global;

// The most parameters that a message may have.
const PARAMS: usize = 15;

/// Returns the canonical line of `message`, with CR and LF: one space between words, and a colon before the last
/// parameter only if it is empty, begins with a colon or holds a space. Ignores the message's `rest`.
///
/// # Errors
/// [`Failure::Refused`] if that line would not read back to the same prefix, command and parameters.
/// [`Failure::NoMemory`] if it would, but the one allocation, of 512 bytes, fails.
pub fn print(alloc: Global, message: &Message) -> Result<Vec<u8>, PrintError>
    ensures line { IfOk result (λ bytes. bytes.items ≡ canonical message.now ++ 13 ∷ 10 ∷ []) }
    ensures back { OnOk result (ReadsBack (canonical message.now) message.now) }
    ensures refused { IfErr result (λ error. Fails message.now error) }
{
    if !is_printable(message) {
        return Err(Failure::Refused(NotPrintable));
    }
    Ok(line_of(alloc, message)?)
}

// Whether the message's line reads back.
fn is_printable(message: &Message) -> bool
    ensures { result ≡ carries message.now }
{
    is_kept_command(message.command.as_bytes())
        && (is_prefix_or_none(message.prefix.as_bytes())
            && (message.params.len() <= PARAMS
                && (are_params(message.params.as_slice()) && is_short(message))))
}

fn is_prefix_or_none(prefix: &[u8]) -> bool
    ensures { result ≡ carries_prefix prefix.now }
{
    match prefix {
        [] => true,
        _ => is_prefix(prefix),
    }
}

// Whether each parameter may stand where it does.
fn are_params(params: &[Text]) -> bool
    ensures { result ≡ carries_params params.now }
{
    let mut rest = params;
    while let [param, behind @ ..] = rest {
        if behind.is_empty() {
            return is_trailing(param.as_bytes());
        }
        if !is_middle(param.as_bytes()) {
            return false;
        }
        rest = behind;
    }
    true
}

// Whether the line has at most 510 bytes before its end.
fn is_short(message: &Message) -> bool
    ensures { result ≡ nat_le (length (canonical message.now)) 510 }
{
    let prefix = message.prefix.as_bytes();
    let room = if prefix.is_empty() {
        Some(LIMIT)
    } else {
        (LIMIT - 2).checked_sub(prefix.len())
    };
    let Some(room) = room else {
        return false;
    };
    let Some(room) = room.checked_sub(message.command.len()) else {
        return false;
    };
    are_within(message.params.as_slice(), room)
}

// Whether the text of the parameters has at most `room` bytes.
fn are_within(params: &[Text], room: usize) -> bool
    ensures { result ≡ nat_le (length (params_text params.now)) room }
{
    let mut rest = params;
    let mut room = room;
    while let [param, behind @ ..] = rest {
        let marks = if behind.is_empty() && wants_colon(param.as_bytes()) {
            2
        } else {
            1
        };
        if room < marks || room - marks < param.len() {
            return false;
        }
        room = room - marks - param.len();
        rest = behind;
    }
    true
}

// Whether a last parameter needs a colon.
fn wants_colon(param: &[u8]) -> bool
    ensures { result ≡ wants_colon param.now }
{
    match param {
        [] => true,
        [first, ..] => *first == b':' || param.contains(&b' '),
    }
}

// The canonical line and its end.
fn line_of(alloc: Global, message: &Message) -> Result<Vec<u8>, NoMemory>
    ensures { IfOk result (λ bytes. bytes.items ≡ canonical message.now ++ 13 ∷ 10 ∷ []) }
{
    let mut line = Vec::with_capacity(alloc, LIMIT + 2)?;
    push_prefix(&mut line, message.prefix.as_bytes())?;
    line.extend_from_slice(message.command.as_bytes())?;
    push_params(&mut line, message.params.as_slice())?;
    line.extend_from_slice(b"\r\n")?;
    Ok(line)
}

fn push_prefix(line: &mut Vec<u8>, prefix: &[u8]) -> Result<(), NoMemory>
    ensures { OnOk result (line.new.items ≡ line.old.items ++ prefix_text prefix.now) }
{
    if !prefix.is_empty() {
        line.push(b':')?;
        line.extend_from_slice(prefix)?;
        line.push(b' ')?;
    }
    Ok(())
}

fn push_params(line: &mut Vec<u8>, params: &[Text]) -> Result<(), NoMemory>
    ensures { OnOk result (line.new.items ≡ line.old.items ++ params_text params.now) }
{
    let mut rest = params;
    while let [param, behind @ ..] = rest {
        line.push(b' ')?;
        if behind.is_empty() && wants_colon(param.as_bytes()) {
            line.push(b':')?;
        }
        line.extend_from_slice(param.as_bytes())?;
        rest = behind;
    }
    Ok(())
}
