// Reads one line as a message.
ghost use Rattle.std.specs.Prelude.{◌≡◌, ◌++◌, true, false, map, IfOk, OnErr, MatchOption};
ghost use Rattle.bstr.specs.Find.{IsFirstByte};
ghost use Rattle.ircline.specs.Words.{up_to};
ghost use Rattle.ircline.specs.Classes.{is_end, upper};
ghost use Rattle.ircline.specs.Reading.{flush, tail_of, prefix_at, after_prefix, is_nameless, last_param, is_last, params_of, line_at, line_of, TakesMemory};

use crate::classes::{is_command, is_end};
use crate::fault::LineFault;
use crate::line::Line;
use crate::message::Message;
use crate::prefix::nick;
use crate::words::{holds, parted};
use bstr::ByteSlice as _;
use bytetext::{NoMemory, Text, Texts};
use memchr::memchr2;
use std::alloc::Global;

/// The most bytes that a line may have before its end.
pub const LIMIT: usize = 510;

// The most parameters that end at a space: what follows them is the fifteenth.
const MIDDLES: usize = 14;

/// Reads one line: the `bytes` before the first CR or LF, or all of them if they hold neither. An empty line is
/// [`LineFault::BadCommand`].
///
/// # Errors
/// `NoMemory` if the message cannot be allocated.
pub fn read_line(alloc: Global, bytes: &[u8]) -> Result<Line, NoMemory>
    ensures line { IfOk result (λ line. line ≡ line_of (up_to is_end bytes.now)) }
    // A fault does not allocate.
    ensures memory { OnErr result (TakesMemory (line_of (up_to is_end bytes.now))) }
{
    let (run, _) = parted(bytes, first_end(bytes));
    read_run(alloc, run)
}

/// Returns the index of the first CR or LF in `bytes`.
pub fn first_end(bytes: &[u8]) -> Option<usize>
    ensures { IsFirstByte is_end bytes.now result }
{
    // Where a line ended with CR, its LF is next.
    if let [first, ..] = bytes {
        if is_end(*first) {
            return Some(0);
        }
    }
    memchr2(b'\r', b'\n', bytes)
}

/// Reads `run`, the bytes of a line, which hold neither CR nor LF.
pub fn read_run(alloc: Global, run: &[u8]) -> Result<Line, NoMemory>
    ensures line { IfOk result (λ line. line ≡ line_of run.now) }
    ensures memory { OnErr result (TakesMemory (line_of run.now)) }
{
    if run.len() > LIMIT {
        return Ok(Line::Bad(LineFault::TooLong));
    }
    if holds(run, 0) {
        return Ok(Line::Bad(LineFault::NulByte));
    }
    let Some((prefix, words)) = prefix_of(without_spaces(run)) else {
        return Ok(Line::Bad(LineFault::BadPrefix));
    };
    let (command, tail) = parted(words, words.find_byte(b' '));
    if !is_command(command) {
        return Ok(Line::Bad(LineFault::BadCommand));
    }
    Ok(Line::Message(Message {
        prefix: Text::from_slice(alloc, prefix)?,
        command: upper_case(alloc, command)?,
        params: params_of(alloc, tail)?,
        rest: Text::from_slice(alloc, without_spaces(tail))?,
    }))
}

// The text without the spaces at its front.
fn without_spaces(text: &[u8]) -> &[u8]
    ensures { result.now ≡ flush text.now }
{
    let mut rest = text;
    while let [b' ', behind @ ..] = rest {
        rest = behind;
    }
    rest
}

// The prefix, empty if there is none, and the words after it; `None` if the prefix names nobody.
fn prefix_of(text: &[u8]) -> Option<(&[u8], &[u8])>
    ensures { MatchOption result (is_nameless text.now ≡ true) (λ parts. (is_nameless text.now ≡ false)
        × (parts.0.now ≡ prefix_at text.now) × (parts.1.now ≡ after_prefix text.now)) }
{
    match text {
        [b':', behind @ ..] => {
            let (prefix, tail) = parted(behind, behind.find_byte(b' '));
            if nick(prefix).is_empty() {
                None
            } else {
                Some((prefix, without_spaces(tail)))
            }
        }
        _ => Some((b"", text)),
    }
}

// The command in upper case.
fn upper_case(alloc: Global, command: &[u8]) -> Result<Text, NoMemory>
    ensures { IfOk result (λ t. t ≡ map upper command.now) }
{
    let mut bytes = Vec::with_capacity(alloc, command.len())?;
    for byte in command {
        bytes.push(byte.to_ascii_uppercase())?;
    }
    Ok(Text::new(bytes))
}

// The parameters after a command.
fn params_of(alloc: Global, tail: &[u8]) -> Result<Texts, NoMemory>
    ensures { IfOk result (λ params. params ≡ params_of tail.now) }
{
    let (mut params, last) = middles_of(alloc, tail)?;
    match last {
        [] => {}
        [b':', param @ ..] => params.push(Text::from_slice(alloc, param)?)?,
        param => params.push(Text::from_slice(alloc, param)?)?,
    }
    Ok(Texts::new(params))
}

// The parameters that end at a space, and the text of the last one, empty if there are no more.
fn middles_of(alloc: Global, tail: &[u8]) -> Result<(Vec<Text>, &[u8]), NoMemory>
    ensures { IfOk result (λ parts. parts.0.items ++ last_param parts.1.now ≡ params_of tail.now) }
{
    let mut params = Vec::new(alloc);
    let mut text = without_spaces(tail);
    for _ in 0..MIDDLES {
        if is_last(text) {
            break;
        }
        let (param, behind) = parted(text, text.find_byte(b' '));
        params.push(Text::from_slice(alloc, param)?)?;
        text = without_spaces(behind);
    }
    Ok((params, text))
}

// Whether the text is the last parameter, or empty.
fn is_last(text: &[u8]) -> bool
    ensures { result ≡ is_last text.now }
{
    matches!(text, [] | [b':', ..])
}
