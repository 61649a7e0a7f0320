// Why a line is wrong.
ghost use Rattle.std.specs.Prelude.{◌≡◌, map, IfOk, IfErr, IsTrue};
ghost use Rattle.script.specs.Grammar.{has_text};
ghost use Rattle.script.specs.LineReasons.{is_form, line_reason, reason_by_words, refined};

use crate::doubts::doubt_of;
use crate::reason::Reason;
use crate::spacing::{ends_reason, spacing_reason};
use bytetext::NoMemory;
use recordtext::pieces_of;
use std::alloc::Global;

/// Returns why `line` breaks a rule by itself, or `None` if it is right, is empty or begins with `#`.
///
/// # Errors
/// `NoMemory` if memory cannot be allocated; never if the line is empty or begins with `#`.
pub fn line_reason(alloc: Global, line: &[u8]) -> Result<Option<Reason>, NoMemory>
    ensures reason { IfOk result (λ reason. reason ≡ line_reason line.now) }
    ensures memory { IfErr result (λ _. IsTrue (has_text line.now)) }
{
    if line.is_empty() || line[0] == b'#' {
        return Ok(None);
    }
    let words = pieces_of(alloc, line, b' ')?;
    Ok(reason_by_words(line, words.as_slice()))
}

// The same, given the words of the line.
fn reason_by_words(line: &[u8], words: &[&[u8]]) -> Option<Reason>
    ensures { result ≡ reason_by_words line.now (map (λ word. word.now) words.now) }
{
    match doubt_of(words) {
        Some(reason) => Some(refined(line, words, reason)),
        None => None,
    }
}

// What to report of a line that is wrong for this reason: its ends or its spaces come first.
fn refined(line: &[u8], words: &[&[u8]], reason: Reason) -> Reason
    ensures { result ≡ refined line.now (map (λ word. word.now) words.now) reason }
{
    let first = if is_form(reason) {
        spacing_reason(line, words)
    } else {
        ends_reason(line)
    };
    match first {
        Some(first) => first,
        None => reason,
    }
}

// Whether the reason is a wrong number of words.
fn is_form(reason: Reason) -> bool
    ensures { result ≡ is_form reason }
{
    match reason {
        Reason::Form(_) | Reason::ChangeForm(_) | Reason::AskerForm => true,
        Reason::TooLong
        | Reason::NoCommand
        | Reason::CarriageReturn
        | Reason::ByteOrderMark
        | Reason::SpaceBefore
        | Reason::SpaceAfter
        | Reason::TwoSpaces
        | Reason::Tab
        | Reason::Unknown
        | Reason::Leaves
        | Reason::Zone
        | Reason::Bot
        | Reason::Packet
        | Reason::Seconds
        | Reason::Change
        | Reason::Flags
        | Reason::ChannelFlags
        | Reason::Expiry
        | Reason::Mark
        | Reason::NamedChange
        | Reason::NamedFlags
        | Reason::NamedExpiry
        | Reason::NamedMark
        | Reason::Kind
        | Reason::LeavesFirst
        | Reason::LeavesAgain
        | Reason::ZoneLate => false,
    }
}
