// The answers to an admin.
ghost use Rattle.std.specs.Prelude.{◌≡◌, IfOk};
ghost use Rattle.net.specs.Logs.{Says};
ghost use Rattle.administrators.specs.Answers.{AnswersOutcome, IsFault, IsRefusal, fault_line, numbered_line, refused_line};
ghost use Rattle.administrators.specs.Warnings.{looseness_in};

use crate::change_outcome::ChangeOutcome;
use bytetext::NoMemory;
use control::CommandAdvice;
use loosemask::{Looseness, looseness_of};
use std::alloc::Global;
use std::fmt::Display;
use userfile::{Change, Edit};

/// Returns the outcome of a change, as a line.
///
/// # Errors
/// `NoMemory` if an allocation fails.
pub fn change_answer(alloc: Global, outcome: ChangeOutcome) -> Result<Vec<u8>, NoMemory>
    ensures { IfOk result (λ answer. AnswersOutcome outcome answer.items) }
{
    match outcome {
        ChangeOutcome::Nothing => Ok(Vec::from_slice(alloc, b"queued\n")?),
        ChangeOutcome::Accepted(number) => numbered_answer(alloc, "accepted", number),
        ChangeOutcome::Refused(fault) => refused_answer(alloc, fault.code(), &fault),
        ChangeOutcome::Barred(fault) => refused_answer(alloc, fault.code(), &fault),
    }
}

/// Returns the outcome of a change that an admin asks for, as a line. A change that is not refused, and adds a hostmask that
/// fits strangers (`looseness`), has a second line with a warning.
///
/// # Errors
/// `NoMemory` if an allocation fails.
pub fn asked_answer(
    alloc: Global,
    outcome: ChangeOutcome,
    looseness: Option<Looseness>,
) -> Result<Vec<u8>, NoMemory> {
    let mut answer = change_answer(alloc, outcome)?;
    if let (ChangeOutcome::Nothing | ChangeOutcome::Accepted(_), Some(looseness)) = (
        outcome, looseness,
    ) {
        answer.extend_from_slice(looseness.warning().as_bytes())?;
        answer.push(b'\n')?;
    }
    Ok(answer)
}

/// Whether a change adds a hostmask that fits strangers.
pub fn looseness_in(change: &Change) -> Option<Looseness>
    ensures { result ≡ looseness_in change.now }
{
    match &change.edit {
        Edit::AddHost { handle: _, mask } => looseness_of(mask.as_bytes()),
        Edit::AddUser { .. }
        | Edit::DelUser { .. }
        | Edit::DelHost { .. }
        | Edit::SetGlobal { .. }
        | Edit::SetChan { .. }
        | Edit::SetBot { .. }
        | Edit::AddBan { .. }
        | Edit::DelBan { .. }
        | Edit::SetInfo { .. }
        | Edit::SetSticky { .. } => None,
    }
}

/// Returns why a command was not understood, as a line.
///
/// # Errors
/// `NoMemory` if an allocation fails.
pub fn advice_answer(alloc: Global, advice: CommandAdvice) -> Result<Vec<u8>, NoMemory> {
    fault_answer(alloc, &advice)
}

/// Returns what to say instead of a faulty command, as a line.
///
/// # Errors
/// `NoMemory` if an allocation fails.
pub fn fault_answer<T: Display>(alloc: Global, text: &T) -> Result<Vec<u8>, NoMemory>
    ensures { IfOk result (λ answer. IsFault (T.output text.now) answer.items) }
{
    let words = words_of(alloc, text)?;
    fault_line(alloc, words.as_slice())
}

/// Returns what was done, a `word`, and its number, as a line.
///
/// # Errors
/// `NoMemory` if an allocation fails.
pub fn numbered_answer(alloc: Global, word: &str, number: u32) -> Result<Vec<u8>, NoMemory>
    ensures { IfOk result (λ answer. answer.items ≡ numbered_line word.now number) }
{
    let line = format!(in alloc; "{word} {number}\n")?;
    Ok(line.into_bytes())
}

/// Returns a refusal as a line: its code, and what to change.
///
/// # Errors
/// `NoMemory` if an allocation fails.
pub fn refused_answer<T: Display>(alloc: Global, code: &str, text: &T) -> Result<Vec<u8>, NoMemory>
    ensures { IfOk result (λ answer. IsRefusal code.now (T.output text.now) answer.items) }
{
    let words = words_of(alloc, text)?;
    refused_line(alloc, code, words.as_slice())
}

// Returns what a text says.
fn words_of<T: Display>(alloc: Global, text: &T) -> Result<Vec<u8>, NoMemory>
    ensures { IfOk result (λ words. Says (T.output text.now) words.items) }
{
    let words = format!(in alloc; "{}", *text)?;
    Ok(words.into_bytes())
}

fn fault_line(alloc: Global, words: &[u8]) -> Result<Vec<u8>, NoMemory>
    ensures { IfOk result (λ line. line.items ≡ fault_line words.now) }
{
    let mut line = Vec::from_slice(alloc, b"fault ")?;
    line.extend_from_slice(words)?;
    line.push(b'\n')?;
    Ok(line)
}

fn refused_line(alloc: Global, code: &str, words: &[u8]) -> Result<Vec<u8>, NoMemory>
    ensures { IfOk result (λ line. line.items ≡ refused_line code.now words.now) }
{
    let mut line = Vec::from_slice(alloc, b"refused ")?;
    line.extend_from_slice(code.as_bytes())?;
    line.extend_from_slice(b" ")?;
    line.extend_from_slice(words)?;
    line.push(b'\n')?;
    Ok(line)
}
