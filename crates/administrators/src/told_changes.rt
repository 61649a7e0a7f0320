// The accepted changes, as an admin is told of them.
ghost use Rattle.std.specs.Prelude.{◌≡◌, ◌+◌, ◌^◌, ◌<◌, ◌≤◌, ◌++◌, IfOk, OnOk, codes, drop, length, take};
ghost use Rattle.administrators.specs.ToldChanges.{AnswersChanges, AreLines, IsAnswer, IsLine, acceptance, change_line};
ghost use Rattle.administrators.specs.ToldChanges.{edit_words, first_told, floor_of, lost_line, name_words, next_line, told_from};
ghost use Rattle.administrators.specs.declared.told_changes.TheConstants.{MAX_TOLD};

use crate::change_words::{Acceptance, EditArgs, command_for};
use bytetext::NoMemory;
use serverlink::Shown;
use sharelink::AcceptedChange;
use std::alloc::Global;
use std::fmt::Display;
use userfile::{Asker, Edit};

/// The most changes in one answer.
pub const MAX_TOLD: usize = 100;

/// Returns the accepted changes from number `from` on as lines, at most [`MAX_TOLD`] of them, with what to say for the next
/// ones. `held` are the changes that the journal holds, of which the last has the number `version`: if it no longer holds
/// those from `from` on, a line says so first.
///
/// # Errors
/// `NoMemory` if an allocation fails.
pub fn changes_answer(
    alloc: Global,
    held: &[AcceptedChange],
    version: u32,
    from: u32,
) -> Result<Vec<u8>, NoMemory>
    ensures { IfOk result (λ text. AnswersChanges held.now version from text.items) }
{
    let floor = floor_of(held.len(), version);
    let told = told_from(held, floor, from);
    let first = first_told(floor, from);
    answer_of(alloc, told, first, floor, version, from)
}

// Returns the answer that tells these changes, of which the first has the number `first`.
fn answer_of(
    alloc: Global,
    told: &[AcceptedChange],
    first: u64,
    floor: u32,
    version: u32,
    from: u32,
) -> Result<Vec<u8>, NoMemory>
    requires { first ≤ 2 ^ 32 }
    ensures { IfOk result (λ text. IsAnswer told.now first floor version from text.items) }
{
    let lost = lost_line(alloc, floor, from)?;
    let lines = change_lines(alloc, first, told)?;
    let next = next_line(alloc, first + told.len() as u64, version)?;
    let text = joined(alloc, lost.as_slice(), lines.as_slice(), next.as_slice())?;
    Ok(text)
}

fn joined(alloc: Global, front: &[u8], lines: &[u8], end: &[u8]) -> Result<Vec<u8>, NoMemory>
    ensures { IfOk result (λ text. text.items ≡ front.now ++ (lines.now ++ end.now)) }
{
    let mut text = Vec::from_slice(alloc, front)?;
    text.extend_from_slice(lines)?;
    text.extend_from_slice(end)?;
    Ok(text)
}

// Returns the number of the last change that a journal of this version no longer holds, or 0. It holds `count` changes.
fn floor_of(count: usize, version: u32) -> u32
    ensures { result ≡ floor_of count version }
{
    version.saturating_sub(count.min(u32::MAX as usize) as u32)
}

// Returns the number of the first change to tell.
fn first_told(floor: u32, from: u32) -> u64
    ensures value { result ≡ first_told floor from }
    ensures bound { result ≤ 2 ^ 32 }
{
    u64::from(from).max(u64::from(floor) + 1)
}

// The changes to tell: from number `from` on, as far as the journal holds them. `held` are the changes after number `floor`.
fn told_from(held: &[AcceptedChange], floor: u32, from: u32) -> &[AcceptedChange]
    ensures { result.now ≡ told_from held.now floor from }
{
    let skipped = from.saturating_sub(floor).saturating_sub(1) as usize;
    front_of(after(held, skipped))
}

// The changes after the first `count`.
fn after(held: &[AcceptedChange], count: usize) -> &[AcceptedChange]
    ensures { result.now ≡ drop count held.now }
{
    let skipped = count.min(held.len());
    let (_, rest) = held.split_at(skipped);
    rest
}

// The first changes, as many as one answer tells.
fn front_of(changes: &[AcceptedChange]) -> &[AcceptedChange]
    ensures { result.now ≡ take MAX_TOLD changes.now }
{
    let count = MAX_TOLD.min(changes.len());
    let (front, _) = changes.split_at(count);
    front
}

// Returns the line that says that the changes up to number `floor` are lost, if one of those from `from` on is.
fn lost_line(alloc: Global, floor: u32, from: u32) -> Result<Vec<u8>, NoMemory>
    ensures { IfOk result (λ line. line.items ≡ lost_line floor from) }
{
    if from > floor {
        return Ok(Vec::new(alloc));
    }
    let line = format!(in alloc; "changes up to {floor} are no longer in the journal\n")?;
    Ok(line.into_bytes())
}

// Returns the line that says how to ask for the change of number `next`, if the version is not below that.
fn next_line(alloc: Global, next: u64, version: u32) -> Result<Vec<u8>, NoMemory>
    ensures { IfOk result (λ line. line.items ≡ next_line next version) }
{
    let line = if next <= u64::from(version) {
        format!(in alloc; "say changes {next} for the next ones\n")?
    } else {
        format!(in alloc; "these are all: the version is {version}\n")?
    };
    Ok(line.into_bytes())
}

// Returns a line for each change. The first has the number `first`.
fn change_lines(alloc: Global, first: u64, told: &[AcceptedChange]) -> Result<Vec<u8>, NoMemory>
    requires { first + length told.now < 2 ^ 64 }
    ensures { IfOk result (λ lines. AreLines first told.now lines.items) }
{
    let mut lines = Vec::new(alloc);
    for (place, accepted) in told.iter().enumerate() {
        let line = change_line(alloc, first + place as u64, accepted)?;
        lines.extend_from_slice(line.as_slice())?;
    }
    Ok(lines)
}

// Returns the line of a change.
fn change_line(alloc: Global, number: u64, accepted: &AcceptedChange) -> Result<Vec<u8>, NoMemory>
    ensures { IfOk result (λ line. IsLine number accepted.now line.items) }
{
    let change = accepted.change();
    let person = shown_person(alloc, &change.by)?;
    let words = written(alloc, &EditArgs(&change.edit))?;
    let line = line_of(alloc, number, accepted, person.as_slice(), words.as_slice())?;
    Ok(line)
}

// Returns the line of a change that was asked for in the name of `person`, where `words` follow the command's first word.
fn line_of(
    alloc: Global,
    number: u64,
    accepted: &AcceptedChange,
    person: &[u8],
    words: &[u8],
) -> Result<Vec<u8>, NoMemory>
    ensures { IfOk result (λ line. line.items ≡ change_line number accepted.now person.now words.now) }
{
    let mut line = acceptance(alloc, number, accepted.origin())?;
    put_name(&mut line, &accepted.change().by, person)?;
    put_edit(&mut line, &accepted.change().edit, words)?;
    Ok(line)
}

// Returns the person in whose name a change was asked for, as a log shows a text; nothing if there is none.
fn shown_person(alloc: Global, by: &Option<Asker>) -> Result<Vec<u8>, NoMemory> {
    match by {
        Some(asker) => written(alloc, &Shown(asker.person.as_bytes())),
        None => Ok(Vec::new(alloc)),
    }
}

fn written<D: Display>(alloc: Global, value: &D) -> Result<Vec<u8>, NoMemory> {
    let text = format!(in alloc; "{}", *value)?;
    Ok(text.into_bytes())
}

// Returns how a line begins.
fn acceptance(alloc: Global, number: u64, bot: u16) -> Result<Vec<u8>, NoMemory>
    ensures { IfOk result (λ front. front.items ≡ acceptance number bot) }
{
    let front = format!(in alloc; "{}", Acceptance { number, bot })?;
    Ok(front.into_bytes())
}

// Appends in whose name a change was asked for: in that of `person`, if in anybody's.
fn put_name(line: &mut Vec<u8>, by: &Option<Asker>, person: &[u8]) -> Result<(), NoMemory>
    ensures { OnOk result (line.new.items ≡ line.old.items ++ name_words by.now person.now) }
{
    match by {
        Some(_) => put_person(line, person),
        None => Ok(()),
    }
}

fn put_person(line: &mut Vec<u8>, person: &[u8]) -> Result<(), NoMemory>
    ensures { OnOk result (line.new.items ≡ line.old.items ++ (codes ", in the name of " ++ person.now)) }
{
    line.extend_from_slice(b", in the name of ")?;
    line.extend_from_slice(person)?;
    Ok(())
}

// Appends the command for an edit, whose `words` follow its first word, and ends the line.
fn put_edit(line: &mut Vec<u8>, edit: &Edit, words: &[u8]) -> Result<(), NoMemory>
    ensures { OnOk result (line.new.items ≡ line.old.items ++ edit_words edit.now words.now) }
{
    line.extend_from_slice(b": ")?;
    line.extend_from_slice(command_for(edit).spelling().as_bytes())?;
    line.extend_from_slice(words)?;
    line.push(b'\n')?;
    Ok(())
}
