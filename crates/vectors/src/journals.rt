// A journal on two disks in memory, whose faults are planned.
ghost use Rattle.std.specs.Prelude.{◌≡◌, ◌<◌, ◌^◌, true, length, Ok, IfOk, OnOk, IfSome};
ghost use Rattle.disks.specs.State.{IsSettled};
ghost use Rattle.disks.specs.Memory.{state_of};
ghost use Rattle.bytejournal.specs.Journal.{IsSound};

use bytejournal::{Disks, Journal, JournalError, Opened, Returned, has_few_after, is_behind};
use bytetext::Text;
use caselines::{BAD_NUMBER, BAD_WORDS, CaseError, Sink, cut, number};
use disks::{MemDisk, Tear};
use std::alloc::Global;

/// Answers `journal STEP..` on `out`: what each step answers, with ` ; ` between. A step is one word: `append ENTRY`,
/// `rebase BASE`, `renew LAYOUT BASE`, `layout`, `fail DISK CALL TEAR` or `restart`.
pub fn journal(alloc: Global, words: &[Text], out: &mut Sink) -> Result<(), CaseError> {
    let made = Journal::create(alloc, MemDisk::new(alloc), MemDisk::new(alloc), 1, b"base");
    let Some(mut journal) = or_told(made, out)? else {
        return Ok(());
    };
    for (i, step) in words.iter().enumerate() {
        out.between(b" ; ", i);
        journal = match make(alloc, journal, step.as_bytes(), out)? {
            Some(journal) => journal,
            None => return Ok(()),
        };
    }
    Ok(())
}

/// Answers `few BYTES` on `out`: `few` if the gates show that after the one that ends these bytes of a disk stands no more
/// than a crash may leave there, or else `more`.
pub fn few(words: &[Text], out: &mut Sink) -> Result<(), CaseError> {
    let [bytes] = words else {
        return Err(BAD_WORDS);
    };
    if has_few_after(bytes.as_bytes()) {
        out.put(b"few");
    } else {
        out.put(b"more");
    }
    Ok(())
}

/// Answers `behind BYTES OTHER` on `out`: `behind` if the gates show that the entries of a disk with these bytes wouldn't
/// count with its first gate open, beside a disk with the bytes OTHER, or else `unknown`.
pub fn behind(words: &[Text], out: &mut Sink) -> Result<(), CaseError> {
    let [bytes, other] = words else {
        return Err(BAD_WORDS);
    };
    if is_behind(bytes.as_bytes(), other.as_bytes()) {
        out.put(b"behind");
    } else {
        out.put(b"unknown");
    }
    Ok(())
}

// What a step does.
#[derive(Clone, Copy)]
enum Step {
    Append,
    Fail,
    Layout,
    Rebase,
    Renew,
    Restart,
}

const STEPS: [(&[u8], Step); 6] = [
    (b"append", Step::Append),
    (b"fail", Step::Fail),
    (b"layout", Step::Layout),
    (b"rebase", Step::Rebase),
    (b"renew", Step::Renew),
    (b"restart", Step::Restart),
];

// Makes a step of a journal, and returns the journal to go on with, if there is one.
fn make(
    alloc: Global,
    journal: Journal<MemDisk>,
    step: &[u8],
    out: &mut Sink,
) -> Result<Option<Journal<MemDisk>>, CaseError>
    requires { IsSound state_of journal }
    ensures { IfOk result (λ next. IfSome next (λ journal. IsSound state_of journal)) }
{
    let mut journal = journal;
    let (name, rest) = cut(step, b' ');
    let Some((_, step)) = STEPS.iter().find(|(word, _)| *word == name) else {
        return Err(BAD_WORDS);
    };
    match *step {
        Step::Append => {
            let answer = journal.append(alloc, short(rest)?);
            tell(answer, out)?;
            Ok(Some(journal))
        }
        Step::Rebase => {
            let layout = journal.layout();
            let answer = journal.rebase(alloc, layout, short(rest)?);
            tell(answer, out)?;
            Ok(Some(journal))
        }
        Step::Renew => {
            let (layout, base) = cut(rest, b' ');
            let answer = journal.rebase(alloc, number(layout)?, short(base)?);
            tell(answer, out)?;
            Ok(Some(journal))
        }
        Step::Layout => {
            out.number(u64::from(journal.layout()));
            Ok(Some(journal))
        }
        Step::Fail => planned(alloc, journal, rest, out),
        Step::Restart => restarted(alloc, journal, out),
    }
}

// A text that is short enough for a journal.
fn short(text: &[u8]) -> Result<&[u8], CaseError>
    ensures { IfOk result (λ same. length same.now < 2 ^ 32) }
{
    match u32::try_from(text.len()) {
        Ok(_) => Ok(text),
        Err(_) => Err(BAD_WORDS),
    }
}

/// Writes to `out` how an append or a rebase ended, by its `answer`.
pub(crate) fn tell(answer: Result<(), JournalError>, out: &mut Sink) -> Result<(), CaseError> {
    match answer {
        Ok(()) => out.put(b"ok"),
        Err(JournalError::Refused(fault)) => out.put(fault.code().as_bytes()),
        Err(JournalError::NoMemory) => return Err(CaseError::NoMemory),
    }
    Ok(())
}

/// Returns what `given` holds, or writes its fault to `out`.
pub(crate) fn or_told<T: Drop>(
    given: Result<T, Returned<MemDisk>>,
    out: &mut Sink,
) -> Result<Option<T>, CaseError>
    ensures { IfOk result (λ told. IfSome told (λ value. given ≡ Ok value)) }
{
    match given {
        Ok(value) => Ok(Some(value)),
        Err(returned) => {
            tell(Err(returned.error), out)?;
            Ok(None)
        }
    }
}

// Returns the journal that was opened, to go on with, or writes that a gate is missing.
fn whole(opened: Opened<MemDisk>, out: &mut Sink) -> Option<Journal<MemDisk>>
    requires { opened.whole ≡ true → IsSound state_of opened.journal }
    ensures { IfSome result (λ journal. IsSound state_of journal) }
{
    if opened.whole {
        return Some(opened.journal);
    }
    out.put(b", a gate is missing");
    None
}

// DISK CALL TEAR
fn planned(
    alloc: Global,
    journal: Journal<MemDisk>,
    rest: &[u8],
    out: &mut Sink,
) -> Result<Option<Journal<MemDisk>>, CaseError>
    ensures { IfOk result (λ next. IfSome next (λ journal. IsSound state_of journal)) }
{
    let (disk, rest) = cut(rest, b' ');
    let (call, tear) = cut(rest, b' ');
    let Some(opened) = or_told(journal.restart(alloc), out)? else {
        return Ok(None);
    };
    let mut disks = opened.journal.into_disks();
    plan(&mut disks, disk, call_of(call)?, tear_of(tear)?)?;
    let Some(opened) = or_told(Journal::open(alloc, disks.first, disks.second), out)? else {
        return Ok(None);
    };
    out.put(b"ok");
    Ok(whole(opened, out))
}

/// Plans the fault `tear` of the call of number `call` of the disk that the word `disk` names.
pub(crate) fn plan(
    disks: &mut Disks<MemDisk>,
    disk: &[u8],
    call: u64,
    tear: Tear,
) -> Result<(), CaseError>
    requires call { 0 < call }
    requires first { IsSettled (state_of disks.old.first) }
    requires second { IsSettled (state_of disks.old.second) }
    ensures first { OnOk result (IsSettled (state_of disks.new.first)) }
    ensures second { OnOk result (IsSettled (state_of disks.new.second)) }
{
    match disk {
        b"first" => disks.first.plan(call, tear),
        b"second" => disks.second.plan(call, tear),
        _ => return Err(BAD_WORDS),
    }
    Ok(())
}

/// Returns which call fails, from 1, as `word` spells it.
pub(crate) fn call_of(word: &[u8]) -> Result<u64, CaseError>
    ensures { IfOk result (λ call. 0 < call) }
{
    let call = number::<u64>(word)?;
    if call == 0 {
        return Err(BAD_NUMBER);
    }
    Ok(call)
}

/// Returns what the crash leaves, as `word` spells it.
pub(crate) fn tear_of(word: &[u8]) -> Result<Tear, CaseError> {
    match word {
        b"old" => Ok(Tear::Old),
        b"new" => Ok(Tear::New),
        _ => Ok(Tear::Fill(number(word)?)),
    }
}

// Opens a journal on what a crash leaves, and writes what it holds.
fn restarted(
    alloc: Global,
    journal: Journal<MemDisk>,
    out: &mut Sink,
) -> Result<Option<Journal<MemDisk>>, CaseError>
    ensures { IfOk result (λ next. IfSome next (λ journal. IsSound state_of journal)) }
{
    let Some(opened) = or_told(journal.restart(alloc), out)? else {
        return Ok(None);
    };
    put_held(&opened.base, opened.entries.as_slice(), out);
    Ok(whole(opened, out))
}

// A base and the entries after it.
fn put_held(base: &Text, entries: &[Text], out: &mut Sink) {
    out.put(base.as_bytes());
    for entry in entries {
        out.put(b", ");
        out.put(entry.as_bytes());
    }
}
