// Which binds an event calls.
use bottimers::{CivilMinute, Zone, civil};
use bytetext::Text;
use caselines::{BAD_WORDS, CaseError, Sink, cut, number};
use flagexpr::Flags;
use procs::{BindError, BindEvent, BindKind, BindTable};
use std::alloc::Global;

/// Answers `binds STEP..` on `out`: what each step answers, with ` ; ` between. A step is one word.
/// `bind KIND FLAGS PROC MASK` and `unbind KIND PROC MASK` answer a bind's number or the code.
/// `find KIND GLOBAL CHANNEL BOT SUBJECT` answers the numbers of the binds that are called; the subject of cron is a
/// moment. `list` answers `NUMBER KIND FLAGS PROC MASK` of each bind. The last two answer `none` if there is none.
pub fn binds(alloc: Global, words: &[Text], out: &mut Sink) -> Result<(), CaseError> {
    let mut table = BindTable::new(alloc);
    for (i, step) in words.iter().enumerate() {
        out.between(b" ; ", i);
        make(alloc, &mut table, step.as_bytes(), out)?;
    }
    Ok(())
}

// What a step does.
#[derive(Clone, Copy)]
enum Step {
    Bind,
    Find,
    List,
    Unbind,
}

const STEPS: [(&[u8], Step); 4] = [
    (b"bind", Step::Bind),
    (b"find", Step::Find),
    (b"list", Step::List),
    (b"unbind", Step::Unbind),
];

fn make(
    alloc: Global,
    table: &mut BindTable,
    step: &[u8],
    out: &mut Sink,
) -> Result<(), CaseError> {
    let (name, rest) = cut(step, b' ');
    let Some((_, step)) = STEPS.iter().find(|(word, _)| *word == name) else {
        return Err(BAD_WORDS);
    };
    match *step {
        Step::Bind => bind(alloc, table, rest, out),
        Step::Unbind => unbind(table, rest, out),
        Step::Find => find(alloc, table, rest, out),
        Step::List => list(alloc, table, out),
    }
}

fn kind_of(word: &[u8]) -> Result<BindKind, CaseError> {
    match BindKind::of_word(word) {
        Some(kind) => Ok(kind),
        None => Err(BAD_WORDS),
    }
}

// KIND FLAGS PROC MASK
fn bind(
    alloc: Global,
    table: &mut BindTable,
    rest: &[u8],
    out: &mut Sink,
) -> Result<(), CaseError> {
    let (kind, rest) = cut(rest, b' ');
    let (flags, rest) = cut(rest, b' ');
    let (proc, mask) = cut(rest, b' ');
    match table.bind(alloc, kind_of(kind)?, flags, mask, proc) {
        Ok(number) => out.number(u64::from(number)),
        Err(BindError::Refused(fault)) => out.put(fault.code().as_bytes()),
        Err(BindError::NoMemory) => return Err(CaseError::NoMemory),
    }
    Ok(())
}

// KIND PROC MASK
fn unbind(table: &mut BindTable, rest: &[u8], out: &mut Sink) -> Result<(), CaseError> {
    let (kind, rest) = cut(rest, b' ');
    let (proc, mask) = cut(rest, b' ');
    match table.unbind(kind_of(kind)?, mask, proc) {
        Ok(number) => out.number(u64::from(number)),
        Err(fault) => out.put(fault.code().as_bytes()),
    }
    Ok(())
}

// KIND GLOBAL CHANNEL BOT SUBJECT
fn find(alloc: Global, table: &BindTable, rest: &[u8], out: &mut Sink) -> Result<(), CaseError> {
    let (kind, rest) = cut(rest, b' ');
    let (global, rest) = cut(rest, b' ');
    let (channel, rest) = cut(rest, b' ');
    let (bot, subject) = cut(rest, b' ');
    let kind = kind_of(kind)?;
    let event = BindEvent {
        kind,
        subject,
        minute: minute_of(kind, subject)?,
        global: flags_of(global)?,
        channel: flags_of(channel)?,
        bot: flags_of(bot)?,
    };
    let numbers = table.find(alloc, &event)?;
    for (i, number) in numbers.as_slice().iter().enumerate() {
        out.between(b", ", i);
        out.number(u64::from(*number));
    }
    out.put_if(numbers.is_empty(), b"none");
    Ok(())
}

// The minute of a cron event, whose subject is a moment; none of any other.
fn minute_of(kind: BindKind, subject: &[u8]) -> Result<Option<CivilMinute>, CaseError> {
    if kind != BindKind::Cron {
        return Ok(None);
    }
    match civil(number(subject)?, &Zone::fixed(0).unwrap()) {
        Ok(minute) => Ok(Some(minute)),
        Err(_) => Err(BAD_WORDS),
    }
}

fn flags_of(word: &[u8]) -> Result<Flags, CaseError> {
    match Flags::parse(word) {
        Ok(flags) => Ok(flags),
        Err(_) => Err(BAD_WORDS),
    }
}

fn list(alloc: Global, table: &BindTable, out: &mut Sink) -> Result<(), CaseError> {
    let binds = table.list(alloc)?;
    for (i, bind) in binds.as_slice().iter().enumerate() {
        out.between(b", ", i);
        out.number(u64::from(bind.number));
        out.put(b" ");
        out.put(bind.kind.word());
        for word in [&bind.flags, &bind.proc, &bind.mask] {
            out.put(b" ");
            out.put(word.as_bytes());
        }
    }
    out.put_if(binds.is_empty(), b"none");
    Ok(())
}
