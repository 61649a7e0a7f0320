// Lines that wait to be sent.
ghost use Rattle.std.specs.Prelude.{◌<◌, IfOk};

use bytetext::{Text, Texts, TryCopy};
use caselines::{BAD_NUMBER, BAD_WORDS, CaseError, Sink, cut, number};
use outqueue::{PutError, Queue, QueueFault, QueueSet, Queues};
use std::alloc::Global;

/// Answers `queues STEP..` on `out`: what each step answers, with ` ; ` between. A step is one word.
/// `put QUEUE COUNT LINE` puts a line COUNT times and answers `ok` or the code of the first refusal, `once QUEUE COUNT
/// LINE` does so where lines stand once and shares are fair, and
/// `reserved QUEUE LINE` puts it into room that was reserved before. `take NOW`, `drain NOW` and `joined MOST NOW`, where
/// at most MOST modes of one channel go together, answer the lines that are sent or `none`. `len QUEUE` and `clear QUEUE`
/// answer a number. QUEUE is `mode`, `server` or `help`, and for the last two also `all`. The queues are copied before
/// each step.
pub fn queues(alloc: Global, words: &[Text], out: &mut Sink) -> Result<(), CaseError> {
    let mut queues = Queues::new(alloc);
    for (i, step) in words.iter().enumerate() {
        out.between(b" ; ", i);
        queues = queues.copy(alloc)?;
        make(alloc, &mut queues, step.as_bytes(), out)?;
    }
    Ok(())
}

// What a step does.
#[derive(Clone, Copy)]
enum Step {
    Clear,
    Drain,
    Joined,
    Len,
    Once,
    Put,
    Reserved,
    Take,
}

// How a line is put.
#[derive(Clone, Copy)]
enum Way {
    // Whatever waits.
    Each,
    // Where lines stand once and shares are fair.
    Once,
}

const STEPS: [(&[u8], Step); 8] = [
    (b"clear", Step::Clear),
    (b"drain", Step::Drain),
    (b"joined", Step::Joined),
    (b"len", Step::Len),
    (b"once", Step::Once),
    (b"put", Step::Put),
    (b"reserved", Step::Reserved),
    (b"take", Step::Take),
];

const NAMES: [(&[u8], QueueSet); 4] = [
    (b"mode", QueueSet::One(Queue::Mode)),
    (b"server", QueueSet::One(Queue::Server)),
    (b"help", QueueSet::One(Queue::Help)),
    (b"all", QueueSet::All),
];

fn make(alloc: Global, queues: &mut Queues, step: &[u8], out: &mut Sink) -> Result<(), CaseError> {
    let (name, rest) = cut(step, b' ');
    let Some((_, step)) = STEPS.iter().find(|(word, _)| *word == name) else {
        return Err(BAD_WORDS);
    };
    match *step {
        Step::Clear => out.number(queues.clear(which(rest)?) as u64),
        Step::Len => out.number(queues.len(which(rest)?) as u64),
        Step::Take => take(queues, moment(rest)?, out),
        Step::Drain => put_lines(&queues.drain(alloc, moment(rest)?)?, out),
        Step::Joined => return joined(alloc, queues, rest, out),
        Step::Put => return put(alloc, queues, Way::Each, rest, out),
        Step::Once => return put(alloc, queues, Way::Once, rest, out),
        Step::Reserved => return reserved(alloc, queues, rest, out),
    }
    Ok(())
}

fn which(name: &[u8]) -> Result<QueueSet, CaseError> {
    match NAMES.iter().find(|(word, _)| *word == name) {
        Some((_, which)) => Ok(*which),
        None => Err(BAD_WORDS),
    }
}

fn moment(word: &[u8]) -> Result<u64, CaseError>
    ensures { IfOk result (λ now. now < 32503680000) }
{
    let now = number::<u64>(word)?;
    if now >= 32_503_680_000 {
        return Err(BAD_NUMBER);
    }
    Ok(now)
}

fn take(queues: &mut Queues, now: u64, out: &mut Sink)
    requires { now < 32503680000 }
{
    match queues.take(now) {
        Some(line) => out.put(line.as_bytes()),
        None => out.put(b"none"),
    }
}

// MOST NOW
fn joined(
    alloc: Global,
    queues: &mut Queues,
    rest: &[u8],
    out: &mut Sink,
) -> Result<(), CaseError> {
    let (most, now) = cut(rest, b' ');
    let lines = queues.drain_joined(alloc, moment(now)?, usize::from(number::<u16>(most)?))?;
    put_lines(&lines, out);
    Ok(())
}

fn put_lines(lines: &Texts, out: &mut Sink) {
    for (i, line) in lines.as_slice().iter().enumerate() {
        out.between(b", ", i);
        out.put(line.as_bytes());
    }
    out.put_if(lines.is_empty(), b"none");
}

// QUEUE COUNT LINE
fn put(
    alloc: Global,
    queues: &mut Queues,
    way: Way,
    rest: &[u8],
    out: &mut Sink,
) -> Result<(), CaseError> {
    let (name, rest) = cut(rest, b' ');
    let (count, line) = cut(rest, b' ');
    let QueueSet::One(queue) = which(name)? else {
        return Err(BAD_WORDS);
    };
    match put_often(alloc, queues, (way, queue), number(count)?, line)? {
        Some(fault) => out.put(fault.code().as_bytes()),
        None => out.put(b"ok"),
    }
    Ok(())
}

// Puts a line COUNT times, up to the first refusal.
fn put_often(
    alloc: Global,
    queues: &mut Queues,
    (way, queue): (Way, Queue),
    count: u32,
    line: &[u8],
) -> Result<Option<QueueFault>, CaseError> {
    for _ in 0..count {
        match put_one(queues, way, queue, Text::from_slice(alloc, line)?) {
            Ok(()) => {}
            Err(PutError::Refused(fault)) => return Ok(Some(fault)),
            Err(PutError::NoMemory) => return Err(CaseError::NoMemory),
        }
    }
    Ok(None)
}

// Puts a line in this way.
fn put_one(queues: &mut Queues, way: Way, queue: Queue, line: Text) -> Result<(), PutError> {
    match way {
        Way::Each => queues.put(queue, line),
        Way::Once => queues.put_once(queue, line),
    }
}

// QUEUE LINE
fn reserved(
    alloc: Global,
    queues: &mut Queues,
    rest: &[u8],
    out: &mut Sink,
) -> Result<(), CaseError> {
    let (name, line) = cut(rest, b' ');
    let QueueSet::One(queue) = which(name)? else {
        return Err(BAD_WORDS);
    };
    let line = Text::from_slice(alloc, line)?;
    queues.reserve(queue, 1)?;
    match queues.put_reserved(queue, line) {
        Ok(()) => out.put(b"ok"),
        Err(fault) => out.put(fault.code().as_bytes()),
    }
    Ok(())
}
