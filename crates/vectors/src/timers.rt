// Timers.
ghost use Rattle.std.specs.Prelude.{IsTrue};
ghost use Rattle.bottimers.specs.Held.{IsAbove, IsNotBelow};

use bottimers::{ClockError, ClockFault, TimerKind, TimerStatus, Timers};
use bytetext::{Text, TryCopy, copies_of};
use caselines::{BAD_NUMBER, BAD_WORDS, CaseError, Sink, cut, number};
use std::alloc::Global;
use std::marker::Model;

/// Answers `timers STEP..` on `out`: what each step answers, with ` ; ` between. A step is one word.
/// `timer LAST INTERVAL COUNT PROC TEXT` and `utimer LAST INTERVAL COUNT PROC TEXT` create a timer and answer its id,
/// or the code of the refusal; LAST is the clock's last second or `-`. `kill ID` and `killnamed PROC TEXT` answer
/// `killed` or the code. `list` answers `KIND LEFT PROC ID REPEATS TEXT` of each timer, or `none`. `due SECOND` answers
/// `ID PROC TEXT` of each call, or `none`. A TEXT may have spaces; if it is empty, it is left out with the space before
/// it. The timers are copied before each step.
pub fn timers(alloc: Global, words: &[Text], out: &mut Sink) -> Result<(), CaseError> {
    let mut watch = Watch {
        timers: Timers::new(alloc),
        last: None,
    };
    for (i, step) in words.iter().enumerate() {
        out.between(b" ; ", i);
        watch.timers = watch.timers.copy(alloc)?;
        make(alloc, &mut watch, step.as_bytes(), out)?;
    }
    Ok(())
}

// What a step does.
#[derive(Clone, Copy)]
enum Step {
    Add(TimerKind),
    Due,
    Kill,
    KillNamed,
    List,
}

const STEPS: [(&[u8], Step); 6] = [
    (b"timer", Step::Add(TimerKind::Minutes)),
    (b"utimer", Step::Add(TimerKind::Seconds)),
    (b"due", Step::Due),
    (b"kill", Step::Kill),
    (b"killnamed", Step::KillNamed),
    (b"list", Step::List),
];

// Timers, and the last second that they were given.
#[derive(Drop)]
struct Watch {
    timers: Timers,
    last: Option<u64>,
}

impl Model for Watch {
    ghost use Rattle.std.specs.Prelude.{Option, ℕ, ◌≡◌};

    ghost Value = { Option ℕ };

    ghost view = { λ w. w.last };

    ghost invariant = { λ w. w.timers.last ≡ w.last };
}

impl Watch {
    // LAST INTERVAL COUNT PROC TEXT
    fn add(
        &mut self,
        alloc: Global,
        kind: TimerKind,
        rest: &[u8],
        out: &mut Sink,
    ) -> Result<(), CaseError> {
        let (last, rest) = cut(rest, b' ');
        let (interval, rest) = cut(rest, b' ');
        let (count, rest) = cut(rest, b' ');
        let (proc, text) = cut(rest, b' ');
        let (last, interval, count) = (reading(last)?, number(interval)?, number(count)?);
        if !may_add(self.last, last) {
            return Err(BAD_NUMBER);
        }
        let proc = Text::from_slice(alloc, proc)?;
        let text = Text::from_slice(alloc, text)?;
        match self.timers.add(kind, interval, count, proc, text, last) {
            Ok(id) => {
                self.last = Some(last.unwrap_or(0));
                out.number(id as u64);
            }
            Err(ClockError::Refused(fault)) => out.put(fault.code().as_bytes()),
            Err(ClockError::NoMemory) => return Err(CaseError::NoMemory),
        }
        Ok(())
    }

    fn due(&mut self, alloc: Global, second: u64, out: &mut Sink) -> Result<(), CaseError> {
        if !is_later(self.last, second) {
            return Err(BAD_NUMBER);
        }
        let calls = self.timers.due(alloc, second)?;
        self.last = Some(second);
        for (i, call) in calls.iter().enumerate() {
            out.between(b", ", i);
            out.number(call.id as u64);
            out.put(b" ");
            out.put(call.proc.as_bytes());
            text_shown(&call.text, out);
        }
        out.put_if(calls.is_empty(), b"none");
        Ok(())
    }

    fn kill(&mut self, id: u32, out: &mut Sink) {
        kill_shown(self.timers.kill(id), out);
    }

    // PROC TEXT
    fn kill_named(&mut self, rest: &[u8], out: &mut Sink) {
        let (proc, text) = cut(rest, b' ');
        kill_shown(self.timers.kill_named(proc, text), out);
    }

    fn list(&self, alloc: Global, out: &mut Sink) -> Result<(), CaseError> {
        let list = copies_of(alloc, &self.timers.list(alloc)?)?;
        for (i, status) in list.iter().enumerate() {
            out.between(b", ", i);
            status_shown(status, out);
        }
        out.put_if(list.is_empty(), b"none");
        Ok(())
    }
}

fn make(alloc: Global, watch: &mut Watch, step: &[u8], out: &mut Sink) -> Result<(), CaseError> {
    let (name, rest) = cut(step, b' ');
    let Some((_, step)) = STEPS.iter().find(|(word, _)| *word == name) else {
        return Err(BAD_WORDS);
    };
    match *step {
        Step::Add(kind) => return watch.add(alloc, kind, rest, out),
        Step::Due => return watch.due(alloc, number(rest)?, out),
        Step::Kill => watch.kill(number(rest)?, out),
        Step::KillNamed => watch.kill_named(rest, out),
        Step::List => return watch.list(alloc, out),
    }
    Ok(())
}

// A second, or `-` for none.
fn reading(word: &[u8]) -> Result<Option<u64>, CaseError> {
    match word {
        b"-" => Ok(None),
        _ => Ok(Some(number(word)?)),
    }
}

// Whether timers may be made at this reading after the last second.
fn may_add(last: Option<u64>, reading: Option<u64>) -> bool
    ensures { IsTrue result → IsNotBelow last reading }
{
    match (last, reading) {
        (Some(last), Some(reading)) => last <= reading,
        (Some(_), None) | (None, _) => true,
    }
}

// Whether this second comes after the last one.
fn is_later(last: Option<u64>, second: u64) -> bool
    ensures { IsTrue result → IsAbove last second }
{
    match last {
        Some(last) => last < second,
        None => true,
    }
}

// What a kill answers.
fn kill_shown(answer: Result<(), ClockFault>, out: &mut Sink) {
    match answer {
        Ok(()) => out.put(b"killed"),
        Err(fault) => out.put(fault.code().as_bytes()),
    }
}

// A space and the text of a timer, if it has one.
fn text_shown(text: &Text, out: &mut Sink) {
    if !text.is_empty() {
        out.put(b" ");
        out.put(text.as_bytes());
    }
}

// KIND LEFT PROC ID REPEATS TEXT
fn status_shown(status: &TimerStatus, out: &mut Sink) {
    match status.kind {
        TimerKind::Minutes => out.put(b"timer "),
        TimerKind::Seconds => out.put(b"utimer "),
    }
    out.number(status.left as u64);
    out.put(b" ");
    out.put(status.proc.as_bytes());
    out.put(b" ");
    out.number(status.id as u64);
    out.put(b" ");
    out.number(status.repeats as u64);
    text_shown(&status.text, out);
}
