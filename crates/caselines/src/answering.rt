// From the cases of standard input to their answers.
use crate::sink::Sink;
use crate::stop::{CaseError, Stop};
use crate::words::words_of;
use bytetext::Text;
use std::alloc::Global;
use std::io;
use std::io::{Read as _, Write as _};
use std::process::ExitCode;

/// The most bytes of standard input that are read.
const MAX_INPUT: usize = 1_048_576;

/// A program's answers to cases.
pub trait Cases {
    /// Writes to `out` the answer to the case `words`.
    ///
    /// # Errors
    /// `Refused` if `words` are no case, and `NoMemory` if an allocation fails. What was written is then discarded.
    fn answer(&self, alloc: Global, words: &[Text], out: &mut Sink) -> Result<(), CaseError>;
}

/// A program's answers to cases of several steps, where a step may depend on those before it.
pub trait StepMaker {
    /// Makes the step that `line` asks for, and appends its answer to `out`: lines that each end with a line feed.
    ///
    /// # Errors
    /// `Refused` if `line` is no step, and `NoMemory` if an allocation fails. What was written is then discarded.
    fn step(&mut self, alloc: Global, line: &[u8], out: &mut Vec<u8>) -> Result<(), CaseError>;
}

/// Answers the cases of standard input on standard output, as `cases` does. If it ends early, it says why on standard
/// error, after the name `program`. Returns the status that the program ends with.
pub fn answer_input<R: Input + Print + Eprint + AllocGlobal, C: Cases>(
    rt: &R,
    program: &str,
    cases: &C,
) -> ExitCode {
    status_of(rt, program, answer_all(rt, cases))
}

/// Makes the steps of standard input on standard output, as `steps` does: a line is a step, an empty line is skipped,
/// and a line that begins with `#` is printed as it is. If it ends early, it says why on standard error, after the name
/// `program`. Returns the status that the program ends with.
pub fn play_input<R: Input + Print + Eprint + AllocGlobal, S: StepMaker>(
    rt: &R,
    program: &str,
    steps: &mut S,
) -> ExitCode {
    status_of(rt, program, play_all(rt, steps))
}

// Returns the status of a run that ended so. If it ended early, this says why, after the name `program`.
fn status_of<R: Eprint>(rt: &R, program: &str, ran: Result<(), Stop>) -> ExitCode {
    match ran {
        Ok(()) => ExitCode::from(0),
        Err(stop) => {
            let _ = eprintln!(rt; "{program}: {stop}");
            ExitCode::from(stop.status())
        }
    }
}

// Answers the cases of standard input.
fn answer_all<R: Input + Print + AllocGlobal, C: Cases>(rt: &R, cases: &C) -> Result<(), Stop> {
    let input = read_input(rt)?;
    let answers = answers_of(rt.alloc(), cases, &input)?;
    io::writer(rt).write_all(&answers)?;
    Ok(())
}

// Makes the steps of standard input.
fn play_all<R: Input + Print + AllocGlobal, S: StepMaker>(
    rt: &R,
    steps: &mut S,
) -> Result<(), Stop> {
    let input = read_input(rt)?;
    let answers = answers_to(rt.alloc(), steps, &input)?;
    io::writer(rt).write_all(&answers)?;
    Ok(())
}

// Reads standard input.
fn read_input<R: Input + AllocGlobal>(rt: &R) -> Result<Vec<u8>, Stop> {
    let mut input = Vec::new(rt.alloc());
    rt.reader()
        .take(MAX_INPUT as u64 + 1)
        .read_to_end(&mut input)?;
    if input.len() > MAX_INPUT {
        return Err(Stop::TooLong);
    }
    Ok(input)
}

// The answers to the cases of a text, a line each.
fn answers_of<C: Cases>(alloc: Global, cases: &C, input: &[u8]) -> Result<Vec<u8>, Stop> {
    let mut out = Sink::new(alloc);
    for (i, line) in input.split(|byte| *byte == b'\n').enumerate() {
        if let Err(error) = answer(alloc, cases, line, &mut out) {
            return Err(Stop::at(i.saturating_add(1), error));
        }
    }
    Ok(out.into_bytes()?)
}

// Writes the answer to a line, if it is a case.
fn answer<C: Cases>(
    alloc: Global,
    cases: &C,
    line: &[u8],
    out: &mut Sink,
) -> Result<(), CaseError> {
    if line.is_empty() || line.starts_with(b"#") {
        return Ok(());
    }
    let words = words_of(alloc, line)?;
    cases.answer(alloc, &words, out)?;
    out.end_line();
    Ok(())
}

// The answers to the steps of a text.
fn answers_to<S: StepMaker>(alloc: Global, steps: &mut S, input: &[u8]) -> Result<Vec<u8>, Stop> {
    let mut out = Vec::new(alloc);
    for (i, line) in input.split(|byte| *byte == b'\n').enumerate() {
        if let Err(error) = step(alloc, steps, line, &mut out) {
            return Err(Stop::at(i.saturating_add(1), error));
        }
    }
    Ok(out)
}

// Makes the step of a line, if it is one.
fn step<S: StepMaker>(
    alloc: Global,
    steps: &mut S,
    line: &[u8],
    out: &mut Vec<u8>,
) -> Result<(), CaseError> {
    if line.starts_with(b"#") {
        out.extend_from_slice(line)?;
        out.push(b'\n')?;
        return Ok(());
    }
    if line.is_empty() {
        return Ok(());
    }
    steps.step(alloc, line, out)
}
