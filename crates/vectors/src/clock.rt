// Readings of the clock.
use bottimers::{Clock, ClockError};
use bytetext::{Text, TryCopy};
use caselines::{CaseError, Sink, number};
use std::alloc::Global;

/// Answers `clock READING..` on `out`: for each reading the seconds that it runs, as `FIRST to LAST`, `none`, or the
/// code of why it is refused, with ` ; ` between. If the word is `last` instead of a reading, the last second seen.
/// Each is asked of a copy.
pub fn clock(alloc: Global, words: &[Text], out: &mut Sink) -> Result<(), CaseError> {
    let mut clock = Clock::new();
    for (i, word) in words.iter().enumerate() {
        out.between(b" ; ", i);
        clock = clock.copy(alloc)?;
        match word.is_same(b"last") {
            true => last_shown(clock.last(), out),
            false => read(alloc, &mut clock, number(word.as_bytes())?, out)?,
        }
    }
    Ok(())
}

fn read(alloc: Global, clock: &mut Clock, now: u64, out: &mut Sink) -> Result<(), CaseError> {
    match clock.advance(alloc, now) {
        Ok(seconds) => seconds_shown(&seconds, out),
        Err(ClockError::Refused(fault)) => out.put(fault.code().as_bytes()),
        Err(ClockError::NoMemory) => return Err(CaseError::NoMemory),
    }
    Ok(())
}

fn seconds_shown(seconds: &[u64], out: &mut Sink) {
    match seconds {
        [] => out.put(b"none"),
        [only] => out.number(*only),
        [first, .., last] => {
            out.number(*first);
            out.put(b" to ");
            out.number(*last);
        }
    }
}

fn last_shown(last: Option<u64>, out: &mut Sink) {
    match last {
        Some(last) => out.number(last),
        None => out.put(b"none"),
    }
}
