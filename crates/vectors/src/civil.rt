// Civil time.
use bottimers::{CivilMinute, ClockFault};
use bytetext::{NoMemory, Text, Texts};
use caselines::{BAD_WORDS, CaseError, Sink, number, zone_of};
use std::alloc::Global;

/// How a civil minute is written.
#[derive(Clone, Copy)]
pub enum Form {
    /// `YEAR MONTH DAY HOUR MINUTE WEEKDAY` in plain numbers, the weekday 0 for Sunday.
    Numbers,
    /// The text of a time mask.
    Time,
    /// The arguments of a time call.
    TimeArgs,
    /// The arguments of a cron call.
    CronArgs,
}

/// Answers `civil MOMENT ZONE` and its like on `out`: the civil minute of a moment in the form `form`, or the code of a
/// refusal. The moment is in seconds.
pub fn civil(alloc: Global, form: Form, words: &[Text], out: &mut Sink) -> Result<(), CaseError> {
    let [moment, zone] = words else {
        return Err(BAD_WORDS);
    };
    match minute_of(moment, zone)? {
        Ok(at) => minute_shown(alloc, form, &at, out)?,
        Err(fault) => out.put(fault.code().as_bytes()),
    }
    Ok(())
}

/// Returns the civil minute of `moment` in `zone`, or why there is none.
pub fn minute_of(moment: &Text, zone: &Text) -> Result<Result<CivilMinute, ClockFault>, CaseError> {
    let moment = number::<u64>(moment.as_bytes())?;
    match zone_of(zone.as_bytes()) {
        Ok(zone) => Ok(bottimers::civil(moment, &zone)),
        Err(fault) => Ok(Err(fault)),
    }
}

/// Answers `zone ZONE` on `out`: `ok`, or the code of why there is no such zone.
pub fn zone(words: &[Text], out: &mut Sink) -> Result<(), CaseError> {
    let [word] = words else {
        return Err(BAD_WORDS);
    };
    match zone_of(word.as_bytes()) {
        Ok(_) => out.put(b"ok"),
        Err(fault) => out.put(fault.code().as_bytes()),
    }
    Ok(())
}

fn minute_shown(
    alloc: Global,
    form: Form,
    at: &CivilMinute,
    out: &mut Sink,
) -> Result<(), NoMemory> {
    match form {
        Form::Numbers => numbers_shown(at, out),
        Form::Time => out.put(bottimers::time_text(alloc, at)?.as_bytes()),
        Form::TimeArgs => words_shown(&bottimers::time_args(alloc, at)?, out),
        Form::CronArgs => words_shown(&bottimers::cron_args(alloc, at)?, out),
    }
    Ok(())
}

fn numbers_shown(at: &CivilMinute, out: &mut Sink) {
    out.number(at.year.unsigned_abs() as u64);
    for part in [at.month, at.day, at.hour, at.minute, at.weekday] {
        out.put(b" ");
        out.number(part as u64);
    }
}

fn words_shown(words: &Texts, out: &mut Sink) {
    for (i, word) in words.as_slice().iter().enumerate() {
        out.between(b",", i);
        out.put(word.as_bytes());
    }
}
