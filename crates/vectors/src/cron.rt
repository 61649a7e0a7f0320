// Cron masks.
use crate::civil::minute_of;
use bottimers::Cron;
use bytetext::{Text, TryCopy};
use caselines::{BAD_WORDS, CaseError, Sink};
use std::alloc::Global;

/// Answers `cron MASK MOMENT ZONE` on `out`: whether a copy of the mask matches a copy of the civil minute of the
/// moment, or the code of why the mask, the zone or the moment is refused.
pub fn cron(alloc: Global, words: &[Text], out: &mut Sink) -> Result<(), CaseError> {
    let [mask, moment, zone] = words else {
        return Err(BAD_WORDS);
    };
    let minute = minute_of(moment, zone)?;
    match (Cron::parse(mask.as_bytes()), minute) {
        (Err(fault), _) => out.put(fault.code().as_bytes()),
        (Ok(_), Err(fault)) => out.put(fault.code().as_bytes()),
        (Ok(cron), Ok(at)) => match cron.copy(alloc)?.matches(&at.copy(alloc)?) {
            true => out.put(b"match"),
            false => out.put(b"no match"),
        },
    }
    Ok(())
}
