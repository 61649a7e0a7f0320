// The seconds that clocks read as, and when a try is due.
use bytetext::{MOMENTS_END, Text};
use caselines::{BAD_NUMBER, BAD_WORDS, CaseError, Sink, cut, number};
use net::{FIRST_WAIT, Redial, Timeline};

/// Answers `timeline MARK WALL/MONOTONIC..` on `out`: the reading of each pair of clocks.
pub fn timeline(words: &[Text], out: &mut Sink) -> Result<(), CaseError> {
    let [mark, pairs @ ..] = words else {
        return Err(BAD_WORDS);
    };
    let mut timeline = Timeline::begin(number(mark.as_bytes())?);
    for (place, pair) in pairs.iter().enumerate() {
        let (wall, monotonic) = cut(pair.as_bytes(), b'/');
        let second = timeline.read(number(wall)?, number(monotonic)?);
        out.between(b" ", place);
        out.number(second);
    }
    Ok(())
}

/// Answers `redial NUMBER MOST STEP..` on `out`: when the next try is due after each step.
pub fn redial(words: &[Text], out: &mut Sink) -> Result<(), CaseError> {
    let [bot, most, steps @ ..] = words else {
        return Err(BAD_WORDS);
    };
    let most: u16 = number(most.as_bytes())?;
    if u64::from(most) < FIRST_WAIT {
        return Err(BAD_NUMBER);
    }
    let mut redial = Redial::new(number(bot.as_bytes())?, most);
    for (place, step) in steps.iter().enumerate() {
        let (word, now) = cut(step.as_bytes(), b'/');
        let now: u64 = number(now)?;
        if now >= MOMENTS_END {
            return Err(BAD_NUMBER);
        }
        redial.lost(now, was_good(word)?);
        out.between(b" ", place);
        out.number(redial.due());
    }
    Ok(())
}

// Whether the connection that was lost was good.
fn was_good(word: &[u8]) -> Result<bool, CaseError> {
    match word {
        b"good" => Ok(true),
        b"lost" => Ok(false),
        _ => Err(BAD_WORDS),
    }
}
