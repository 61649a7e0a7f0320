// What a connection to a server makes of the server's messages, for its channels and its nick.
ghost use Rattle.std.specs.Prelude.{◌<◌};
ghost use Rattle.bytetext.specs.declared.moment.TheConstants.{MOMENTS_END};

use bytetext::{MOMENTS_END, Text};
use caselines::{BAD_NUMBER, BAD_WORDS, CaseError, Sink, cut, number};
use ircline::{Line, read_line};
use rfccase::Casemapping;
use serverlink::{Cue, Regain, Seat, cue_of};
use std::alloc::Global;

// How the server of a case compares names.
const MAPPING: Casemapping = Casemapping::Rfc1459;

/// Answers `cue NICK LINE` on `out`: what the line means for a bot with this nick.
pub fn cue(alloc: Global, words: &[Text], out: &mut Sink) -> Result<(), CaseError> {
    let [nick, line] = words else {
        return Err(BAD_WORDS);
    };
    match read_line(alloc, line.as_bytes())? {
        Line::Message(message) => {
            out.put(word_of(cue_of(MAPPING, &message, nick.as_bytes())));
            Ok(())
        }
        Line::Bad(_) => Err(BAD_WORDS),
    }
}

fn word_of(cue: Cue) -> &'static [u8] {
    match cue {
        Cue::Welcomed => b"welcomed",
        Cue::Renamed => b"renamed",
        Cue::Joined => b"joined",
        Cue::Parted => b"parted",
        Cue::Kicked => b"kicked",
        Cue::Barred => b"not let in",
        Cue::Forwarded => b"sent on",
        Cue::NickRefused => b"nick refused",
        Cue::Refused => b"refused",
        Cue::Supports => b"supports",
        Cue::Invited => b"invited",
        Cue::Nothing => b"nothing",
    }
}

/// Answers `regain WANTED STEP..` on `out`: what the process does after each step for the nick WANTED.
pub fn regain(alloc: Global, words: &[Text], out: &mut Sink) -> Result<(), CaseError> {
    let [wanted, steps @ ..] = words else {
        return Err(BAD_WORDS);
    };
    let mut regain = Regain::new();
    for (place, step) in steps.iter().enumerate() {
        let (now, rest) = cut(step.as_bytes(), b'/');
        let now: u64 = number(now)?;
        out.between(b" ", place);
        out.put(regain_step(alloc, &mut regain, wanted.as_bytes(), rest, now)?);
    }
    Ok(())
}

fn regain_step(
    alloc: Global,
    regain: &mut Regain,
    wanted: &[u8],
    step: &[u8],
    now: u64,
) -> Result<&'static [u8], CaseError> {
    if step.is_empty() {
        if !regain.is_due(MAPPING, wanted, now) {
            return Ok(b"none");
        }
        regain.ask(now);
        return Ok(if regain.monitors() {
            b"MONITOR,ISON"
        } else {
            b"ISON"
        });
    }
    if let Some(nick) = step.strip_prefix(b"nick ") {
        regain.name(alloc, nick, now)?;
        return Ok(b"named");
    }
    match read_line(alloc, step)? {
        Line::Message(message) => {
            if regain.hear(MAPPING, &message, wanted, now) {
                Ok(b"NICK")
            } else {
                Ok(b"none")
            }
        }
        Line::Bad(_) => Err(BAD_WORDS),
    }
}

/// Answers `seat NUMBER STEP..` on `out`: when the bot of this number asks to join the channel after each step.
pub fn seat(alloc: Global, words: &[Text], out: &mut Sink) -> Result<(), CaseError> {
    let [bot, steps @ ..] = words else {
        return Err(BAD_WORDS);
    };
    let mut seat = Seat::new(Text::empty(alloc), None, number(bot.as_bytes())?);
    for (place, step) in steps.iter().enumerate() {
        let (now, word) = cut(step.as_bytes(), b'/');
        let now: u64 = number(now)?;
        if now >= MOMENTS_END {
            return Err(BAD_NUMBER);
        }
        seat_step(&mut seat, word, now)?;
        out.between(b" ", place);
        match seat.asks() {
            Some(_) if seat.is_on() => out.put(b"on"),
            Some(second) => out.number(second),
            None => out.put(b"never"),
        }
    }
    Ok(())
}

fn seat_step(seat: &mut Seat, word: &[u8], now: u64) -> Result<(), CaseError>
    requires moment { now < MOMENTS_END }
{
    match word {
        b"welcome" => seat.welcome(now),
        b"join" => seat.join(now),
        b"off" => seat.take_off(now),
        b"bar" => seat.bar(now),
        b"invite" => {
            seat.invite(now);
        }
        b"ask" => seat.retry(now),
        b"lose" => seat.lose(),
        _ => return Err(BAD_WORDS),
    }
    Ok(())
}
