// What a bot knows of its channels by the lines that it has read.
use bytetext::{NoMemory, Text, TryCopy};
use caselines::{BAD_WORDS, CaseError, Sink};
use chanstate::{ChanState, Member};
use ircline::{Line, LineFault};
use std::alloc::Global;

// What is asked of the state.
#[derive(Clone, Copy)]
enum Question {
    Account,
    Channels,
    Holds,
    Members,
    Nick,
    Op,
    Topic,
}

const QUESTIONS: [(&[u8], Question); 7] = [
    (b"account", Question::Account),
    (b"channels", Question::Channels),
    (b"holds", Question::Holds),
    (b"members", Question::Members),
    (b"nick", Question::Nick),
    (b"op", Question::Op),
    (b"topic", Question::Topic),
];

/// Answers `chan NICK LINE.. QUESTION NAME..` on `out`: the answer to the question after the lines, or the code of the
/// first line that is no message. The bot has connected under the nick. The question is asked of a copy.
pub fn chan(alloc: Global, words: &[Text], out: &mut Sink) -> Result<(), CaseError> {
    let [nick, words @ ..] = words else {
        return Err(BAD_WORDS);
    };
    let mut state = ChanState::new(alloc, nick.as_bytes())?;
    answer_after(alloc, &mut state, words, out)
}

/// Reads `lines` up to the first that is no message, and returns that one's fault, if there is one. Each message is
/// first prepared and cancelled, and then applied.
pub fn read_all(
    alloc: Global,
    state: &mut ChanState,
    lines: &[Text],
) -> Result<Option<LineFault>, NoMemory> {
    for line in lines {
        let fault = read(alloc, state, line.as_bytes())?;
        if fault.is_some() {
            return Ok(fault);
        }
    }
    Ok(None)
}

fn read(alloc: Global, state: &mut ChanState, line: &[u8]) -> Result<Option<LineFault>, NoMemory> {
    match ircline::read_line(alloc, line)? {
        Line::Message(message) => {
            state.ready(alloc, &message)?.cancel();
            state.apply(alloc, &message)?;
            Ok(None)
        }
        Line::Bad(fault) => Ok(Some(fault)),
    }
}

fn question_of(word: &Text) -> Option<Question> {
    let (_, question) = QUESTIONS.iter().find(|(name, _)| word.is_same(name))?;
    Some(*question)
}

// The answer to the question that stands after the lines.
fn answer_after(
    alloc: Global,
    state: &mut ChanState,
    words: &[Text],
    out: &mut Sink,
) -> Result<(), CaseError> {
    let Some(at) = words.iter().position(|word| question_of(word).is_some()) else {
        return Err(BAD_WORDS);
    };
    match read_all(alloc, state, &words[..at])? {
        Some(fault) => out.put(fault.code().as_bytes()),
        None => answer(alloc, &state.copy(alloc)?, &words[at..], out)?,
    }
    Ok(())
}

// The answer to a question and its names.
fn answer(
    alloc: Global,
    state: &ChanState,
    words: &[Text],
    out: &mut Sink,
) -> Result<(), CaseError> {
    let [question, names @ ..] = words else {
        return Err(BAD_WORDS);
    };
    match (question_of(question), names) {
        (Some(Question::Nick), []) => out.put(state.own_nick()),
        (Some(Question::Account), [nick]) => account(state, nick, out),
        (Some(Question::Op), [channel, nick]) => op(state, channel, nick, out),
        (Some(Question::Topic), [channel]) => topic(state, channel, out),
        (Some(Question::Holds), [channel]) => holds(state, channel, out),
        (Some(Question::Members), [channel]) => return members(alloc, state, channel, out),
        (Some(Question::Channels), [nick]) => return channels(alloc, state, nick, out),
        (_, _) => return Err(BAD_WORDS),
    }
    Ok(())
}

fn account(state: &ChanState, nick: &Text, out: &mut Sink) {
    let account = state.account_of(nick.as_bytes());
    match account.is_empty() {
        true => out.put(b"no account"),
        false => {
            out.put(b"account");
            out.quoted(account);
        }
    }
}

fn holds(state: &ChanState, channel: &Text, out: &mut Sink) {
    match state.holds(channel.as_bytes()) {
        true => out.put(b"held"),
        false => out.put(b"not held"),
    }
}

fn op(state: &ChanState, channel: &Text, nick: &Text, out: &mut Sink) {
    match state.is_op(channel.as_bytes(), nick.as_bytes()) {
        true => out.put(b"op"),
        false => out.put(b"no op"),
    }
}

fn topic(state: &ChanState, channel: &Text, out: &mut Sink) {
    match state.topic(channel.as_bytes()) {
        Some(topic) => {
            out.put(b"topic");
            out.quoted(topic);
        }
        None => out.put(b"not held"),
    }
}

fn channels(
    alloc: Global,
    state: &ChanState,
    nick: &Text,
    out: &mut Sink,
) -> Result<(), CaseError> {
    let names = state.channels_of(alloc, nick.as_bytes())?;
    for (i, name) in names.as_slice().iter().enumerate() {
        out.between(b" ", i);
        out.put(name.as_bytes());
    }
    out.put_if(names.is_empty(), b"none");
    Ok(())
}

fn members(
    alloc: Global,
    state: &ChanState,
    channel: &Text,
    out: &mut Sink,
) -> Result<(), CaseError> {
    let members = state.members(alloc, channel.as_bytes())?;
    for (i, member) in members.as_slice().iter().enumerate() {
        out.between(b" ", i);
        member_shown(member, out);
    }
    out.put_if(members.as_slice().is_empty(), b"nobody");
    Ok(())
}

// The marks, then the nick, then `!user@host`, or nothing if both are empty.
fn member_shown(member: &Member, out: &mut Sink) {
    out.put_if(member.op, b"@");
    out.put_if(member.half_op, b"%");
    out.put_if(member.voice, b"+");
    out.put(member.nick.as_bytes());
    if !member.user.is_empty() || !member.host.is_empty() {
        out.put(b"!");
        out.put(member.user.as_bytes());
        out.put(b"@");
        out.put(member.host.as_bytes());
    }
}
