// The events of a line.
use crate::channels;
use bytetext::{NoMemory, Text};
use caselines::{BAD_WORDS, CaseError, Sink};
use chanstate::{ChanState, EventKind, IrcEvent};
use ircline::Line;
use std::alloc::Global;

/// Answers `events NICK LINE..` on `out`: the events of the last line against the state after the others, or the code
/// of the first line that is no message. The bot has connected under the nick.
pub fn events(alloc: Global, words: &[Text], out: &mut Sink) -> Result<(), CaseError> {
    let [nick, before @ .., line] = words else {
        return Err(BAD_WORDS);
    };
    let mut state = ChanState::new(alloc, nick.as_bytes())?;
    match channels::read_all(alloc, &mut state, before)? {
        Some(fault) => out.put(fault.code().as_bytes()),
        None => last(alloc, &state, line.as_bytes(), out)?,
    }
    Ok(())
}

// The events of the last line.
fn last(alloc: Global, state: &ChanState, line: &[u8], out: &mut Sink) -> Result<(), NoMemory> {
    match ircline::read_line(alloc, line)? {
        Line::Message(message) => match chanstate::events(alloc, &message, state) {
            Ok(events) => each_shown(&events, out),
            Err(refused) => return Err(refused),
        },
        Line::Bad(fault) => out.put(fault.code().as_bytes()),
    }
    Ok(())
}

fn each_shown(events: &[IrcEvent], out: &mut Sink) {
    for (i, event) in events.iter().enumerate() {
        out.between(b" ; ", i);
        event_shown(event, out);
    }
}

// KIND 'SUBJECT' CHANNEL 'ARGUMENT'.., and ` = ACCOUNT` if there is an account
fn event_shown(event: &IrcEvent, out: &mut Sink) {
    out.put(name_of(event.kind).as_bytes());
    out.quoted(event.subject.as_bytes());
    out.put(b" ");
    match &event.channel {
        Some(channel) => out.put(channel.as_bytes()),
        None => out.put(b"-"),
    }
    for argument in event.arguments.as_slice() {
        out.quoted(argument.as_bytes());
    }
    if !event.account.is_empty() {
        out.put(b" = ");
        out.put(event.account.as_bytes());
    }
}

fn name_of(kind: EventKind) -> &'static str {
    match kind {
        EventKind::Raw => "raw",
        EventKind::Msg => "msg",
        EventKind::Msgm => "msgm",
        EventKind::Notc => "notc",
        EventKind::Pub => "pub",
        EventKind::Pubm => "pubm",
        EventKind::Join => "join",
        EventKind::Part => "part",
        EventKind::Sign => "sign",
        EventKind::Kick => "kick",
        EventKind::Nick => "nick",
        EventKind::Mode => "mode",
        EventKind::Topc => "topc",
        EventKind::Account => "account",
    }
}
