// The events of what people say.
ghost use Rattle.std.specs.Prelude.{◌≡◌, IfOk};
ghost use Rattle.std.specs.Option.{option_copied, option_map};
ghost use Rattle.chanstate.specs.Speech.{to_bot, to_channel, noticed, is_hidden, channel_sent, says, notes};

use crate::deed::{Author, joined};
use crate::event::{EventKind, IrcEvent};
use crate::names::is_same;
use crate::state::ChanState;
use crate::words::param;
use bytetext::{NoMemory, Text, after_word, first_word};
use std::alloc::Global;

/// Returns whether a text that somebody says is only for programs: it begins with byte 1, as CTCP has it. Such a text has
/// no event but the raw one.
pub fn is_for_programs(text: &[u8]) -> bool
    ensures { result ≡ is_hidden text.now }
{
    !text.is_empty() && text[0] == 1
}

// Returns the events when a person says something to the bot: one by the whole text, and one by its first word, if it
// begins with a word.
fn say_to_bot(alloc: Global, by: Author<'_>, text: &[u8]) -> Result<Vec<IrcEvent>, NoMemory>
    ensures { IfOk result (λ v. v.items ≡ to_bot by.entry.nick.now by.entry.address.now text.now) }
{
    let mut events = Vec::with_capacity(alloc, 2)?;
    let whole = [by.nick, by.address, text];
    events.push(IrcEvent::new(alloc, EventKind::Msgm, text, None, &whole)?)?;
    let word = first_word(text);
    if word.is_empty() {
        return Ok(events);
    }
    let rest = [by.nick, by.address, after_word(text)];
    events.push(IrcEvent::new(alloc, EventKind::Msg, word, None, &rest)?)?;
    Ok(events)
}

// Returns the events when a person says something on a channel: one by the channel and the whole text, and one by the
// text's first word, if it begins with a word.
fn say_on(
    alloc: Global,
    by: Author<'_>,
    channel: &[u8],
    text: &[u8],
) -> Result<Vec<IrcEvent>, NoMemory>
    ensures { IfOk result (λ v. v.items ≡ to_channel by.entry.nick.now by.entry.address.now channel.now text.now) }
{
    let mut events = Vec::with_capacity(alloc, 2)?;
    let subject = joined(alloc, channel, b' ', text)?;
    let whole = [by.nick, by.address, channel, text];
    events.push(IrcEvent::new(
        alloc,
        EventKind::Pubm,
        subject.as_bytes(),
        Some(channel),
        &whole,
    )?)?;
    let word = first_word(text);
    if word.is_empty() {
        return Ok(events);
    }
    let rest = [by.nick, by.address, channel, after_word(text)];
    events.push(IrcEvent::new(alloc, EventKind::Pub, word, Some(channel), &rest)?)?;
    Ok(events)
}

// Returns the event of a notice from a person.
fn note(
    alloc: Global,
    by: Author<'_>,
    channel: Option<&[u8]>,
    text: &[u8],
    dest: &[u8],
) -> Result<Vec<IrcEvent>, NoMemory>
    ensures { IfOk result (λ v. v.items
        ≡ noticed by.entry.nick.now by.entry.address.now (option_copied channel.entry) text.now dest.now) }
{
    let mut events = Vec::with_capacity(alloc, 1)?;
    events.push(IrcEvent::new(
        alloc,
        EventKind::Notc,
        text,
        channel,
        &[by.nick, by.address, text, dest],
    )?)?;
    Ok(events)
}

// Returns the channel to which `target` sends a text, as the bot spells it; `None` if the bot isn't on it. A sign of
// STATUSMSG may stand before the name.
fn channel_sent<'a>(target: &[u8], state: &'a ChanState) -> Option<&'a [u8]>
    ensures { option_copied result ≡ option_map (λ c. c.name) (channel_sent target.now state.now) }
{
    if let Some(channel) = state.held(target) {
        return Some(channel);
    }
    if state.support().has_status(target) {
        state.held(&target[1..])
    } else {
        None
    }
}

// Returns the events of a PRIVMSG.
pub(crate) fn say(
    alloc: Global,
    by: Author<'_>,
    params: &[Text],
    state: &ChanState,
) -> Result<Vec<IrcEvent>, NoMemory>
    ensures { IfOk result (λ v. v.items ≡ says by.entry.nick.now by.entry.address.now params.now state.now) }
{
    let Some(target) = param(params, 0) else {
        return Ok(Vec::new(alloc));
    };
    let Some(text) = param(params, 1) else {
        return Ok(Vec::new(alloc));
    };
    if is_for_programs(text) {
        return Ok(Vec::new(alloc));
    }
    if is_same(state.casemapping(), target, state.own_nick()) {
        return say_to_bot(alloc, by, text);
    }
    match channel_sent(target, state) {
        Some(channel) => say_on(alloc, by, channel, text),
        None => Ok(Vec::new(alloc)),
    }
}

// Returns the events of a NOTICE.
pub(crate) fn notice(
    alloc: Global,
    by: Author<'_>,
    params: &[Text],
    state: &ChanState,
) -> Result<Vec<IrcEvent>, NoMemory>
    ensures { IfOk result (λ v. v.items ≡ notes by.entry.nick.now by.entry.address.now params.now state.now) }
{
    let Some(target) = param(params, 0) else {
        return Ok(Vec::new(alloc));
    };
    let Some(text) = param(params, 1) else {
        return Ok(Vec::new(alloc));
    };
    if is_for_programs(text) {
        return Ok(Vec::new(alloc));
    }
    if is_same(state.casemapping(), target, state.own_nick()) {
        return note(alloc, by, None, text, target);
    }
    match channel_sent(target, state) {
        Some(channel) => note(alloc, by, Some(channel), text, channel),
        None => Ok(Vec::new(alloc)),
    }
}
