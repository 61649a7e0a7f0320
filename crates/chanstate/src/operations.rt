// The events of what is done on a channel.
ghost use Rattle.std.specs.Prelude.{◌≡◌, ◌++◌, ◌∷◌, [], true, IfOk, OnOk, map};
ghost use Rattle.std.specs.Option.{option_to_list};
ghost use Rattle.chanstate.specs.Items.{single_at, singles};
ghost use Rattle.chanstate.specs.Operations.{kicks, modes, topics, mode_on};

use crate::deed::{Author, Deed};
use crate::event::{EventKind, IrcEvent};
use crate::modes::{argument, is_mode, next_arguments, next_sign};
use crate::state::ChanState;
use crate::support::Support;
use crate::words::{last, param, params_from, text_at};
use bytetext::{NoMemory, Text};
use std::alloc::Global;

// Returns the events of a KICK.
pub(crate) fn kick(
    alloc: Global,
    by: Author<'_>,
    params: &[Text],
    state: &ChanState,
) -> Result<Vec<IrcEvent>, NoMemory>
    ensures { IfOk result (λ v. v.items ≡ kicks by.entry.nick.now by.entry.address.now params.now state.now) }
{
    let Some(name) = param(params, 0) else {
        return Ok(Vec::new(alloc));
    };
    let Some(target) = param(params, 1) else {
        return Ok(Vec::new(alloc));
    };
    let Some(channel) = state.held(name) else {
        return Ok(Vec::new(alloc));
    };
    let deed = Deed {
        kind: EventKind::Kick,
        by,
        about: target,
        more: &[target, text_at(params, 2)],
    };
    deed.on_one(alloc, channel)
}

// Returns the events of a TOPIC.
pub(crate) fn title(
    alloc: Global,
    by: Author<'_>,
    params: &[Text],
    state: &ChanState,
) -> Result<Vec<IrcEvent>, NoMemory>
    ensures { IfOk result (λ v. v.items ≡ topics by.entry.nick.now by.entry.address.now params.now state.now) }
{
    let Some(name) = param(params, 0) else {
        return Ok(Vec::new(alloc));
    };
    let Some(_) = param(params, 1) else {
        return Ok(Vec::new(alloc));
    };
    let Some(topic) = last(params) else {
        return Ok(Vec::new(alloc));
    };
    let Some(channel) = state.held(name) else {
        return Ok(Vec::new(alloc));
    };
    let deed = Deed {
        kind: EventKind::Topc,
        by,
        about: topic,
        more: &[topic],
    };
    deed.on_one(alloc, channel)
}

// Returns the events of a MODE.
pub(crate) fn mode(
    alloc: Global,
    by: Author<'_>,
    params: &[Text],
    state: &ChanState,
) -> Result<Vec<IrcEvent>, NoMemory>
    ensures { IfOk result (λ v. v.items ≡ modes by.entry.nick.now by.entry.address.now params.now state.now) }
{
    let Some(name) = param(params, 0) else {
        return Ok(Vec::new(alloc));
    };
    let Some(letters) = param(params, 1) else {
        return Ok(Vec::new(alloc));
    };
    let Some(channel) = state.held(name) else {
        return Ok(Vec::new(alloc));
    };
    each_mode(
        alloc,
        by,
        channel,
        &state.support,
        letters,
        params_from(params, 2),
    )
}

// Returns the events of each single mode of the mode string `letters`.
fn each_mode(
    alloc: Global,
    by: Author<'_>,
    channel: &[u8],
    support: &Support,
    letters: &[u8],
    arguments: &[Text],
) -> Result<Vec<IrcEvent>, NoMemory>
    ensures { IfOk result (λ v. v.items
        ≡ map (mode_on by.entry.nick.now by.entry.address.now channel.now) (singles support.now true letters.now arguments.now)) }
{
    let mut events = Vec::new(alloc);
    let mut on = true;
    let mut rest = arguments;
    for byte in letters {
        push_mode(&mut events, alloc, by, channel, support, on, *byte, rest)?;
        rest = next_arguments(support, on, *byte, rest);
        on = next_sign(on, *byte);
    }
    Ok(events)
}

// Appends an event, if `byte` of the mode string is a single mode.
fn push_mode(
    events: &mut Vec<IrcEvent>,
    alloc: Global,
    by: Author<'_>,
    channel: &[u8],
    support: &Support,
    on: bool,
    byte: u8,
    arguments: &[Text],
) -> Result<(), NoMemory>
    ensures { OnOk result (events.new.items ≡ events.old.items
        ++ map (mode_on by.entry.nick.now by.entry.address.now channel.now) (option_to_list (single_at support.now on byte arguments.now))) }
{
    if !is_mode(byte) {
        return Ok(());
    }
    let signed = [if on { b'+' } else { b'-' }, byte];
    let deed = Deed {
        kind: EventKind::Mode,
        by,
        about: &signed,
        more: &[&signed, argument(support, on, byte, arguments)],
    };
    events.push(deed.on(alloc, channel)?)?;
    Ok(())
}
