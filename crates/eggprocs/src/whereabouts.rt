// The proc that says whether somebody is here.
ghost use Rattle.std.specs.Prelude.{◌≡◌, find, IfOk};
ghost use Rattle.std.specs.Option.{option_copied};
ghost use Rattle.eggprocs.specs.Whereabouts.{sought, is_there, asked_here, first_shared, shared, on_now, known_text, by_records, whereabouts, asked_by_seen};

use crate::args::{channel_of, last_of, nick_of};
use crate::basics::is_command;
use crate::people::only_told;
use crate::rights::is_pub;
use bytetext::{NoMemory, Text, TryCopy, first_word};
use procs::{Actions, Call, View, starts_with_word};
use std::alloc::Global;

// What `seen` requests: a NOTICE to the caller that says whether somebody is here.
pub(crate) fn asked_by_seen(
    alloc: Global,
    call: &Call,
    view: &View<'_>,
) -> Result<Actions, NoMemory>
    ensures { IfOk result (λ actions. actions ≡ asked_by_seen call.now view.now) }
{
    if !is_command(call.kind) {
        return Ok(Actions::empty(alloc));
    }
    let words = whereabouts(alloc, call, view)?;
    only_told(alloc, call, words.as_bytes())
}

// Where somebody is, or how the command is used.
fn whereabouts(alloc: Global, call: &Call, view: &View<'_>) -> Result<Text, NoMemory>
    ensures { IfOk result (λ words. words ≡ whereabouts call.now view.now) }
{
    if !starts_with_word(last_of(call.args.as_slice())) {
        return Text::from_slice(alloc, b"use seen NICK");
    }
    match shared(alloc, call, view)? {
        Some(channel) => on_now(alloc, sought(call), channel.as_bytes()),
        None => by_records(alloc, call, view),
    }
}

// The nick that a command's text begins with.
fn sought(call: &Call) -> &[u8]
    ensures { result.now ≡ sought call.now }
{
    first_word(last_of(call.args.as_slice()))
}

// Whether somebody is on a channel.
fn is_there(nick: &[u8], view: &View<'_>, channel: &[u8]) -> bool
    ensures { result ≡ is_there nick.now view.now channel.now }
{
    view.channels().is_on(channel, nick)
}

// A channel that has both the caller and the other, and that the answer may name.
fn shared(alloc: Global, call: &Call, view: &View<'_>) -> Result<Option<Text>, NoMemory>
    ensures { IfOk result (λ channel. channel ≡ shared call.now view.now) }
{
    if is_pub(call.kind) {
        asked_here(alloc, call, view)
    } else {
        first_shared(alloc, call, view)
    }
}

// The channel of the call, if both are on it.
fn asked_here(alloc: Global, call: &Call, view: &View<'_>) -> Result<Option<Text>, NoMemory>
    ensures { IfOk result (λ channel. channel ≡ asked_here call.now view.now) }
{
    let channel = channel_of(call);
    if !(is_there(nick_of(call), view, channel) && is_there(sought(call), view, channel)) {
        return Ok(None);
    }
    Ok(Some(Text::from_slice(alloc, channel)?))
}

// The first channel on which both are.
fn first_shared(alloc: Global, call: &Call, view: &View<'_>) -> Result<Option<Text>, NoMemory>
    ensures { IfOk result (λ channel. channel ≡ first_shared call.now view.now) }
{
    let names = view.channels().channels_of(alloc, nick_of(call))?;
    match first_with(names.as_slice(), sought(call), view) {
        Some(name) => Ok(Some(name.copy(alloc)?)),
        None => Ok(None),
    }
}

// The first of these channels on which somebody is.
fn first_with<'a>(names: &'a [Text], nick: &[u8], view: &View<'_>) -> Option<&'a Text>
    ensures { option_copied result ≡ find (is_there nick.now view.now) names.now }
{
    names
        .iter()
        .find(|name| is_there(nick, view, name.as_bytes()))
}

// NICK is on CHANNEL now
fn on_now(alloc: Global, nick: &[u8], channel: &[u8]) -> Result<Text, NoMemory>
    ensures { IfOk result (λ words. words ≡ on_now nick.now channel.now) }
{
    let mut words = Vec::from_slice(alloc, nick)?;
    words.extend_from_slice(b" is on ")?;
    words.extend_from_slice(channel)?;
    words.extend_from_slice(b" now")?;
    Ok(Text::new(words))
}

// What the records say about a nick that is not here.
fn by_records(alloc: Global, call: &Call, view: &View<'_>) -> Result<Text, NoMemory>
    ensures { IfOk result (λ words. words ≡ by_records call.now view.now) }
{
    let nick = sought(call);
    let mut words = Vec::from_slice(alloc, nick)?;
    words.extend_from_slice(known_text(view.userfile().user(nick).is_some()))?;
    Ok(Text::new(words))
}

fn known_text(known: bool) -> &'static [u8]
    ensures { result.now ≡ known_text known }
{
    if known {
        b" is not here, but known"
    } else {
        b" is neither here nor known"
    }
}
