// Our procs, and the actions that each asks for, in the words of `specs/Ours.antt`.
ghost use Rattle.std.specs.Prelude.{◌≡◌, IfOk, Some};
ghost use Rattle.examplebot.specs.Ours.{actions_of, badword, banned_until, greet, op};

use crate::asking::{
    ban, channel_of, handle_of, has_o, is_op, mask_of, nick_of, put, put_after, put_later,
    second_after, these,
};
use bytetext::NoMemory;
use outqueue::Queue;
use procs::{Actions, Call, View};
use std::alloc::Global;

/// The names of the procs.
pub(crate) const NAMES: [&[u8]; 4] = [b"op", b"badword", b"greet", b"put_later"];

// Returns what the proc named `name` asks for.
pub(crate) fn actions_of(
    alloc: Global,
    name: &[u8],
    call: &Call,
    view: &View<'_>,
) -> Result<Actions, NoMemory>
    ensures { IfOk result (λ actions. actions ≡ actions_of name.now call.now view.now) }
{
    if name == b"op".as_slice() {
        op(alloc, call, view)
    } else if name == b"badword".as_slice() {
        badword(alloc, call, view)
    } else if name == b"greet".as_slice() {
        greet(alloc, call, view)
    } else if name == b"put_later".as_slice() {
        put_later(alloc, call)
    } else {
        Ok(Actions::empty(alloc))
    }
}

// Gives op to a member who joins with the flag o.
fn op(alloc: Global, call: &Call, view: &View<'_>) -> Result<Actions, NoMemory>
    ensures { IfOk result (λ actions. actions ≡ op call.now view.now) }
{
    if !has_o(call, view) {
        return Ok(Actions::empty(alloc));
    }
    let (channel, nick) = (channel_of(call), nick_of(call));
    let gives = put(alloc, Queue::Mode, &[b"MODE ", channel, b" +o ", nick])?;
    Ok(these(vec![in alloc; gives]?))
}

// Kicks whoever says a bad word, and bans them for ten minutes, except ops and people with the flag o.
fn badword(alloc: Global, call: &Call, view: &View<'_>) -> Result<Actions, NoMemory>
    ensures { IfOk result (λ actions. actions ≡ badword call.now view.now) }
{
    if is_op(call, view) || has_o(call, view) {
        return Ok(Actions::empty(alloc));
    }
    match second_after(view, 600) {
        Some(end) => banned_until(alloc, call, end),
        None => Ok(Actions::empty(alloc)),
    }
}

// Kicks that person, and bans them until the second `end`.
fn banned_until(alloc: Global, call: &Call, end: u64) -> Result<Actions, NoMemory>
    ensures { IfOk result (λ actions. actions ≡ banned_until (Some end) call.now) }
{
    let (channel, nick) = (channel_of(call), nick_of(call));
    let mask = mask_of(alloc, call)?;
    let mask = mask.as_bytes();
    let bans = ban(alloc, channel, mask, end, b"mind your words")?;
    let sets = put(alloc, Queue::Mode, &[b"MODE ", channel, b" +b ", mask])?;
    let kick = put(
        alloc,
        Queue::Mode,
        &[b"KICK ", channel, b" ", nick, b" :mind your words"],
    )?;
    let lifts = put_after(alloc, 600, &[b"MODE ", channel, b" -b ", mask])?;
    Ok(these(vec![in alloc; bans, sets, kick, lifts]?))
}

// Says the info line of a member who joins, if there is one and the member isn't the bot.
fn greet(alloc: Global, call: &Call, view: &View<'_>) -> Result<Actions, NoMemory>
    ensures { IfOk result (λ actions. actions ≡ greet call.now view.now) }
{
    let (channel, nick) = (channel_of(call), nick_of(call));
    let info = view.userfile().info_of(handle_of(call));
    if info.is_empty() || nick == view.channels().own_nick() {
        return Ok(Actions::empty(alloc));
    }
    let says = put(
        alloc,
        Queue::Help,
        &[b"PRIVMSG ", channel, b" :[", nick, b"] ", info],
    )?;
    Ok(these(vec![in alloc; says]?))
}
