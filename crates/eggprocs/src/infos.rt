// The procs of info lines.
ghost use Rattle.std.specs.Prelude.{◌≡◌, IfOk};
ghost use Rattle.eggprocs.specs.Infos.{info_by, info_in, set_by, asked_by_known, asked_by_info, greeting, asked_by_greet};

use crate::args::{channel_of, handle_of, nick_of, or_else, told_of};
use crate::lines::privmsg;
use crate::people::{asked_for, only_told};
use crate::rights::{is_join, is_msg};
use bytetext::{NoMemory, Text};
use outqueue::Queue;
use procs::{Action, Actions, Call, PutWish, View};
use std::alloc::Global;
use userfile::Edit;

// The info line of the caller.
fn info_by<'a>(call: &Call, view: &'a View<'_>) -> &'a [u8]
    ensures { result.now ≡ info_by call.now view.now }
{
    view.userfile().info_of(handle_of(call))
}

// The info line that a text means.
fn info_in(text: &[u8]) -> &[u8]
    ensures { result.now ≡ info_in text.now }
{
    if text == b"none".as_slice() {
        b""
    } else {
        text
    }
}

// The edit that a text means: of the caller's info line.
fn set_by(alloc: Global, call: &Call) -> Result<Edit, NoMemory>
    ensures { IfOk result (λ edit. edit ≡ set_by call.now) }
{
    let handle = Text::from_slice(alloc, handle_of(call))?;
    let info = Text::from_slice(alloc, info_in(told_of(call)))?;
    Ok(Edit::SetInfo { handle, info })
}

// What `info` requests: a NOTICE with the caller's info line, or the edit that the text means.
pub(crate) fn asked_by_info(
    alloc: Global,
    call: &Call,
    view: &View<'_>,
) -> Result<Actions, NoMemory>
    ensures { IfOk result (λ actions. actions ≡ asked_by_info call.now view.now) }
{
    if !is_msg(call.kind) {
        return Ok(Actions::empty(alloc));
    }
    match view.userfile().user(handle_of(call)) {
        Some(_) => asked_by_known(alloc, call, view),
        None => only_told(alloc, call, b"you are not known here"),
    }
}

// The same for a caller whom the userfile knows.
fn asked_by_known(alloc: Global, call: &Call, view: &View<'_>) -> Result<Actions, NoMemory>
    ensures { IfOk result (λ actions. actions ≡ asked_by_known call.now view.now) }
{
    if told_of(call).is_empty() {
        let info = or_else(info_by(call, view), b"you have no info line");
        return only_told(alloc, call, info);
    }
    let edit = set_by(alloc, call)?;
    asked_for(alloc, call, view, edit)
}

// [NICK] TEXT
fn greeting(alloc: Global, nick: &[u8], info: &[u8]) -> Result<Text, NoMemory>
    ensures { IfOk result (λ text. text ≡ greeting nick.now info.now) }
{
    let mut text = Vec::from_slice(alloc, b"[")?;
    text.extend_from_slice(nick)?;
    text.extend_from_slice(b"] ")?;
    text.extend_from_slice(info)?;
    Ok(Text::new(text))
}

// What `greet` requests: that the bot says on the channel the info line of the person who joins, if there is one.
pub(crate) fn asked_by_greet(
    alloc: Global,
    call: &Call,
    view: &View<'_>,
) -> Result<Actions, NoMemory>
    ensures { IfOk result (λ actions. actions ≡ asked_by_greet call.now view.now) }
{
    let info = info_by(call, view);
    if !is_join(call.kind) || info.is_empty() {
        return Ok(Actions::empty(alloc));
    }
    let text = greeting(alloc, nick_of(call), info)?;
    let line = privmsg(alloc, channel_of(call), text.as_bytes())?;
    let queue = Queue::Help;
    Actions::one(alloc, Action::Put(PutWish { queue, line }))
}
