// The proc that gives op and voice to the members of a channel when the bot gets op there.
ghost use Rattle.std.specs.Prelude.{◌≡◌, ◌<◌, ◌≤◌, ◌++◌, length, take, IfOk, OnOk};
ghost use Rattle.std.specs.List.{filter_map};
ghost use Rattle.std.specs.Option.{option_copied, option_to_list};
ghost use Rattle.procs.specs.declared.limits.TheConstants.{MAX_ACTIONS};
ghost use Rattle.eggprocs.specs.Everyone.{is_own_nick, is_own_join, gives_bot_op, address_of, flags_of_member, is_left, change_lacked, change_of, mode_for, asked_by_opall};

use crate::args::{channel_of, mode_argument, nick_of};
use crate::channel::one_line;
use crate::lines::{mode, who};
use crate::rights::{AUTO_OP, AUTO_VOICE, has_flag, is_change, is_join};
use bytetext::{Failure, NoMemory, Text};
use chanstate::Member;
use outqueue::Queue;
use procs::{Action, Actions, ActionsFault, Call, PutWish, View, handle_by};
use rfccase::same_by;
use std::alloc::Global;
use userfile::PersonFlags;

// What `opall` requests: a list of the members when the bot joins a channel, and modes for them when it gets op.
pub(crate) fn asked_by_opall(
    alloc: Global,
    call: &Call,
    view: &View<'_>,
) -> Result<Actions, NoMemory>
    ensures { IfOk result (λ actions. actions ≡ asked_by_opall call.now view.now) }
{
    if is_own_join(call, view) {
        let line = who(alloc, channel_of(call))?;
        return one_line(alloc, Queue::Server, line);
    }
    if !gives_bot_op(call, view) {
        return Ok(Actions::empty(alloc));
    }
    let members = view.channels().members(alloc, channel_of(call))?;
    modes_for(alloc, call, view, members.as_slice())
}

// Whether a nick is the bot's own, by the casemapping of its server.
pub(crate) fn is_own_nick(view: &View<'_>, nick: &[u8]) -> bool
    ensures { result ≡ is_own_nick view.now nick.now }
{
    same_by(
        view.channels().casemapping(),
        nick,
        view.channels().own_nick(),
    )
}

// Whether the bot itself joins.
pub(crate) fn is_own_join(call: &Call, view: &View<'_>) -> bool
    ensures { result ≡ is_own_join call.now view.now }
{
    is_join(call.kind) && is_own_nick(view, nick_of(call))
}

// Whether a mode gives op to the bot itself.
fn gives_bot_op(call: &Call, view: &View<'_>) -> bool
    ensures { result ≡ gives_bot_op call.now view.now }
{
    is_change(b"+o", call) && is_own_nick(view, mode_argument(call))
}

// Modes for the first members that lack one.
fn modes_for(
    alloc: Global,
    call: &Call,
    view: &View<'_>,
    members: &[Member],
) -> Result<Actions, NoMemory>
    ensures { IfOk result (λ actions. actions ≡ take MAX_ACTIONS (filter_map (mode_for call.now view.now) members.now)) }
{
    let mut actions = Actions::empty(alloc);
    for member in members {
        let wish = mode_for(alloc, call, view, member)?;
        push_if_room(&mut actions, wish)?;
    }
    Ok(actions)
}

// Appends an action, if there is one and the list has fewer than eight.
pub(crate) fn push_if_room(actions: &mut Actions, wish: Option<Action>) -> Result<(), NoMemory>
    ensures room { OnOk result (length actions.old < MAX_ACTIONS → actions.new ≡ actions.old ++ option_to_list wish) }
    ensures full { OnOk result (MAX_ACTIONS ≤ length actions.old → actions.new ≡ actions.old) }
{
    let Some(action) = wish else { return Ok(()) };
    match actions.push(action) {
        Ok(()) | Err(Failure::Refused(ActionsFault::TooMany)) => Ok(()),
        Err(Failure::NoMemory) => Err(NoMemory),
    }
}

// The mode that gives a member what it lacks.
fn mode_for(
    alloc: Global,
    call: &Call,
    view: &View<'_>,
    member: &Member,
) -> Result<Option<Action>, NoMemory>
    ensures { IfOk result (λ wish. wish ≡ mode_for call.now view.now member.now) }
{
    let Some(change) = change_of(alloc, call, view, member)? else {
        return Ok(None);
    };
    let line = mode(alloc, channel_of(call), change, member.nick.as_bytes())?;
    let queue = Queue::Mode;
    Ok(Some(Action::Put(PutWish { queue, line })))
}

// The change of mode for a member, if any.
fn change_of(
    alloc: Global,
    call: &Call,
    view: &View<'_>,
    member: &Member,
) -> Result<Option<&'static [u8]>, NoMemory>
    ensures { IfOk result (λ change. option_copied change ≡ change_of call.now view.now member.now) }
{
    if is_left(view, member) {
        return Ok(None);
    }
    let flags = flags_of_member(alloc, call, view, member)?;
    Ok(change_lacked(member.voice, &flags))
}

// Whether a member gets no mode: it is the bot itself, or an operator already.
fn is_left(view: &View<'_>, member: &Member) -> bool
    ensures { result ≡ is_left view.now member.now }
{
    member.op || is_own_nick(view, member.nick.as_bytes())
}

// The flags of a member, with those on the call's channel. An account says who the member is before nick!user@host does.
pub(crate) fn flags_of_member(
    alloc: Global,
    call: &Call,
    view: &View<'_>,
    member: &Member,
) -> Result<PersonFlags, NoMemory>
    ensures { IfOk result (λ flags. flags ≡ flags_of_member call.now view.now member.now) }
{
    let who = address_of(alloc, member)?;
    let userfile = view.userfile();
    let mapping = view.channels().casemapping();
    let handle = handle_by(userfile, mapping, member.account.as_bytes(), who.as_bytes());
    Ok(userfile.flags_of(handle, channel_of(call)))
}

// A member as nick!user@host.
pub(crate) fn address_of(alloc: Global, member: &Member) -> Result<Text, NoMemory>
    ensures { IfOk result (λ who. who ≡ address_of member.now) }
{
    let mut who = Vec::from_slice(alloc, member.nick.as_bytes())?;
    who.extend_from_slice(b"!")?;
    who.extend_from_slice(member.user.as_bytes())?;
    who.extend_from_slice(b"@")?;
    who.extend_from_slice(member.host.as_bytes())?;
    Ok(Text::new(who))
}

// Op for the flag a, else voice for the flag g unless the member has it.
fn change_lacked(voiced: bool, flags: &PersonFlags) -> Option<&'static [u8]>
    ensures { option_copied result ≡ change_lacked voiced flags.now }
{
    if has_flag(AUTO_OP, flags) {
        Some(b"+o")
    } else if has_flag(AUTO_VOICE, flags) && !voiced {
        Some(b"+v")
    } else {
        None
    }
}
