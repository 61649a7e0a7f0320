// The procs that keep a channel when somebody changes its modes.
ghost use Rattle.std.specs.Prelude.{◌≡◌, take, IfOk};
ghost use Rattle.std.specs.List.{filter_map};
ghost use Rattle.procs.specs.declared.limits.TheConstants.{MAX_ACTIONS};
ghost use Rattle.eggprocs.specs.Keeping.{is_change_here, is_by_bot, is_by_server, is_by_trusted, is_change_by_others, is_change_by_untrusted};
ghost use Rattle.eggprocs.specs.Keeping.{mode_back, flags_named, names_bot, names_caller, takes_op, gives_op};
ghost use Rattle.eggprocs.specs.Keeping.{is_hit, is_self, is_spared, kick_for};
ghost use Rattle.eggprocs.specs.Keeping.{asked_by_protectops, asked_by_bitch, asked_by_enforcebans};

use crate::args::{channel_of, mode_argument, nick_of};
use crate::channel::one_line;
use crate::everyone::{address_of, flags_of_member, is_own_nick, push_if_room};
use crate::lines::{kick, mode};
use crate::rights::{flags_by, has_bot, has_master, has_op, is_bot_op, is_change, is_protected};
use bytetext::NoMemory;
use chanstate::Member;
use outqueue::Queue;
use procs::{Action, Actions, Call, PutWish, View};
use rfccase::same_by;
use std::alloc::Global;
use userfile::{Hostmask, PersonFlags, is_hostmask};

// What `protectops` requests: op again for an operator by the userfile, if somebody takes it.
pub(crate) fn asked_by_protectops(
    alloc: Global,
    call: &Call,
    view: &View<'_>,
) -> Result<Actions, NoMemory>
    ensures { IfOk result (λ actions. actions ≡ asked_by_protectops call.now view.now) }
{
    if !takes_op(call, view) {
        return Ok(Actions::empty(alloc));
    }
    match flags_named(alloc, call, view)? {
        Some(flags) if has_op(&flags) => mode_back(alloc, b"+o", call),
        Some(_) | None => Ok(Actions::empty(alloc)),
    }
}

// What `bitch` requests: the end of op for a member who is neither an operator nor a bot by the userfile, if somebody
// gives it.
pub(crate) fn asked_by_bitch(
    alloc: Global,
    call: &Call,
    view: &View<'_>,
) -> Result<Actions, NoMemory>
    ensures { IfOk result (λ actions. actions ≡ asked_by_bitch call.now view.now) }
{
    if !gives_op(call, view) {
        return Ok(Actions::empty(alloc));
    }
    match flags_named(alloc, call, view)? {
        Some(flags) if !(has_op(&flags) || has_bot(&flags)) => mode_back(alloc, b"-o", call),
        Some(_) | None => Ok(Actions::empty(alloc)),
    }
}

// What `enforcebans` requests: kicks of the first members whom a ban's mask matches.
pub(crate) fn asked_by_enforcebans(
    alloc: Global,
    call: &Call,
    view: &View<'_>,
) -> Result<Actions, NoMemory>
    ensures { IfOk result (λ actions. actions ≡ asked_by_enforcebans call.now view.now) }
{
    if !(is_change_here(b"+b", call, view) && is_hostmask(mode_argument(call))) {
        return Ok(Actions::empty(alloc));
    }
    let mask = hostmask(alloc, mode_argument(call))?;
    let members = view.channels().members(alloc, channel_of(call))?;
    kicks_for(alloc, &mask, call, view, members.as_slice())
}

// Whether a call is for this change on a channel on which the bot is an operator.
pub(crate) fn is_change_here(change: &[u8], call: &Call, view: &View<'_>) -> bool
    ensures { result ≡ is_change_here change.now call.now view.now }
{
    is_change(change, call) && is_bot_op(call, view)
}

// Whether the bot itself made the change.
pub(crate) fn is_by_bot(call: &Call, view: &View<'_>) -> bool
    ensures { result ≡ is_by_bot call.now view.now }
{
    is_own_nick(view, nick_of(call))
}

// Whether a server made the change. A server has no nick.
fn is_by_server(call: &Call) -> bool
    ensures { result ≡ is_by_server call.now }
{
    nick_of(call).is_empty()
}

// Whether a master or a bot by the userfile made the change.
pub(crate) fn is_by_trusted(call: &Call, view: &View<'_>) -> bool
    ensures { result ≡ is_by_trusted call.now view.now }
{
    let flags = flags_by(call, view);
    has_master(&flags) || has_bot(&flags)
}

// Whether a call is for this change, made by anybody but the bot itself.
pub(crate) fn is_change_by_others(change: &[u8], call: &Call, view: &View<'_>) -> bool
    ensures { result ≡ is_change_by_others change.now call.now view.now }
{
    is_change_here(change, call, view) && !is_by_bot(call, view)
}

// Whether a call is for this change, made by anybody but the bot itself, masters and other bots.
pub(crate) fn is_change_by_untrusted(change: &[u8], call: &Call, view: &View<'_>) -> bool
    ensures { result ≡ is_change_by_untrusted change.now call.now view.now }
{
    is_change_by_others(change, call, view) && !is_by_trusted(call, view)
}

// The mode with the argument that the change has, and no other action.
pub(crate) fn mode_back(alloc: Global, change: &[u8], call: &Call) -> Result<Actions, NoMemory>
    ensures { IfOk result (λ actions. actions ≡ mode_back change.now call.now) }
{
    let line = mode(alloc, channel_of(call), change, mode_argument(call))?;
    one_line(alloc, Queue::Mode, line)
}

// Whether the change names the bot.
pub(crate) fn names_bot(call: &Call, view: &View<'_>) -> bool
    ensures { result ≡ names_bot call.now view.now }
{
    is_own_nick(view, mode_argument(call))
}

// Whether the change names the person who makes it.
fn names_caller(call: &Call, view: &View<'_>) -> bool
    ensures { result ≡ names_caller call.now view.now }
{
    same_by(
        view.channels().casemapping(),
        mode_argument(call),
        nick_of(call),
    )
}

// Whether somebody who is no master and no bot takes op from another person, who is not the bot itself.
fn takes_op(call: &Call, view: &View<'_>) -> bool
    ensures { result ≡ takes_op call.now view.now }
{
    is_change_by_untrusted(b"-o", call, view) && !names_bot(call, view) && !names_caller(call, view)
}

// Whether a person who is no master and no bot gives op to somebody, who is not the bot itself.
fn gives_op(call: &Call, view: &View<'_>) -> bool
    ensures { result ≡ gives_op call.now view.now }
{
    is_change_by_untrusted(b"+o", call, view) && !is_by_server(call) && !names_bot(call, view)
}

// The flags of the member whom the change names, if there is such a member.
fn flags_named(alloc: Global, call: &Call, view: &View<'_>) -> Result<Option<PersonFlags>, NoMemory>
    ensures { IfOk result (λ flags. flags ≡ flags_named call.now view.now) }
{
    match view
        .channels()
        .member(channel_of(call), mode_argument(call))
    {
        Some(member) => Ok(Some(flags_of_member(alloc, call, view, member)?)),
        None => Ok(None),
    }
}

// The hostmask of a text that is one, so that only memory can be lacking.
pub(crate) fn hostmask(alloc: Global, text: &[u8]) -> Result<Hostmask, NoMemory>
    ensures { IfOk result (λ mask. mask ≡ text.now) }
{
    match Hostmask::new(alloc, text) {
        Ok(mask) => Ok(mask),
        Err(_) => Err(NoMemory),
    }
}

// Whether a ban's mask matches a member.
pub(crate) fn is_hit(
    alloc: Global,
    mask: &Hostmask,
    view: &View<'_>,
    member: &Member,
) -> Result<bool, NoMemory>
    ensures { IfOk result (λ hit. hit ≡ is_hit mask.now view.now member.now) }
{
    let who = address_of(alloc, member)?;
    Ok(mask.matches(view.channels().casemapping(), who.as_bytes()))
}

// Whether a member is the bot itself.
pub(crate) fn is_self(view: &View<'_>, member: &Member) -> bool
    ensures { result ≡ is_self view.now member.now }
{
    is_own_nick(view, member.nick.as_bytes())
}

// Whether bans spare a member: the bot itself, and an operator or friend by the userfile.
pub(crate) fn is_spared(
    alloc: Global,
    call: &Call,
    view: &View<'_>,
    member: &Member,
) -> Result<bool, NoMemory>
    ensures { IfOk result (λ spared. spared ≡ is_spared call.now view.now member.now) }
{
    if is_self(view, member) {
        return Ok(true);
    }
    let flags = flags_of_member(alloc, call, view, member)?;
    Ok(is_protected(&flags))
}

// Kicks of the first members whom a ban's mask matches and whom bans don't spare.
fn kicks_for(
    alloc: Global,
    mask: &Hostmask,
    call: &Call,
    view: &View<'_>,
    members: &[Member],
) -> Result<Actions, NoMemory>
    ensures { IfOk result (λ actions. actions ≡ take MAX_ACTIONS (filter_map (kick_for mask.now call.now view.now) members.now)) }
{
    let mut actions = Actions::empty(alloc);
    for member in members {
        let wish = kick_for(alloc, mask, call, view, member)?;
        push_if_room(&mut actions, wish)?;
    }
    Ok(actions)
}

// A kick of a member whom the mask matches, unless bans spare that member.
fn kick_for(
    alloc: Global,
    mask: &Hostmask,
    call: &Call,
    view: &View<'_>,
    member: &Member,
) -> Result<Option<Action>, NoMemory>
    ensures { IfOk result (λ wish. wish ≡ kick_for mask.now call.now view.now member.now) }
{
    if !is_hit(alloc, mask, view, member)? {
        return Ok(None);
    }
    if is_spared(alloc, call, view, member)? {
        return Ok(None);
    }
    let line = kick(alloc, channel_of(call), member.nick.as_bytes(), b"banned")?;
    let queue = Queue::Mode;
    Ok(Some(Action::Put(PutWish { queue, line })))
}
