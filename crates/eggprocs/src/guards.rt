// The proc that removes bans on bots, operators and friends, and which of the bots does it.
ghost use Rattle.std.specs.Prelude.{◌≡◌, IfOk};
ghost use Rattle.std.specs.List.{list_any};
ghost use Rattle.chanstate.specs.Views.{members_in};
ghost use Rattle.eggprocs.specs.Args.{channel_of};
ghost use Rattle.eggprocs.specs.Guards.{is_guarded, hits_guarded, is_setter, is_hit_hand, may_remove, may_remove_itself, is_before, is_remover, removes};
ghost use Rattle.eggprocs.specs.Guards.{ban_undone, asked_by_guard};

use crate::args::{channel_of, mode_argument, nick_of};
use crate::hands::{comes_before, is_hand, is_hand_itself};
use crate::keeping::{
    hostmask, is_by_trusted, is_change_by_others, is_hit, is_self, is_spared, mode_back,
};
use bytetext::NoMemory;
use chanstate::Member;
use procs::{Actions, Call, View};
use rfccase::same_by;
use std::alloc::Global;
use userfile::{Hostmask, is_hostmask};

// What `guard` requests: the end of a ban that somebody else sets, if its mask matches a member whom `guard` guards.
pub(crate) fn asked_by_guard(
    alloc: Global,
    call: &Call,
    view: &View<'_>,
) -> Result<Actions, NoMemory>
    ensures { IfOk result (λ actions. actions ≡ asked_by_guard call.now view.now) }
{
    if !(is_change_by_others(b"+b", call, view) && is_hostmask(mode_argument(call))) {
        return Ok(Actions::empty(alloc));
    }
    let mask = hostmask(alloc, mode_argument(call))?;
    let members = view.channels().members(alloc, channel_of(call))?;
    if hits_any_guarded(alloc, &mask, call, view, members.as_slice())? {
        ban_undone(alloc, &mask, call, view, members.as_slice())
    } else {
        Ok(Actions::empty(alloc))
    }
}

// Whether a ban's mask matches any member of these whom `guard` guards.
fn hits_any_guarded(
    alloc: Global,
    mask: &Hostmask,
    call: &Call,
    view: &View<'_>,
    members: &[Member],
) -> Result<bool, NoMemory>
    ensures { IfOk result (λ hits. hits ≡ list_any (hits_guarded mask.now call.now view.now) members.now) }
{
    for member in members {
        if hits_guarded(alloc, mask, call, view, member)? {
            return Ok(true);
        }
    }
    Ok(false)
}

// Whether a ban's mask matches a member whom `guard` guards.
fn hits_guarded(
    alloc: Global,
    mask: &Hostmask,
    call: &Call,
    view: &View<'_>,
    member: &Member,
) -> Result<bool, NoMemory>
    ensures { IfOk result (λ hits. hits ≡ hits_guarded mask.now call.now view.now member.now) }
{
    if !is_hit(alloc, mask, view, member)? {
        return Ok(false);
    }
    is_guarded(alloc, call, view, member)
}

// Whether `guard` takes off a ban that hits a member: one whom bans spare, but only the bot itself if a master or
// another bot sets the ban.
fn is_guarded(
    alloc: Global,
    call: &Call,
    view: &View<'_>,
    member: &Member,
) -> Result<bool, NoMemory>
    ensures { IfOk result (λ guarded. guarded ≡ is_guarded call.now view.now member.now) }
{
    if is_by_trusted(call, view) {
        Ok(is_self(view, member))
    } else {
        is_spared(alloc, call, view, member)
    }
}

// The end of a ban, if it is this bot that removes it from a channel of these members.
fn ban_undone(
    alloc: Global,
    mask: &Hostmask,
    call: &Call,
    view: &View<'_>,
    members: &[Member],
) -> Result<Actions, NoMemory>
    requires { members.now ≡ members_in (channel_of call.now) view.now.sight.channels }
    ensures { IfOk result (λ actions. actions ≡ ban_undone mask.now call.now view.now) }
{
    if removes(alloc, mask, call, view, members)? {
        mode_back(alloc, b"-b", call)
    } else {
        Ok(Actions::empty(alloc))
    }
}

// Whether the bot itself removes a ban from a channel of these members.
fn removes(
    alloc: Global,
    mask: &Hostmask,
    call: &Call,
    view: &View<'_>,
    members: &[Member],
) -> Result<bool, NoMemory>
    requires { members.now ≡ members_in (channel_of call.now) view.now.sight.channels }
    ensures { IfOk result (λ first. first ≡ removes mask.now call.now view.now) }
{
    if !is_hand_itself(alloc, true, call, view)? {
        return Ok(true);
    }
    let hits = any_hit_hand(alloc, mask, call, view, members)?;
    is_remover(alloc, hits, mask, call, view, members)
}

// Whether the bot itself is the first of those that may remove the ban, on a channel of these members.
fn is_remover(
    alloc: Global,
    hits: bool,
    mask: &Hostmask,
    call: &Call,
    view: &View<'_>,
    members: &[Member],
) -> Result<bool, NoMemory>
    requires { members.now ≡ members_in (channel_of call.now) view.now.sight.channels }
    ensures { IfOk result (λ first. first ≡ is_remover hits mask.now call.now view.now) }
{
    if !may_remove_itself(alloc, hits, mask, call, view)? {
        return Ok(false);
    }
    let ahead = any_before(alloc, hits, mask, call, view, members)?;
    Ok(!ahead)
}

// Whether the bot itself is one of those of which the first removes the ban.
fn may_remove_itself(
    alloc: Global,
    hits: bool,
    mask: &Hostmask,
    call: &Call,
    view: &View<'_>,
) -> Result<bool, NoMemory>
    ensures { IfOk result (λ may. may ≡ may_remove_itself hits mask.now call.now view.now) }
{
    let channels = view.channels();
    match channels.member(channel_of(call), channels.own_nick()) {
        Some(member) => may_remove(alloc, hits, mask, call, view, member),
        None => Ok(false),
    }
}

// Whether any of these members may remove the ban and comes before the bot's own nick.
fn any_before(
    alloc: Global,
    hits: bool,
    mask: &Hostmask,
    call: &Call,
    view: &View<'_>,
    members: &[Member],
) -> Result<bool, NoMemory>
    ensures { IfOk result (λ some. some ≡ list_any (is_before hits mask.now call.now view.now view.now.sight.channels.nick) members.now) }
{
    for member in members {
        if is_before(alloc, hits, mask, call, view, member)? {
            return Ok(true);
        }
    }
    Ok(false)
}

// Whether a member may remove the ban and comes before the bot's own nick.
fn is_before(
    alloc: Global,
    hits: bool,
    mask: &Hostmask,
    call: &Call,
    view: &View<'_>,
    member: &Member,
) -> Result<bool, NoMemory>
    ensures { IfOk result (λ before. before ≡ is_before hits mask.now call.now view.now view.now.sight.channels.nick member.now) }
{
    let channels = view.channels();
    let nick = member.nick.as_bytes();
    if !comes_before(alloc, channels.casemapping(), nick, channels.own_nick())? {
        return Ok(false);
    }
    may_remove(alloc, hits, mask, call, view, member)
}

// Whether a member is one of the bots of which the first removes the ban: those that it hits if it hits any, else all.
fn may_remove(
    alloc: Global,
    hits: bool,
    mask: &Hostmask,
    call: &Call,
    view: &View<'_>,
    member: &Member,
) -> Result<bool, NoMemory>
    ensures { IfOk result (λ may. may ≡ may_remove hits mask.now call.now view.now member.now) }
{
    if hits {
        is_hit_hand(alloc, mask, call, view, member)
    } else {
        is_hand(alloc, true, call, view, member)
    }
}

// Whether a ban's mask matches any bot of the net among these members, other than the one that sets the ban.
fn any_hit_hand(
    alloc: Global,
    mask: &Hostmask,
    call: &Call,
    view: &View<'_>,
    members: &[Member],
) -> Result<bool, NoMemory>
    ensures { IfOk result (λ hits. hits ≡ list_any (is_hit_hand mask.now call.now view.now) members.now) }
{
    for member in members {
        if is_hit_hand(alloc, mask, call, view, member)? {
            return Ok(true);
        }
    }
    Ok(false)
}

// Whether a ban's mask matches a bot of the net that is op, other than the one that sets the ban.
fn is_hit_hand(
    alloc: Global,
    mask: &Hostmask,
    call: &Call,
    view: &View<'_>,
    member: &Member,
) -> Result<bool, NoMemory>
    ensures { IfOk result (λ hit. hit ≡ is_hit_hand mask.now call.now view.now member.now) }
{
    if is_setter(call, view, member) || !is_hit(alloc, mask, view, member)? {
        return Ok(false);
    }
    is_hand(alloc, true, call, view, member)
}

// Whether a member sets the ban.
fn is_setter(call: &Call, view: &View<'_>, member: &Member) -> bool
    ensures { result ≡ is_setter call.now view.now member.now }
{
    same_by(
        view.channels().casemapping(),
        nick_of(call),
        member.nick.as_bytes(),
    )
}
