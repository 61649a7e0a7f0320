// Which bot of a net comes first on a channel.
ghost use Rattle.std.specs.Prelude.{◌≡◌, IfOk};
ghost use Rattle.std.specs.List.{count_by};
ghost use Rattle.eggprocs.specs.Hands.{is_hand, is_hand_itself, comes_before, is_ahead, rank};

use crate::args::channel_of;
use crate::everyone::flags_of_member;
use crate::rights::has_bot;
use bytetext::NoMemory;
use chanstate::Member;
use procs::{Call, View};
use rfccase::{Casemapping, FoldKey};
use std::alloc::Global;

// How many hands come before the bot itself. None if the bot is no hand.
pub(crate) fn rank(
    alloc: Global,
    needs_op: bool,
    call: &Call,
    view: &View<'_>,
) -> Result<usize, NoMemory>
    ensures { IfOk result (λ count. count ≡ rank needs_op call.now view.now) }
{
    if !is_hand_itself(alloc, needs_op, call, view)? {
        return Ok(0);
    }
    let members = view.channels().members(alloc, channel_of(call))?;
    count_ahead(alloc, needs_op, call, view, members.as_slice())
}

// Whether the bot itself is a hand on the call's channel.
pub(crate) fn is_hand_itself(
    alloc: Global,
    needs_op: bool,
    call: &Call,
    view: &View<'_>,
) -> Result<bool, NoMemory>
    ensures { IfOk result (λ hand. hand ≡ is_hand_itself needs_op call.now view.now) }
{
    let channels = view.channels();
    match channels.member(channel_of(call), channels.own_nick()) {
        Some(member) => is_hand(alloc, needs_op, call, view, member),
        None => Ok(false),
    }
}

// How many of these members are hands that come before the bot's own nick.
fn count_ahead(
    alloc: Global,
    needs_op: bool,
    call: &Call,
    view: &View<'_>,
    members: &[Member],
) -> Result<usize, NoMemory>
    ensures { IfOk result (λ count. count ≡ count_by (is_ahead needs_op call.now view.now view.now.sight.channels.nick) members.now) }
{
    let mut count = 0;
    for member in members {
        if is_ahead(alloc, needs_op, call, view, member)? {
            count += 1;
        }
    }
    Ok(count)
}

// Whether a member is a hand that comes before the bot's own nick.
fn is_ahead(
    alloc: Global,
    needs_op: bool,
    call: &Call,
    view: &View<'_>,
    member: &Member,
) -> Result<bool, NoMemory>
    ensures { IfOk result (λ ahead. ahead ≡ is_ahead needs_op call.now view.now view.now.sight.channels.nick member.now) }
{
    let mapping = view.channels().casemapping();
    if !comes_before(
        alloc,
        mapping,
        member.nick.as_bytes(),
        view.channels().own_nick(),
    )? {
        return Ok(false);
    }
    is_hand(alloc, needs_op, call, view, member)
}

// Whether a member is a bot by the userfile, and op if only operators count.
pub(crate) fn is_hand(
    alloc: Global,
    needs_op: bool,
    call: &Call,
    view: &View<'_>,
    member: &Member,
) -> Result<bool, NoMemory>
    ensures { IfOk result (λ hand. hand ≡ is_hand needs_op call.now view.now member.now) }
{
    let counts = !needs_op || member.op;
    if !counts {
        return Ok(false);
    }
    let flags = flags_of_member(alloc, call, view, member)?;
    Ok(has_bot(&flags))
}

// Whether a nick comes before another, by their lower cases as lists of bytes.
pub(crate) fn comes_before(
    alloc: Global,
    mapping: Casemapping,
    nick: &[u8],
    other: &[u8],
) -> Result<bool, NoMemory>
    ensures { IfOk result (λ before. before ≡ comes_before mapping nick.now other.now) }
{
    let nick = FoldKey::by(alloc, mapping, nick)?;
    let other = FoldKey::by(alloc, mapping, other)?;
    Ok(nick < other)
}
