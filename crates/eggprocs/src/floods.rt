// The proc that kicks who floods.
ghost use Rattle.std.specs.Prelude.{◌≡◌, ◌++◌, List, take, IfOk};
ghost use Rattle.std.specs.List.{filter_map, flat_map, list_any};
ghost use Rattle.procs.specs.declared.limits.TheConstants.{MAX_ACTIONS};
ghost use Rattle.eggprocs.specs.Args.{channel_of};
ghost use Rattle.chanstate.specs.Views.{members_in};
ghost use Rattle.eggprocs.specs.Floods.{is_flood, flooder_of, flood_place, flood_kind, is_nowhere, is_of_joins, is_of_nicks, is_flooder, flood_reason, flood_mask};
ghost use Rattle.eggprocs.specs.Floods.{flood_kick, flood_kicks, is_spared_flooder, spares_address, is_banned, flood_ban, flood_lines, flood_on, floods_all, flood_nowhere, asked_by_kickfloods};

use crate::args::{arg_at, channel_of};
use crate::ctcp::{command_of, is_raw, without_colon};
use crate::duties::Duty;
use crate::ends::call_on;
use crate::everyone::push_if_room;
use crate::keeping::is_spared;
use crate::lines::{kick, mode};
use crate::rights::is_op_of;
use crate::turns::share_out;
use bytetext::{NoMemory, Text, after_word, first_word};
use chanstate::Member;
use outqueue::Queue;
use procs::{Action, Actions, Call, MAX_ACTIONS, PutWish, View};
use rfccase::{Casemapping, same_by};
use std::alloc::Global;

// What `kickfloods` requests: kicks of the members who have the address of somebody who floods.
pub(crate) fn asked_by_kickfloods(
    alloc: Global,
    call: &Call,
    view: &View<'_>,
) -> Result<Actions, NoMemory>
    ensures { IfOk result (λ actions. actions ≡ asked_by_kickfloods call.now view.now) }
{
    if !is_flood(call) {
        return Ok(Actions::empty(alloc));
    }
    if is_nowhere(call) {
        return flood_nowhere(alloc, call, view);
    }
    let actions = flood_on(alloc, flood_place(call), call, view)?;
    Ok(actions)
}

// Whether a call is for the line of a flood.
fn is_flood(call: &Call) -> bool
    ensures { result ≡ is_flood call.now }
{
    is_raw(call.kind) && command_of(call) == b"FLOOD".as_slice()
}

// The address of the person who floods, as user@host.
fn flooder_of(call: &Call) -> &[u8]
    ensures { result.now ≡ flooder_of call.now }
{
    first_word(arg_at(call.args.as_slice(), 2))
}

// The channel of the flood, or * for none.
fn flood_place(call: &Call) -> &[u8]
    ensures { result.now ≡ flood_place call.now }
{
    first_word(after_word(arg_at(call.args.as_slice(), 2)))
}

// Of what the flood is, in words.
fn flood_kind(call: &Call) -> &[u8]
    ensures { result.now ≡ flood_kind call.now }
{
    without_colon(after_word(after_word(arg_at(call.args.as_slice(), 2))))
}

// Whether the flood is on no channel.
fn is_nowhere(call: &Call) -> bool
    ensures { result ≡ is_nowhere call.now }
{
    flood_place(call) == b"*".as_slice()
}

// Whether the flood is one of joins.
fn is_of_joins(call: &Call) -> bool
    ensures { result ≡ is_of_joins call.now }
{
    flood_kind(call) == b"joins".as_slice()
}

// Whether the flood is one of changes of the nick.
fn is_of_nicks(call: &Call) -> bool
    ensures { result ≡ is_of_nicks call.now }
{
    flood_kind(call) == b"nick changes".as_slice()
}

// What is requested for a flood on no channel.
fn flood_nowhere(alloc: Global, call: &Call, view: &View<'_>) -> Result<Actions, NoMemory>
    ensures { IfOk result (λ actions. actions ≡ flood_nowhere call.now view.now) }
{
    if !is_of_nicks(call) {
        return Ok(Actions::empty(alloc));
    }
    let actions = floods_all(alloc, call, view)?;
    Ok(actions)
}

// What is requested on all channels of the bot, as much as an answer has room for.
fn floods_all(alloc: Global, call: &Call, view: &View<'_>) -> Result<Actions, NoMemory>
    ensures { IfOk result (λ actions. actions ≡ floods_all call.now view.now) }
{
    let channels = view.channels();
    let names = channels.channels_of(alloc, channels.own_nick())?;
    let actions = floods_on(alloc, names.as_slice(), call, view)?;
    Ok(actions)
}

// What is requested on these channels, as much as an answer has room for.
fn floods_on(
    alloc: Global,
    names: &[Text],
    call: &Call,
    view: &View<'_>,
) -> Result<Actions, NoMemory>
    ensures { IfOk result (λ actions. actions ≡ take MAX_ACTIONS (flat_map (λ channel. flood_on channel call.now view.now) names.now)) }
{
    let mut actions = Actions::empty(alloc);
    for name in names {
        let more = flood_on(alloc, name.as_bytes(), call, view)?;
        actions = first_of(actions, more)?;
    }
    Ok(actions)
}

// The first of these actions and of those, as many as an answer has room for.
fn first_of(actions: Actions, more: Actions) -> Result<Actions, NoMemory>
    ensures { IfOk result (λ first. first ≡ take MAX_ACTIONS (actions ++ more)) }
{
    let mut items = actions.into_vec();
    items.append(&mut more.into_vec())?;
    items.truncate(MAX_ACTIONS);
    match Actions::from_vec(items) {
        Ok(first) => Ok(first),
        Err(_) => Err(NoMemory),
    }
}

// What is requested on a channel, if the bot is an operator there.
fn flood_on(
    alloc: Global,
    channel: &[u8],
    call: &Call,
    view: &View<'_>,
) -> Result<Actions, NoMemory>
    ensures { IfOk result (λ actions. actions ≡ flood_on channel.now call.now view.now) }
{
    if !is_op_of(channel, view) {
        return Ok(Actions::empty(alloc));
    }
    let on = call_on(alloc, channel)?;
    let wanted = flood_lines(alloc, &on, call, view)?;
    let actions = share_out(alloc, Duty::TurnsOp, &on, view, wanted)?;
    Ok(actions)
}

// The lines of a bot that is the first on the channel of `on`.
fn flood_lines(alloc: Global, on: &Call, call: &Call, view: &View<'_>) -> Result<Actions, NoMemory>
    ensures { IfOk result (λ actions. actions ≡ flood_lines on.now call.now view.now) }
{
    let members = view.channels().members(alloc, channel_of(on))?;
    let kicks = flood_kicks(alloc, on, call, view, members.as_slice())?;
    if !is_banned(alloc, on, call, view, members.as_slice())? {
        return Ok(kicks);
    }
    let ban = flood_ban(alloc, on, call)?;
    first_of(Actions::one(alloc, ban)?, kicks)
}

// Kicks of the first of these members who have the address and whom bans don't spare.
fn flood_kicks(
    alloc: Global,
    on: &Call,
    call: &Call,
    view: &View<'_>,
    members: &[Member],
) -> Result<Actions, NoMemory>
    ensures { IfOk result (λ actions. actions ≡ take MAX_ACTIONS (filter_map (flood_kick on.now call.now view.now) members.now)) }
{
    let mut actions = Actions::empty(alloc);
    for member in members {
        let wish = flood_kick(alloc, on, call, view, member)?;
        push_if_room(&mut actions, wish)?;
    }
    Ok(actions)
}

// A kick of a member who has the address, unless bans spare that member.
fn flood_kick(
    alloc: Global,
    on: &Call,
    call: &Call,
    view: &View<'_>,
    member: &Member,
) -> Result<Option<Action>, NoMemory>
    ensures { IfOk result (λ wish. wish ≡ flood_kick on.now call.now view.now member.now) }
{
    if !is_flooder(alloc, call, member)? {
        return Ok(None);
    }
    if is_spared(alloc, on, view, member)? {
        return Ok(None);
    }
    let reason = flood_reason(alloc, call)?;
    let line = kick(alloc, channel_of(on), member.nick.as_bytes(), &reason)?;
    let queue = Queue::Mode;
    Ok(Some(Action::Put(PutWish { queue, line })))
}

// Whether a member has the address of the line.
fn is_flooder(alloc: Global, call: &Call, member: &Member) -> Result<bool, NoMemory>
    ensures { IfOk result (λ same. same ≡ is_flooder call.now member.now) }
{
    let mut address = Vec::from_slice(alloc, member.user.as_bytes())?;
    address.extend_from_slice(b"@")?;
    address.extend_from_slice(member.host.as_bytes())?;
    Ok(same_by(Casemapping::Ascii, &address, flooder_of(call)))
}

// The reason of a kick.
fn flood_reason(alloc: Global, call: &Call) -> Result<Vec<u8>, NoMemory>
    ensures { IfOk result (λ reason. reason.items ≡ flood_reason call.now) }
{
    let mut reason = Vec::from_slice(alloc, b"flood of ")?;
    reason.extend_from_slice(flood_kind(call))?;
    Ok(reason)
}

// Whether the address is banned from the channel of these members: for joins, unless bans spare somebody of it.
fn is_banned(
    alloc: Global,
    on: &Call,
    call: &Call,
    view: &View<'_>,
    members: &[Member],
) -> Result<bool, NoMemory>
    requires { members.now ≡ members_in (channel_of on.now) view.now.sight.channels }
    ensures { IfOk result (λ banned. banned ≡ is_banned on.now call.now view.now) }
{
    if !is_of_joins(call) {
        return Ok(false);
    }
    let spares = any_spared_flooder(alloc, on, call, view, members)?;
    Ok(!spares)
}

// Whether any of these members has the address and is one whom bans spare.
fn any_spared_flooder(
    alloc: Global,
    on: &Call,
    call: &Call,
    view: &View<'_>,
    members: &[Member],
) -> Result<bool, NoMemory>
    ensures { IfOk result (λ some. some ≡ list_any (is_spared_flooder on.now call.now view.now) members.now) }
{
    for member in members {
        if is_spared_flooder(alloc, on, call, view, member)? {
            return Ok(true);
        }
    }
    Ok(false)
}

// Whether a member has the address and is one whom bans spare.
fn is_spared_flooder(
    alloc: Global,
    on: &Call,
    call: &Call,
    view: &View<'_>,
    member: &Member,
) -> Result<bool, NoMemory>
    ensures { IfOk result (λ spared. spared ≡ is_spared_flooder on.now call.now view.now member.now) }
{
    if !is_flooder(alloc, call, member)? {
        return Ok(false);
    }
    is_spared(alloc, on, view, member)
}

// The ban of the address.
fn flood_ban(alloc: Global, on: &Call, call: &Call) -> Result<Action, NoMemory>
    ensures { IfOk result (λ action. action ≡ flood_ban on.now call.now) }
{
    let mut mask = Vec::from_slice(alloc, b"*!")?;
    mask.extend_from_slice(flooder_of(call))?;
    let line = mode(alloc, channel_of(on), b"+b", &mask)?;
    let queue = Queue::Mode;
    Ok(Action::Put(PutWish { queue, line }))
}
