// The proc that keeps the bans of the records on the channels.
ghost use Rattle.std.specs.Prelude.{◌≡◌, find, IfOk, Some};
ghost use Rattle.std.specs.Option.{option_copied, option_map};
ghost use Rattle.eggprocs.specs.Askers.{caller_address};
ghost use Rattle.eggprocs.specs.Everyone.{address_of};
ghost use Rattle.eggprocs.specs.Recorded.{second_of, ban_text, ban_line, is_newcomer, ban_on, kick_line, is_beside, ban_or_look, kept_off};
ghost use Rattle.eggprocs.specs.Recorded.{ban_back, set_again};
ghost use Rattle.eggprocs.specs.Recorded.{asked_for_join, asked_for_removal, asked_by_keepbans};

use crate::args::{channel_of, mode_argument, nick_of, or_else};
use crate::askers::caller_address;
use crate::cycling::is_self_or;
use crate::duties::Duty;
use crate::everyone::address_of;
use crate::keeping::{is_by_bot, is_change_by_others, is_hit};
use crate::lines::{kick, mode};
use crate::looks::{look_if, or_at_once};
use crate::pairs::two;
use crate::rights::{is_bot_op, is_join};
use crate::turns::share_out;
use bytetext::{NoMemory, Text};
use chanstate::Member;
use outqueue::Queue;
use procs::{Action, Actions, Call, PutWish, View};
use std::alloc::Global;
use userfile::{Ban, Hostmask};

// What `keepbans` requests: that a ban of the records is kept on a channel.
pub(crate) fn asked_by_keepbans(
    alloc: Global,
    call: &Call,
    view: &View<'_>,
) -> Result<Actions, NoMemory>
    ensures { IfOk result (λ actions. actions ≡ asked_by_keepbans call.now view.now) }
{
    if is_join(call.kind) {
        asked_for_join(alloc, call, view)
    } else {
        asked_for_removal(alloc, call, view)
    }
}

// What is requested for a join: a ban of the records on the channel, and a kick, if it keeps off the person who joins.
fn asked_for_join(alloc: Global, call: &Call, view: &View<'_>) -> Result<Actions, NoMemory>
    ensures { IfOk result (λ actions. actions ≡ asked_for_join call.now view.now) }
{
    if !is_newcomer(call, view) {
        return Ok(Actions::empty(alloc));
    }
    let who = caller_address(alloc, call)?;
    match ban_on(call, view, &who) {
        Some(ban) => kept_off(alloc, call, view, ban),
        None => Ok(Actions::empty(alloc)),
    }
}

// What is requested for a removal: a sticky ban of the records again, by the first bot, if anybody but the bot removes it.
fn asked_for_removal(alloc: Global, call: &Call, view: &View<'_>) -> Result<Actions, NoMemory>
    ensures { IfOk result (λ actions. actions ≡ asked_for_removal call.now view.now) }
{
    if !is_change_by_others(b"-b", call, view) {
        return Ok(Actions::empty(alloc));
    }
    let wanted = wanted_again(alloc, call, view)?;
    share_out(alloc, Duty::FirstOp, call, view, wanted)
}

// The sticky ban of the records that a change removes, set again.
fn wanted_again(alloc: Global, call: &Call, view: &View<'_>) -> Result<Actions, NoMemory>
    ensures { IfOk result (λ actions. actions ≡ set_again call.now (ban_back call.now view.now)) }
{
    match ban_back(call, view) {
        Some(ban) => set_again(alloc, call, ban),
        None => Ok(Actions::empty(alloc)),
    }
}

// Whether a caller who joins is to be kept off: not the bot itself, where the bot is an operator.
fn is_newcomer(call: &Call, view: &View<'_>) -> bool
    ensures { result ≡ is_newcomer call.now view.now }
{
    is_bot_op(call, view) && !is_by_bot(call, view)
}

// The second by which a ban has ended or not.
fn second_of(view: &View<'_>) -> u64
    ensures { result ≡ second_of view.now }
{
    view.second().unwrap_or(0)
}

// The first ban of the records that keeps the caller, who is this nick!user@host, off the channel.
fn ban_on<'a>(call: &Call, view: &'a View<'_>, who: &Text) -> Option<&'a Ban>
    requires { who.now ≡ caller_address call.now }
    ensures { option_copied result ≡ ban_on call.now view.now }
{
    let mapping = view.channels().casemapping();
    view.userfile()
        .ban_for(mapping, channel_of(call), who.as_bytes(), second_of(view))
}

// The first sticky ban of the records whose mask a change removes.
fn ban_back<'a>(call: &Call, view: &'a View<'_>) -> Option<&'a Ban>
    ensures { option_copied result ≡ ban_back call.now view.now }
{
    let mapping = view.channels().casemapping();
    view.userfile().sticky_ban(
        mapping,
        channel_of(call),
        mode_argument(call),
        second_of(view),
    )
}

// The ban on the channel, or a look whether it is wanted, and a kick of the caller.
fn kept_off(alloc: Global, call: &Call, view: &View<'_>, ban: &Ban) -> Result<Actions, NoMemory>
    ensures { IfOk result (λ actions. actions ≡ kept_off call.now view.now (Some ban.now)) }
{
    let bans = ban_or_look(alloc, call, view, ban)?;
    let kicks = kick_line(alloc, call, ban)?;
    two(alloc, bans, kicks)
}

// The ban on the channel, at once or, beside another member whom it keeps off, by a look at the first such member.
fn ban_or_look(alloc: Global, call: &Call, view: &View<'_>, ban: &Ban) -> Result<Action, NoMemory>
    ensures { IfOk result (λ action. action ≡ ban_or_look call.now view.now ban.now) }
{
    let members = view.channels().members(alloc, channel_of(call))?;
    let address = address_beside(alloc, &ban.mask, call, view, members.as_slice())?;
    let line = ban_text(alloc, call, ban)?;
    let look = look_if(alloc, 1, line.as_bytes(), address)?;
    Ok(or_at_once(line, look))
}

// The address of the first of these members whom a mask matches, other than the bot and the caller.
fn address_beside(
    alloc: Global,
    mask: &Hostmask,
    call: &Call,
    view: &View<'_>,
    members: &[Member],
) -> Result<Option<Text>, NoMemory>
    ensures { IfOk result (λ address. address ≡ option_map address_of (find (is_beside mask.now call.now view.now) members.now)) }
{
    for member in members {
        if is_beside(alloc, mask, call, view, member)? {
            return Ok(Some(address_of(alloc, member)?));
        }
    }
    Ok(None)
}

// Whether a mask matches a member other than the bot and the caller.
fn is_beside(
    alloc: Global,
    mask: &Hostmask,
    call: &Call,
    view: &View<'_>,
    member: &Member,
) -> Result<bool, NoMemory>
    ensures { IfOk result (λ beside. beside ≡ is_beside mask.now call.now view.now member.now) }
{
    let hit = is_hit(alloc, mask, view, member)?;
    Ok(hit && !is_self_or(nick_of(call), view, member))
}

// The ban on the channel alone.
fn set_again(alloc: Global, call: &Call, ban: &Ban) -> Result<Actions, NoMemory>
    ensures { IfOk result (λ actions. actions ≡ set_again call.now (Some ban.now)) }
{
    let line = ban_line(alloc, call, ban)?;
    Actions::one(alloc, line)
}

// The line that sets a ban on the channel.
fn ban_line(alloc: Global, call: &Call, ban: &Ban) -> Result<Action, NoMemory>
    ensures { IfOk result (λ action. action ≡ ban_line call.now ban.now) }
{
    let line = ban_text(alloc, call, ban)?;
    let queue = Queue::Mode;
    Ok(Action::Put(PutWish { queue, line }))
}

// The text of that line.
fn ban_text(alloc: Global, call: &Call, ban: &Ban) -> Result<Text, NoMemory>
    ensures { IfOk result (λ line. line ≡ ban_text call.now ban.now) }
{
    mode(alloc, channel_of(call), b"+b", ban.mask.as_bytes())
}

// The line that kicks the caller, for the ban's comment.
fn kick_line(alloc: Global, call: &Call, ban: &Ban) -> Result<Action, NoMemory>
    ensures { IfOk result (λ action. action ≡ kick_line call.now ban.now) }
{
    let reason = or_else(ban.comment.as_bytes(), b"banned");
    let line = kick(alloc, channel_of(call), nick_of(call), reason)?;
    let queue = Queue::Mode;
    Ok(Action::Put(PutWish { queue, line }))
}
