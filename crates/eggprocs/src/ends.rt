// The proc that ends bans, and how `ban` replaces one that has ended.
ghost use Rattle.std.specs.Prelude.{◌≡◌, ◌++◌, ◌||◌, List, take, slice_get, IfOk, OnOk};
ghost use Rattle.std.specs.List.{flat_map};
ghost use Rattle.procs.specs.declared.action.Action.{Action};
ghost use Rattle.procs.specs.declared.limits.TheConstants.{MAX_ACTIONS};
ghost use Rattle.eggprocs.specs.Ends.{all_ends, asked_by_expire, call_on, delete_if, ends_of, has_ended, has_ended_by, holds_ended, is_ended_if, is_ended_of, is_left, is_minute, lift_if, lifts_on};

use crate::everyone::push_if_room;
use crate::hands::rank;
use crate::lines::mode;
use crate::rights::is_op_of;
use bytetext::{NoMemory, Text, Texts, TryCopy};
use outqueue::Queue;
use procs::{Action, Actions, Call, CallKind, PutWish, View};
use rfccase::same;
use std::alloc::Global;
use userfile::{Ban, Change, Edit, Userfile};

/// How many seconds after its end any bot deletes a ban that no operator of its channel has ended: a day.
pub const LEFT_SECONDS: u64 = 86_400;

// What `expire` requests: the end of bans that have ended, on their channels and in the records.
pub(crate) fn asked_by_expire(
    alloc: Global,
    call: &Call,
    view: &View<'_>,
) -> Result<Actions, NoMemory>
    ensures { IfOk result (λ actions. actions ≡ asked_by_expire call.now view.now) }
{
    let Some(second) = view.second() else {
        return Ok(Actions::empty(alloc));
    };
    if !is_minute(call.kind) {
        return Ok(Actions::empty(alloc));
    }
    all_ends(alloc, view, second)
}

// Whether a call is for a minute that begins.
pub(crate) fn is_minute(kind: CallKind) -> bool
    ensures { result ≡ is_minute kind }
{
    matches!(kind, CallKind::Time | CallKind::Cron)
}

// What ends the bans that have ended by this second, as much as an answer has room for.
fn all_ends(alloc: Global, view: &View<'_>, second: u64) -> Result<Actions, NoMemory>
    ensures { IfOk result (λ actions.
        actions ≡ take MAX_ACTIONS (flat_map (ends_of second view.now) view.now.sight.records.bans)) }
{
    let mut actions = Actions::empty(alloc);
    let userfile = view.userfile();
    for place in 0..userfile.ban_count() {
        let Some(ban) = userfile.ban_at(place) else {
            return Ok(actions);
        };
        push_ends(alloc, &mut actions, view, second, ban)?;
    }
    Ok(actions)
}

// Appends what ends a ban, if it has ended by this second, as much as there is room for.
fn push_ends(
    alloc: Global,
    actions: &mut Actions,
    view: &View<'_>,
    second: u64,
    ban: &Ban,
) -> Result<(), NoMemory>
    ensures { (before : List Action) → actions.old ≡ take MAX_ACTIONS before
        → OnOk result (actions.new ≡ take MAX_ACTIONS (before ++ ends_of second view.now ban.now)) }
{
    if !has_ended(second, ban) {
        return Ok(());
    }
    let lifts = lifts_on(alloc, ban.channel.as_bytes(), view)?;
    let lift = lift_if(alloc, lifts, ban)?;
    push_if_room(actions, lift)?;
    let delete = delete_if(alloc, is_deleted(second, lifts, ban), ban)?;
    push_if_room(actions, delete)?;
    Ok(())
}

// Whether the bot deletes a ban that has ended: it ends the ban on the channel too, or any bot deletes the ban.
fn is_deleted(second: u64, lifts: bool, ban: &Ban) -> bool
    ensures { result ≡ (lifts || is_left second ban.now) }
{
    lifts || is_left(second, ban)
}

// Whether a ban has ended by this second.
fn has_ended(second: u64, ban: &Ban) -> bool
    ensures { result ≡ has_ended second ban.now }
{
    ban.expires != 0 && ban.expires <= second
}

// Whether any bot deletes a ban: it is of all channels, or it ended a day ago.
fn is_left(second: u64, ban: &Ban) -> bool
    ensures { result ≡ is_left second ban.now }
{
    ban.channel.is_empty() || second.saturating_sub(ban.expires) >= LEFT_SECONDS
}

// Whether the bot is the first of the bots that are operators of a channel.
fn lifts_on(alloc: Global, channel: &[u8], view: &View<'_>) -> Result<bool, NoMemory>
    ensures { IfOk result (λ lifts. lifts ≡ lifts_on channel.now view.now) }
{
    if !is_op_of(channel, view) {
        return Ok(false);
    }
    let call = call_on(alloc, channel)?;
    Ok(rank(alloc, true, &call, view)? == 0)
}

// A call on a channel, by which bots work out who is the first there.
pub(crate) fn call_on(alloc: Global, channel: &[u8]) -> Result<Call, NoMemory>
    ensures { IfOk result (λ call. call ≡ call_on channel.now) }
{
    let mut args = Texts::empty(alloc);
    args.push(Text::empty(alloc))?;
    args.push(Text::empty(alloc))?;
    args.push(Text::empty(alloc))?;
    args.push(Text::from_slice(alloc, channel)?)?;
    Ok(Call {
        kind: CallKind::Mode,
        args,
    })
}

// The end of a ban on its channel, if the bot is to end it there.
fn lift_if(alloc: Global, lifts: bool, ban: &Ban) -> Result<Option<Action>, NoMemory>
    ensures { IfOk result (λ lift. lift ≡ lift_if lifts ban.now) }
{
    if !lifts {
        return Ok(None);
    }
    let line = mode(alloc, ban.channel.as_bytes(), b"-b", ban.mask.as_bytes())?;
    let queue = Queue::Mode;
    Ok(Some(Action::Put(PutWish { queue, line })))
}

// The deletion of a ban from the records, if the bot is to delete it. The bot requests it in nobody's name.
fn delete_if(alloc: Global, deletes: bool, ban: &Ban) -> Result<Option<Action>, NoMemory>
    ensures { IfOk result (λ delete. delete ≡ delete_if deletes ban.now) }
{
    if !deletes {
        return Ok(None);
    }
    let channel = ban.channel.copy(alloc)?;
    let mask = Text::from_slice(alloc, ban.mask.as_bytes())?;
    let change = Change::by_nobody(Edit::DelBan { channel, mask });
    Ok(Some(Action::Ask(change)))
}

// Whether the records hold a ban of this channel and mask that has ended by the second that the bot's clock shows.
pub(crate) fn holds_ended(channel: &[u8], mask: &[u8], view: &View<'_>) -> bool
    ensures { result ≡ holds_ended channel.now mask.now view.now }
{
    let userfile = view.userfile();
    for place in 0..userfile.ban_count() {
        if is_ended_at(userfile, place, channel, mask, view.second()) {
            return true;
        }
    }
    false
}

// Whether the ban at this place is of this channel and mask, and has ended.
fn is_ended_at(
    userfile: &Userfile,
    place: usize,
    channel: &[u8],
    mask: &[u8],
    second: Option<u64>,
) -> bool
    ensures { result ≡ is_ended_if second channel.now mask.now (slice_get userfile.now.bans place) }
{
    match userfile.ban_at(place) {
        Some(ban) => is_ended_of(second, channel, mask, ban),
        None => false,
    }
}

// Whether a ban is of this channel and mask, and has ended.
fn is_ended_of(second: Option<u64>, channel: &[u8], mask: &[u8], ban: &Ban) -> bool
    ensures { result ≡ is_ended_of second channel.now mask.now ban.now }
{
    same(channel, ban.channel.as_bytes())
        && same(mask, ban.mask.as_bytes())
        && has_ended_by(second, ban)
}

// Whether a ban has ended by the second that the bot's clock shows.
fn has_ended_by(second: Option<u64>, ban: &Ban) -> bool
    ensures { result ≡ has_ended_by second ban.now }
{
    match second {
        Some(second) => has_ended(second, ban),
        None => false,
    }
}
