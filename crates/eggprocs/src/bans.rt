// The procs that ban.
ghost use Rattle.std.specs.Prelude.{◌≡◌, IfOk};
ghost use Rattle.eggprocs.specs.Bans.{mask_of, minutes_in, short, comment_after, end_of, ban_in, lift_wish, lift_after, lift_of, mode_of, ask_of, deletion, deleted_first};
ghost use Rattle.eggprocs.specs.Bans.{asked_by_ban, asked_by_unban, asked_by_lift};

use crate::args::{channel_of, handle_of, said_of, timer_text};
use crate::askers::in_callers_name;
use crate::ends::holds_ended;
use crate::lines::mode;
use crate::pairs::{after_one, and_then, two};
use crate::rights::{is_op_of, is_timer};
use bytetext::{MOMENTS_END, NoMemory, Text, after_word, first_word};
use outqueue::Queue;
use procs::{Action, Actions, Call, PutWish, TimerWish, View, starts_with_word};
use recordtext::number;
use std::alloc::Global;
use userfile::{Edit, MAX_COMMENT, expires_at, is_hostmask};

/// The maximum number of minutes for which a ban's timer counts seconds; above it, the timer counts minutes.
pub const UTIMER_MINUTES: u32 = 16_666;

// The mask that a command's text begins with.
fn mask_of(call: &Call) -> &[u8]
    ensures { result.now ≡ mask_of call.now }
{
    first_word(said_of(call))
}

// A number of minutes, if a text begins with one.
fn minutes_in(text: &[u8]) -> Option<u32>
    ensures { result ≡ minutes_in text.now }
{
    let minutes = number(first_word(text))?;
    if minutes < 4_294_967_296 {
        Some(minutes as u32)
    } else {
        None
    }
}

// The comment that follows the minutes, if there are any.
fn comment_after(minutes: Option<u32>, text: &[u8]) -> &[u8]
    ensures { result.now ≡ comment_after minutes text.now }
{
    match minutes {
        Some(_) => short(after_word(text)),
        None => short(text),
    }
}

// A text, cut to the length of a ban's comment.
fn short(text: &[u8]) -> &[u8]
    ensures { result.now ≡ short text.now }
{
    &text[..text.len().min(MAX_COMMENT)]
}

// When a ban ends.
fn end_of(second: Option<u64>, minutes: Option<u32>) -> u64
    ensures { result ≡ end_of second minutes }
{
    let Some(second) = second else { return 0 };
    let Some(minutes) = minutes else { return 0 };
    if second < MOMENTS_END {
        expires_at(second, minutes)
    } else {
        0
    }
}

// The ban that a command means, where this text follows the mask.
fn ban_in(alloc: Global, call: &Call, second: Option<u64>, rest: &[u8]) -> Result<Edit, NoMemory>
    ensures { IfOk result (λ edit. edit ≡ ban_in call.now second rest.now) }
{
    let channel = Text::from_slice(alloc, channel_of(call))?;
    let mask = Text::from_slice(alloc, mask_of(call))?;
    let creator = Text::from_slice(alloc, handle_of(call))?;
    let minutes = minutes_in(rest);
    let expires = end_of(second, minutes);
    let comment = Text::from_slice(alloc, comment_after(minutes, rest))?;
    Ok(Edit::AddBan {
        channel,
        mask,
        creator,
        expires,
        comment,
    })
}

// A call of `lift` with the channel and the mask, after this interval.
fn lift_wish(alloc: Global, call: &Call, interval: u32) -> Result<TimerWish, NoMemory>
    ensures { IfOk result (λ wish. wish ≡ lift_wish call.now interval) }
{
    let proc = Text::from_slice(alloc, b"lift")?;
    let mut text = Vec::from_slice(alloc, channel_of(call))?;
    text.extend_from_slice(b" ")?;
    text.extend_from_slice(mask_of(call))?;
    let text = Text::new(text);
    Ok(TimerWish {
        interval,
        count: 1,
        proc,
        text,
    })
}

fn lift_after(alloc: Global, call: &Call, minutes: u32) -> Result<Action, NoMemory>
    ensures { IfOk result (λ action. action ≡ lift_after call.now minutes) }
{
    if minutes <= UTIMER_MINUTES {
        Ok(Action::Utimer(lift_wish(alloc, call, minutes * 60)?))
    } else {
        Ok(Action::Timer(lift_wish(alloc, call, minutes)?))
    }
}

// The later end of the ban on the channel, if it ends.
fn lift_of(alloc: Global, call: &Call, minutes: Option<u32>) -> Result<Option<Action>, NoMemory>
    ensures { IfOk result (λ lift. lift ≡ lift_of call.now minutes) }
{
    match minutes {
        Some(minutes) if minutes > 0 => Ok(Some(lift_after(alloc, call, minutes)?)),
        Some(_) | None => Ok(None),
    }
}

// A mode on the channel with the command's mask.
fn mode_of(alloc: Global, sign: &[u8], call: &Call) -> Result<Action, NoMemory>
    ensures { IfOk result (λ action. action ≡ mode_of sign.now call.now) }
{
    let line = mode(alloc, channel_of(call), sign, mask_of(call))?;
    let queue = Queue::Mode;
    Ok(Action::Put(PutWish { queue, line }))
}

// The request of an edit, in the caller's name.
fn ask_of(alloc: Global, call: &Call, view: &View<'_>, edit: Edit) -> Result<Action, NoMemory>
    ensures { IfOk result (λ action. action ≡ ask_of call.now view.now edit) }
{
    let change = in_callers_name(alloc, call, view, edit)?;
    Ok(Action::Ask(change))
}

// What `ban` requests: the ban in the userfile, after the deletion of one that has ended, the ban on the channel, and
// later its end there.
pub(crate) fn asked_by_ban(
    alloc: Global,
    may: bool,
    call: &Call,
    view: &View<'_>,
) -> Result<Actions, NoMemory>
    ensures { IfOk result (λ actions. actions ≡ asked_by_ban may call.now view.now) }
{
    if !(may && is_hostmask(mask_of(call))) {
        return Ok(Actions::empty(alloc));
    }
    let rest = after_word(said_of(call));
    let edit = ban_in(alloc, call, view.second(), rest)?;
    let ban = ask_of(alloc, call, view, edit)?;
    let sets = mode_of(alloc, b"+b", call)?;
    let lift = lift_of(alloc, call, minutes_in(rest))?;
    match deleted_first(alloc, call, view)? {
        Some(delete) => after_one(alloc, delete, ban, sets, lift),
        None => and_then(alloc, ban, sets, lift),
    }
}

// The deletion of the command's ban, if the records hold one that has ended.
fn deleted_first(alloc: Global, call: &Call, view: &View<'_>) -> Result<Option<Action>, NoMemory>
    ensures { IfOk result (λ delete. delete ≡ deleted_first call.now view.now) }
{
    if !holds_ended(channel_of(call), mask_of(call), view) {
        return Ok(None);
    }
    let edit = deletion(alloc, call)?;
    Ok(Some(ask_of(alloc, call, view, edit)?))
}

// The deletion of the command's ban from the userfile.
fn deletion(alloc: Global, call: &Call) -> Result<Edit, NoMemory>
    ensures { IfOk result (λ edit. edit ≡ deletion call.now) }
{
    let channel = Text::from_slice(alloc, channel_of(call))?;
    let mask = Text::from_slice(alloc, mask_of(call))?;
    Ok(Edit::DelBan { channel, mask })
}

// What `unban` requests: the end of the ban in the userfile and on the channel.
pub(crate) fn asked_by_unban(
    alloc: Global,
    may: bool,
    call: &Call,
    view: &View<'_>,
) -> Result<Actions, NoMemory>
    ensures { IfOk result (λ actions. actions ≡ asked_by_unban may call.now view.now) }
{
    if !(may && is_hostmask(mask_of(call))) {
        return Ok(Actions::empty(alloc));
    }
    let edit = deletion(alloc, call)?;
    let ask = ask_of(alloc, call, view, edit)?;
    let clears = mode_of(alloc, b"-b", call)?;
    two(alloc, ask, clears)
}

// What `lift` requests, for a timer's text of a channel and a mask: the end of the ban on the channel.
pub(crate) fn asked_by_lift(
    alloc: Global,
    call: &Call,
    view: &View<'_>,
) -> Result<Actions, NoMemory>
    ensures { IfOk result (λ actions. actions ≡ asked_by_lift call.now view.now) }
{
    let channel = first_word(timer_text(call));
    let rest = after_word(timer_text(call));
    if !(is_timer(call.kind) && is_op_of(channel, view) && starts_with_word(rest)) {
        return Ok(Actions::empty(alloc));
    }
    let line = mode(alloc, channel, b"-b", first_word(rest))?;
    let queue = Queue::Mode;
    Actions::one(alloc, Action::Put(PutWish { queue, line }))
}
