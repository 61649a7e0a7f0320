// The procs by which a bot of a net gets op from another one.
ghost use Rattle.std.specs.Prelude.{◌≡◌, take, IfOk};
ghost use Rattle.std.specs.List.{filter_map};
ghost use Rattle.std.specs.Option.{option_copied};
ghost use Rattle.procs.specs.declared.limits.TheConstants.{MAX_ACTIONS};
ghost use Rattle.eggprocs.specs.Needs.{lacks_op_on, needs_op_on, later_need, is_for_later, is_need, need_on, all_needs, needs_now, asked_by_needop};
ghost use Rattle.eggprocs.specs.Needs.{is_bot_text, needed_on, needed_by, is_known_bot, may_give, op_later, op_for, asked_by_giveop};

use crate::args::{arg_at, channel_of, timer_text};
use crate::cycling::lacks_op;
use crate::ends::{call_on, is_minute};
use crate::everyone::{address_of, flags_of_member, is_own_join, push_if_room};
use crate::keeping::names_bot;
use crate::lines::mode;
use crate::looks::{look_after, or_at_once};
use crate::rights::{has_bot, has_op, is_change, is_op_of, is_timer};
use bytetext::{NoMemory, Text, after_word, first_word};
use chanstate::Member;
use procs::{Action, Actions, BotWish, Call, CallKind, TimerWish, View};
use std::alloc::Global;
use userfile::PersonFlags;

/// How many seconds after its own join, or after somebody took its op, a bot asks for op, if it has none by then.
pub const ASK_SECONDS: u32 = 10;

/// How many seconds after a text that asks for op a bot gives it, so that it gives it once if several texts ask.
pub const GIVE_SECONDS: u32 = 1;

// What `needop` requests: a text to the hub if the bot has no op on a channel.
pub(crate) fn asked_by_needop(
    alloc: Global,
    call: &Call,
    view: &View<'_>,
) -> Result<Actions, NoMemory>
    ensures { IfOk result (λ actions. actions ≡ asked_by_needop call.now view.now) }
{
    if is_minute(call.kind) {
        all_needs(alloc, view)
    } else {
        needs_now(alloc, call, view)
    }
}

// The texts for the first channels on which the bot lacks op.
fn all_needs(alloc: Global, view: &View<'_>) -> Result<Actions, NoMemory>
    ensures { IfOk result (λ actions. actions ≡ all_needs view.now) }
{
    let channels = view.channels();
    let names = channels.channels_of(alloc, channels.own_nick())?;
    needs_of(alloc, view, names.as_slice())
}

// The texts for the first of these channels on which the bot lacks op.
fn needs_of(alloc: Global, view: &View<'_>, names: &[Text]) -> Result<Actions, NoMemory>
    ensures { IfOk result (λ actions. actions ≡ take MAX_ACTIONS (filter_map (need_on view.now) names.now)) }
{
    let mut actions = Actions::empty(alloc);
    for name in names {
        let need = need_on(alloc, view, name.as_bytes())?;
        push_if_room(&mut actions, need)?;
    }
    Ok(actions)
}

// The text for a channel, if the bot lacks op on it.
fn need_on(alloc: Global, view: &View<'_>, channel: &[u8]) -> Result<Option<Action>, NoMemory>
    ensures { IfOk result (λ need. need ≡ need_on view.now channel.now) }
{
    if !lacks_op_on(channel, view) {
        return Ok(None);
    }
    Ok(Some(needs_op_on(alloc, channel, view)?))
}

// The text that an event of a channel gives reason for, or a later look.
fn needs_now(alloc: Global, call: &Call, view: &View<'_>) -> Result<Actions, NoMemory>
    ensures { IfOk result (λ actions. actions ≡ needs_now call.now view.now) }
{
    let action = if is_for_later(call, view) {
        later_need(alloc, channel_of(call))?
    } else if is_need(call, view) {
        needs_op_on(alloc, channel_of(call), view)?
    } else if is_timer(call.kind) && lacks_op_on(timer_text(call), view) {
        needs_op_on(alloc, timer_text(call), view)?
    } else {
        return Ok(Actions::empty(alloc));
    };
    Actions::one(alloc, action)
}

// Whether the bot is on a channel and is no operator there.
fn lacks_op_on(channel: &[u8], view: &View<'_>) -> bool
    ensures { result ≡ lacks_op_on channel.now view.now }
{
    let channels = view.channels();
    lacks_op(channels.member(channel, channels.own_nick()))
}

// The text that asks the hub for op.
fn needs_op_on(alloc: Global, channel: &[u8], view: &View<'_>) -> Result<Action, NoMemory>
    ensures { IfOk result (λ action. action ≡ needs_op_on channel.now view.now) }
{
    let mut text = Vec::from_slice(alloc, b"needop ")?;
    text.extend_from_slice(channel)?;
    text.extend_from_slice(b" ")?;
    text.extend_from_slice(view.channels().own_nick())?;
    let text = Text::new(text);
    Ok(Action::SendBot(BotWish { to: 0, text }))
}

// A later call of `needop` with the channel.
fn later_need(alloc: Global, channel: &[u8]) -> Result<Action, NoMemory>
    ensures { IfOk result (λ action. action ≡ later_need channel.now) }
{
    let proc = Text::from_slice(alloc, b"needop")?;
    let text = Text::from_slice(alloc, channel)?;
    Ok(Action::Utimer(TimerWish {
        interval: ASK_SECONDS,
        count: 1,
        proc,
        text,
    }))
}

// Whether the bot has joined, or a change of mode takes op from it.
fn is_for_later(call: &Call, view: &View<'_>) -> bool
    ensures { result ≡ is_for_later call.now view.now }
{
    is_own_join(call, view) || (is_change(b"-o", call) && names_bot(call, view))
}

// Whether a change of mode gives op to somebody else while the bot has none.
fn is_need(call: &Call, view: &View<'_>) -> bool
    ensures { result ≡ is_need call.now view.now }
{
    is_change(b"+o", call) && !names_bot(call, view) && lacks_op_on(channel_of(call), view)
}

// What `giveop` requests: op for the bot that a text of another bot names.
pub(crate) fn asked_by_giveop(
    alloc: Global,
    call: &Call,
    view: &View<'_>,
) -> Result<Actions, NoMemory>
    ensures { IfOk result (λ actions. actions ≡ asked_by_giveop call.now view.now) }
{
    if !may_give(call, view) {
        return Ok(Actions::empty(alloc));
    }
    let channel = needed_on(call);
    op_for(
        alloc,
        channel,
        view.channels().member(channel, needed_by(call)),
        view,
    )
}

// Whether a text of another bot asks for op on a channel where this bot is an operator, and who is named is none.
fn may_give(call: &Call, view: &View<'_>) -> bool
    ensures { result ≡ may_give call.now view.now }
{
    let channel = needed_on(call);
    is_bot_text(call.kind)
        && is_op_of(channel, view)
        && lacks_op(view.channels().member(channel, needed_by(call)))
}

// Whether a call is for a text of another bot.
pub(crate) fn is_bot_text(kind: CallKind) -> bool
    ensures { result ≡ is_bot_text kind }
{
    matches!(kind, CallKind::Bot)
}

// The channel for which a text asks for op.
pub(crate) fn needed_on(call: &Call) -> &[u8]
    ensures { result.now ≡ needed_on call.now }
{
    first_word(arg_at(call.args.as_slice(), 2))
}

// The nick for which a text asks for op.
pub(crate) fn needed_by(call: &Call) -> &[u8]
    ensures { result.now ≡ needed_by call.now }
{
    first_word(after_word(arg_at(call.args.as_slice(), 2)))
}

// Whether a member is a bot and an operator by the userfile.
fn is_known_bot(flags: &PersonFlags) -> bool
    ensures { result ≡ is_known_bot flags.now }
{
    has_bot(flags) && has_op(flags)
}

// Op for a member, if there is one and it is a bot and an operator by the userfile.
fn op_for(
    alloc: Global,
    channel: &[u8],
    member: Option<&Member>,
    view: &View<'_>,
) -> Result<Actions, NoMemory>
    ensures { IfOk result (λ actions. actions ≡ op_for channel.now (option_copied member.entry) view.now) }
{
    let Some(member) = member else {
        return Ok(Actions::empty(alloc));
    };
    let call = call_on(alloc, channel)?;
    let flags = flags_of_member(alloc, &call, view, member)?;
    if !is_known_bot(&flags) {
        return Ok(Actions::empty(alloc));
    }
    Actions::one(alloc, op_later(alloc, channel, member)?)
}

// Op for a member, by a look a second later.
fn op_later(alloc: Global, channel: &[u8], member: &Member) -> Result<Action, NoMemory>
    ensures { IfOk result (λ action. action ≡ op_later channel.now member.now) }
{
    let address = address_of(alloc, member)?;
    let line = mode(alloc, channel, b"+o", member.nick.as_bytes())?;
    let look = look_after(alloc, GIVE_SECONDS, line.as_bytes(), address.as_bytes())?;
    Ok(or_at_once(line, look))
}
