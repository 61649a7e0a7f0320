// What a bot looks for that lets another bot go first.
ghost use Rattle.std.specs.Prelude.{◌≡◌, ◌≤◌, IfOk};
ghost use Rattle.std.specs.List.{list_any};
ghost use Rattle.std.specs.Str.{bytes_eq};
ghost use Rattle.eggprocs.specs.Everyone.{address_of};
ghost use Rattle.eggprocs.specs.declared.looks.TheConstants.{MAX_TURN};
ghost use Rattle.eggprocs.specs.Looks.{is_wanted, look_text, look_after, look_of, look_if, or_at_once, address_now, look_at, look_for};
ghost use Rattle.eggprocs.specs.Looks.{line_of, may_look, asked_by_later};

use crate::args::{channel_of, timer_text};
use crate::askers::caller_address;
use crate::channel::one_line;
use crate::effects::{channel_in, effect_in, is_ban, is_done, target_in};
use crate::everyone::address_of;
use crate::rights::{is_join, is_op_of, is_timer};
use bytetext::{NoMemory, Text, after_word, first_word};
use chanstate::Member;
use outqueue::Queue;
use procs::{Action, Actions, Call, PutWish, TimerWish, View};
use std::alloc::Global;

/// The last turn at which a bot looks whether something is still to be done.
pub const MAX_TURN: u32 = 8;

/// The seconds between the turns of two bots.
pub const LOOK_SECONDS: u32 = 5;

// Whether there is a member of this address who does not show the effect of this line.
#[tactic(auto, unfolding(crate::specs::Looks::is_wanted))]
fn is_wanted(alloc: Global, address: &[u8], line: &[u8], view: &View<'_>) -> Result<bool, NoMemory>
    ensures { IfOk result (λ wanted. wanted ≡ is_wanted address.now line.now view.now) }
{
    if is_ban(effect_in(line)) {
        let members = view.channels().members(alloc, channel_in(line))?;
        return is_any_of(alloc, address, members.as_slice());
    }
    match view.channels().member(channel_in(line), target_in(line)) {
        Some(member) => {
            let is_same = is_of(alloc, address, member)?;
            Ok(is_same && !is_done(effect_in(line), member))
        }
        None => Ok(false),
    }
}

// Whether any of these members has this address.
fn is_any_of(alloc: Global, address: &[u8], members: &[Member]) -> Result<bool, NoMemory>
    ensures { IfOk result (λ some. some ≡ list_any (λ member. bytes_eq (address_of member) address.now) members.now) }
{
    for member in members {
        if is_of(alloc, address, member)? {
            return Ok(true);
        }
    }
    Ok(false)
}

// Whether a member has this address.
fn is_of(alloc: Global, address: &[u8], member: &Member) -> Result<bool, NoMemory>
    ensures { IfOk result (λ same. same ≡ bytes_eq (address_of member.now) address.now) }
{
    let there = address_of(alloc, member)?;
    Ok(there.as_bytes() == address)
}

// A look's text: ADDRESS LINE.
fn look_text(alloc: Global, address: &[u8], line: &[u8]) -> Result<Text, NoMemory>
    ensures { IfOk result (λ text. text ≡ look_text address.now line.now) }
{
    let mut text = Vec::from_slice(alloc, address)?;
    text.extend_from_slice(b" ")?;
    text.extend_from_slice(line)?;
    Ok(Text::new(text))
}

// A look after so many seconds, if `later` reads this line in its text.
pub(crate) fn look_after(
    alloc: Global,
    seconds: u32,
    line: &[u8],
    address: &[u8],
) -> Result<Option<Action>, NoMemory>
    ensures { IfOk result (λ look. look ≡ look_after seconds line.now address.now) }
{
    let text = look_text(alloc, address, line)?;
    if after_word(text.as_bytes()) != line {
        return Ok(None);
    }
    let proc = Text::from_slice(alloc, b"later")?;
    Ok(Some(Action::Utimer(TimerWish {
        interval: seconds,
        count: 1,
        proc,
        text,
    })))
}

// The look of the bot that has this many before it.
fn look_of(
    alloc: Global,
    turn: u32,
    line: &[u8],
    address: &[u8],
) -> Result<Option<Action>, NoMemory>
    requires { turn ≤ MAX_TURN }
    ensures { IfOk result (λ look. look ≡ look_of turn line.now address.now) }
{
    look_after(alloc, turn * LOOK_SECONDS, line, address)
}

// The look of that bot, if there is an address.
pub(crate) fn look_if(
    alloc: Global,
    turn: u32,
    line: &[u8],
    address: Option<Text>,
) -> Result<Option<Action>, NoMemory>
    requires { turn ≤ MAX_TURN }
    ensures { IfOk result (λ look. look ≡ look_if turn line.now address) }
{
    match address {
        Some(address) => look_of(alloc, turn, line, address.as_bytes()),
        None => Ok(None),
    }
}

// A line at once, if there is no look in its place.
pub(crate) fn or_at_once(line: Text, look: Option<Action>) -> Action
    ensures { result ≡ or_at_once line look }
{
    let queue = Queue::Mode;
    match look {
        Some(look) => look,
        None => Action::Put(PutWish { queue, line }),
    }
}

// The address that belongs to a nick: of the caller who joins, or of the member of this nick.
fn address_now(
    alloc: Global,
    call: &Call,
    view: &View<'_>,
    nick: &[u8],
) -> Result<Option<Text>, NoMemory>
    ensures { IfOk result (λ address. address ≡ address_now call.now view.now nick.now) }
{
    if is_join(call.kind) {
        return Ok(Some(caller_address(alloc, call)?));
    }
    match view.channels().member(channel_of(call), nick) {
        Some(member) => Ok(Some(address_of(alloc, member)?)),
        None => Ok(None),
    }
}

// The look for a line, if the nick that it is about is there.
fn look_at(
    alloc: Global,
    turn: u32,
    call: &Call,
    view: &View<'_>,
    line: &[u8],
) -> Result<Option<Action>, NoMemory>
    requires { turn ≤ MAX_TURN }
    ensures { IfOk result (λ look. look ≡ look_at turn call.now view.now line.now) }
{
    let address = address_now(alloc, call, view, target_in(line))?;
    look_if(alloc, turn, line, address)
}

// The look for an action: only for a line to the server.
pub(crate) fn look_for(
    alloc: Global,
    turn: u32,
    call: &Call,
    view: &View<'_>,
    action: &Action,
) -> Result<Option<Action>, NoMemory>
    requires { turn ≤ MAX_TURN }
    ensures { IfOk result (λ look. look ≡ look_for turn call.now view.now action.now) }
{
    match action {
        Action::Put(wish) => look_at(alloc, turn, call, view, wish.line.as_bytes()),
        Action::Ask(_)
        | Action::Timer(_)
        | Action::Utimer(_)
        | Action::KillTimer(_)
        | Action::SendBot(_) => Ok(None),
    }
}

// The line of a look.
fn line_of(call: &Call) -> &[u8]
    ensures { result.now ≡ line_of call.now }
{
    after_word(timer_text(call))
}

// Whether a call is for a timer, and the bot is an operator of the channel of its line.
fn may_look(call: &Call, view: &View<'_>) -> bool
    ensures { result ≡ may_look call.now view.now }
{
    is_timer(call.kind) && is_op_of(channel_in(line_of(call)), view)
}

// What `later` requests: the line of its look, if that is still to be done.
pub(crate) fn asked_by_later(
    alloc: Global,
    call: &Call,
    view: &View<'_>,
) -> Result<Actions, NoMemory>
    ensures { IfOk result (λ actions. actions ≡ asked_by_later call.now view.now) }
{
    if !may_look(call, view) {
        return Ok(Actions::empty(alloc));
    }
    let line = line_of(call);
    if !is_wanted(alloc, first_word(timer_text(call)), line, view)? {
        return Ok(Actions::empty(alloc));
    }
    let line = Text::from_slice(alloc, line)?;
    one_line(alloc, Queue::Mode, line)
}
