// The proc that leaves a channel without operators and joins it again.
ghost use Rattle.std.specs.Prelude.{◌≡◌, IfOk};
ghost use Rattle.std.specs.List.{list_all};
ghost use Rattle.std.specs.Option.{option_copied};
ghost use Rattle.eggprocs.specs.Cycling.{leaver_of, is_made_again, lacks_op, is_self_or, is_left_alone, asked_by_cycle};

use crate::args::{arg_at, channel_of, nick_of};
use crate::everyone::is_own_nick;
use crate::keeping::is_self;
use crate::lines::{join, part};
use crate::pairs::two;
use bytetext::NoMemory;
use chanstate::Member;
use outqueue::Queue;
use procs::{Action, Actions, Call, CallKind, PutWish, View};
use rfccase::same_by;
use std::alloc::Global;

// What `cycle` requests: to leave and join again a channel on which the bot is left alone, and is no operator.
pub(crate) fn asked_by_cycle(
    alloc: Global,
    call: &Call,
    view: &View<'_>,
) -> Result<Actions, NoMemory>
    ensures { IfOk result (λ actions. actions ≡ asked_by_cycle call.now view.now) }
{
    let Some(leaver) = leaver_of(call) else {
        return Ok(Actions::empty(alloc));
    };
    let channel = channel_of(call);
    if !(is_made_again(channel) && is_left_alone(alloc, leaver, call, view)?) {
        return Ok(Actions::empty(alloc));
    }
    let queue = Queue::Server;
    let line = part(alloc, channel)?;
    let leaves = Action::Put(PutWish { queue, line });
    let line = join(alloc, channel)?;
    let joins = Action::Put(PutWish { queue, line });
    two(alloc, leaves, joins)
}

// The nick that leaves a channel, if a call is for somebody who leaves one.
fn leaver_of(call: &Call) -> Option<&[u8]>
    ensures { option_copied result ≡ leaver_of call.now }
{
    match call.kind {
        CallKind::Part | CallKind::Sign => Some(nick_of(call)),
        CallKind::Kick => Some(arg_at(call.args.as_slice(), 4)),
        CallKind::Raw
        | CallKind::Msg
        | CallKind::Msgm
        | CallKind::Notc
        | CallKind::Pub
        | CallKind::Pubm
        | CallKind::Join
        | CallKind::Nick
        | CallKind::Mode
        | CallKind::Topc
        | CallKind::Account
        | CallKind::Bot
        | CallKind::Time
        | CallKind::Cron
        | CallKind::Timer => None,
    }
}

// Whether who joins a channel of this name first gets op, once it has ceased.
fn is_made_again(channel: &[u8]) -> bool
    ensures { result ≡ is_made_again channel.now }
{
    channel.is_empty() || !(channel[0] == b'+' || channel[0] == b'!')
}

// Whether a member, if there is one, is no operator.
pub(crate) fn lacks_op(member: Option<&Member>) -> bool
    ensures { result ≡ lacks_op (option_copied member.entry) }
{
    match member {
        Some(member) => !member.op,
        None => false,
    }
}

// Whether the bot, which is no operator, is left alone on a channel by this nick.
fn is_left_alone(
    alloc: Global,
    leaver: &[u8],
    call: &Call,
    view: &View<'_>,
) -> Result<bool, NoMemory>
    ensures { IfOk result (λ alone. alone ≡ is_left_alone leaver.now call.now view.now) }
{
    let channels = view.channels();
    let own = channels.member(channel_of(call), channels.own_nick());
    if is_own_nick(view, leaver) || !lacks_op(own) {
        return Ok(false);
    }
    let members = channels.members(alloc, channel_of(call))?;
    Ok(are_self_or(leaver, view, members.as_slice()))
}

// Whether each of these members is the bot itself, or has the nick that leaves.
fn are_self_or(leaver: &[u8], view: &View<'_>, members: &[Member]) -> bool
    ensures { result ≡ list_all (is_self_or leaver.now view.now) members.now }
{
    members
        .iter()
        .all(|member| is_self_or(leaver, view, member))
}

// Whether a member is the bot itself, or has the nick that leaves.
pub(crate) fn is_self_or(leaver: &[u8], view: &View<'_>, member: &Member) -> bool
    ensures { result ≡ is_self_or leaver.now view.now member.now }
{
    is_self(view, member)
        || same_by(
            view.channels().casemapping(),
            leaver,
            member.nick.as_bytes(),
        )
}
