// The procs that use nothing but their call.
ghost use Rattle.std.specs.Prelude.{◌≡◌, IfOk};
ghost use Rattle.eggprocs.specs.Basics.{asked_by_adduser, asked_by_echo, asked_by_tick, asked_by_tell, is_command, place_of};

use crate::args::{arg_at, last_of};
use crate::lines::privmsg;
use bytetext::{NoMemory, Text};
use outqueue::Queue;
use procs::{Action, Actions, BotWish, Call, CallKind, PutWish, TimerWish};
use std::alloc::Global;
use userfile::{Change, Edit};

// What `adduser` requests: a user whose handle is the text after the command. The bind's flags say who may, so the
// request is in nobody's name.
pub(crate) fn asked_by_adduser(alloc: Global, call: &Call) -> Result<Actions, NoMemory>
    ensures { IfOk result (λ actions. actions ≡ asked_by_adduser call.now) }
{
    if !is_command(call.kind) {
        return Ok(Actions::empty(alloc));
    }
    let handle = Text::from_slice(alloc, last_of(call.args.as_slice()))?;
    let change = Change::by_nobody(Edit::AddUser { handle });
    Actions::one(alloc, Action::Ask(change))
}

// What `tick` requests: one call of `quiet` after ten seconds.
pub(crate) fn asked_by_tick(alloc: Global) -> Result<Actions, NoMemory>
    ensures { IfOk result (λ actions. actions ≡ asked_by_tick) }
{
    let proc = Text::from_slice(alloc, b"quiet")?;
    let text = Text::empty(alloc);
    let wish = TimerWish {
        interval: 10,
        count: 1,
        proc,
        text,
    };
    Actions::one(alloc, Action::Utimer(wish))
}

// What `tell` requests: that the bot sends the text after the command to the hub.
pub(crate) fn asked_by_tell(alloc: Global, call: &Call) -> Result<Actions, NoMemory>
    ensures { IfOk result (λ actions. actions ≡ asked_by_tell call.now) }
{
    if !is_command(call.kind) {
        return Ok(Actions::empty(alloc));
    }
    let text = Text::from_slice(alloc, last_of(call.args.as_slice()))?;
    Actions::one(alloc, Action::SendBot(BotWish { to: 0, text }))
}

// What `echo` requests: that the bot repeats what the caller said, where the caller said it.
pub(crate) fn asked_by_echo(alloc: Global, call: &Call) -> Result<Actions, NoMemory>
    ensures { IfOk result (λ actions. actions ≡ asked_by_echo call.now) }
{
    let Some(place) = place_of(call.kind) else {
        return Ok(Actions::empty(alloc));
    };
    let args = call.args.as_slice();
    let line = privmsg(alloc, arg_at(args, place), last_of(args))?;
    let queue = Queue::Help;
    Actions::one(alloc, Action::Put(PutWish { queue, line }))
}

// Which argument says where to repeat a text: the channel, or the nick that said it privately.
fn place_of(kind: CallKind) -> Option<usize>
    ensures { result ≡ place_of kind }
{
    match kind {
        CallKind::Pub | CallKind::Pubm => Some(3),
        CallKind::Msg | CallKind::Msgm => Some(0),
        CallKind::Raw
        | CallKind::Notc
        | CallKind::Join
        | CallKind::Part
        | CallKind::Sign
        | CallKind::Kick
        | CallKind::Nick
        | CallKind::Mode
        | CallKind::Topc
        | CallKind::Account
        | CallKind::Bot
        | CallKind::Time
        | CallKind::Cron
        | CallKind::Timer => None,
    }
}

// Whether the last argument of this kind is the text after a first word.
pub(crate) fn is_command(kind: CallKind) -> bool
    ensures { result ≡ is_command kind }
{
    matches!(kind, CallKind::Msg | CallKind::Pub)
}
