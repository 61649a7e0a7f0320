// The procs by which a bot of a net that is kept off a channel is let in by another one.
ghost use Rattle.std.specs.Prelude.{◌≡◌, IfOk};
ghost use Rattle.eggprocs.specs.Entries.{refuses_join, closed_channel, is_kept_out, needs_in, asked_by_needin, is_outside, may_let_in, asked_by_letin};

use crate::args::arg_at;
use crate::channel::one_line;
use crate::ctcp::{command_of, is_raw};
use crate::lines::invite;
use crate::needs::{is_bot_text, needed_by, needed_on};
use crate::rights::is_op_of;
use bytetext::{NoMemory, Text, after_word, first_word};
use outqueue::Queue;
use procs::{Action, Actions, BotWish, Call, View};
use std::alloc::Global;

// What `needin` requests: a text to the hub if the server refuses the bot's JOIN.
pub(crate) fn asked_by_needin(
    alloc: Global,
    call: &Call,
    view: &View<'_>,
) -> Result<Actions, NoMemory>
    ensures { IfOk result (λ actions. actions ≡ asked_by_needin call.now view.now) }
{
    if !is_kept_out(call) {
        return Ok(Actions::empty(alloc));
    }
    let text = needs_in(alloc, closed_channel(call), view)?;
    Actions::one(alloc, text)
}

// Whether a server refuses a JOIN by this numeric.
fn refuses_join(command: &[u8]) -> bool
    ensures { result ≡ refuses_join command.now }
{
    command == b"471".as_slice()
        || command == b"473".as_slice()
        || command == b"474".as_slice()
        || command == b"475".as_slice()
}

// The channel that a refusal names.
fn closed_channel(call: &Call) -> &[u8]
    ensures { result.now ≡ closed_channel call.now }
{
    first_word(after_word(arg_at(call.args.as_slice(), 2)))
}

// Whether a call is for a refusal that names a channel.
fn is_kept_out(call: &Call) -> bool
    ensures { result ≡ is_kept_out call.now }
{
    is_raw(call.kind) && refuses_join(command_of(call)) && !closed_channel(call).is_empty()
}

// The text that asks the hub to be let in.
fn needs_in(alloc: Global, channel: &[u8], view: &View<'_>) -> Result<Action, NoMemory>
    ensures { IfOk result (λ action. action ≡ needs_in channel.now view.now) }
{
    let mut text = Vec::from_slice(alloc, b"needin ")?;
    text.extend_from_slice(channel)?;
    text.extend_from_slice(b" ")?;
    text.extend_from_slice(view.channels().own_nick())?;
    let text = Text::new(text);
    Ok(Action::SendBot(BotWish { to: 0, text }))
}

// What `letin` requests: an invitation for the nick that a text of another bot names.
pub(crate) fn asked_by_letin(
    alloc: Global,
    call: &Call,
    view: &View<'_>,
) -> Result<Actions, NoMemory>
    ensures { IfOk result (λ actions. actions ≡ asked_by_letin call.now view.now) }
{
    if !may_let_in(call, view) {
        return Ok(Actions::empty(alloc));
    }
    let line = invite(alloc, needed_by(call), needed_on(call))?;
    one_line(alloc, Queue::Server, line)
}

// Whether nobody of the nick that a text names is on the channel that it names.
fn is_outside(call: &Call, view: &View<'_>) -> bool
    ensures { result ≡ is_outside call.now view.now }
{
    view.channels()
        .member(needed_on(call), needed_by(call))
        .is_none()
}

// Whether a text of another bot names a channel on which this bot is an operator, and a nick that is not there.
fn may_let_in(call: &Call, view: &View<'_>) -> bool
    ensures { result ≡ may_let_in call.now view.now }
{
    is_bot_text(call.kind)
        && is_op_of(needed_on(call), view)
        && !needed_by(call).is_empty()
        && is_outside(call, view)
}
