// The procs that keep order on a channel.
ghost use Rattle.std.specs.Prelude.{◌≡◌, ◌∷◌, [], IfOk};
ghost use Rattle.std.specs.Option.{option_copied};
ghost use Rattle.eggprocs.specs.Channel.{put, target_of, asked_for_mode, change_for, asked_by_autoop, asked_by_kick, asked_by_topic, asked_by_invite};

use crate::args::{channel_of, nick_of, or_else, said_of};
use crate::lines::{invite, kick, mode, topic};
use crate::rights::{AUTO_OP, AUTO_VOICE, flags_by, has_flag, is_bot_op, is_join};
use bytetext::{NoMemory, Text, after_word, first_word};
use outqueue::Queue;
use procs::{Action, Actions, Call, PutWish, View, starts_with_word};
use std::alloc::Global;
use userfile::PersonFlags;

// One line for the server, and no other action.
pub(crate) fn one_line(alloc: Global, queue: Queue, line: Text) -> Result<Actions, NoMemory>
    ensures { IfOk result (λ actions. actions ≡ put queue line ∷ []) }
{
    Actions::one(alloc, Action::Put(PutWish { queue, line }))
}

// The nick that a command is about.
fn target_of(call: &Call) -> &[u8]
    ensures { result.now ≡ target_of call.now }
{
    or_else(first_word(said_of(call)), nick_of(call))
}

// What `op`, `deop`, `voice` and `devoice` request: a mode for the nick that the command is about.
pub(crate) fn asked_for_mode(
    alloc: Global,
    may: bool,
    change: &[u8],
    call: &Call,
) -> Result<Actions, NoMemory>
    ensures { IfOk result (λ actions. actions ≡ asked_for_mode may change.now call.now) }
{
    if !may {
        return Ok(Actions::empty(alloc));
    }
    let line = mode(alloc, channel_of(call), change, target_of(call))?;
    one_line(alloc, Queue::Mode, line)
}

// The mode that `autoop` gives to a person with these flags.
fn change_for(flags: &PersonFlags) -> Option<&'static [u8]>
    ensures { option_copied result ≡ change_for flags.now }
{
    if has_flag(AUTO_OP, flags) {
        Some(b"+o")
    } else if has_flag(AUTO_VOICE, flags) {
        Some(b"+v")
    } else {
        None
    }
}

// What `autoop` requests: op or voice for the person who joins.
pub(crate) fn asked_by_autoop(
    alloc: Global,
    call: &Call,
    view: &View<'_>,
) -> Result<Actions, NoMemory>
    ensures { IfOk result (λ actions. actions ≡ asked_by_autoop call.now view.now) }
{
    if !(is_join(call.kind) && is_bot_op(call, view)) {
        return Ok(Actions::empty(alloc));
    }
    let Some(change) = change_for(&flags_by(call, view)) else {
        return Ok(Actions::empty(alloc));
    };
    let line = mode(alloc, channel_of(call), change, nick_of(call))?;
    one_line(alloc, Queue::Mode, line)
}

// What `kick` requests: a kick of the nick that the text names, for the reason that follows it.
pub(crate) fn asked_by_kick(alloc: Global, may: bool, call: &Call) -> Result<Actions, NoMemory>
    ensures { IfOk result (λ actions. actions ≡ asked_by_kick may call.now) }
{
    let text = said_of(call);
    if !(may && starts_with_word(text)) {
        return Ok(Actions::empty(alloc));
    }
    let reason = or_else(after_word(text), b"request");
    let line = kick(alloc, channel_of(call), first_word(text), reason)?;
    one_line(alloc, Queue::Mode, line)
}

// What `topic` requests: the text as the topic.
pub(crate) fn asked_by_topic(alloc: Global, may: bool, call: &Call) -> Result<Actions, NoMemory>
    ensures { IfOk result (λ actions. actions ≡ asked_by_topic may call.now) }
{
    let text = said_of(call);
    if !(may && starts_with_word(text)) {
        return Ok(Actions::empty(alloc));
    }
    let line = topic(alloc, channel_of(call), text)?;
    one_line(alloc, Queue::Server, line)
}

// What `invite` requests: an invitation for the nick that the text names.
pub(crate) fn asked_by_invite(alloc: Global, may: bool, call: &Call) -> Result<Actions, NoMemory>
    ensures { IfOk result (λ actions. actions ≡ asked_by_invite may call.now) }
{
    let text = said_of(call);
    if !(may && starts_with_word(text)) {
        return Ok(Actions::empty(alloc));
    }
    let line = invite(alloc, first_word(text), channel_of(call))?;
    one_line(alloc, Queue::Server, line)
}
