// The proc that ends the bot's own bans on a channel.
ghost use Rattle.std.specs.Prelude.{◌≡◌, IfOk};
ghost use Rattle.eggprocs.specs.Dynamic.{is_sticky, later_lift, asked_by_dynamicbans};

use crate::args::{channel_of, mode_argument};
use crate::keeping::{is_by_bot, is_change_here};
use bytetext::{NoMemory, Text};
use procs::{Action, Actions, Call, TimerWish, View};
use std::alloc::Global;

/// How many seconds after the bot sets a ban on a channel `dynamicbans` has it removed there: an hour.
pub const DYNAMIC_SECONDS: u32 = 3_600;

// What `dynamicbans` requests: a later end of a ban that the bot itself sets on a channel, unless it is sticky.
pub(crate) fn asked_by_dynamicbans(
    alloc: Global,
    call: &Call,
    view: &View<'_>,
) -> Result<Actions, NoMemory>
    ensures { IfOk result (λ actions. actions ≡ asked_by_dynamicbans call.now view.now) }
{
    if !(is_change_here(b"+b", call, view) && is_by_bot(call, view)) {
        return Ok(Actions::empty(alloc));
    }
    let Some(second) = view.second() else {
        return Ok(Actions::empty(alloc));
    };
    if is_sticky(second, call, view) {
        return Ok(Actions::empty(alloc));
    }
    let lift = later_lift(alloc, call)?;
    Actions::one(alloc, lift)
}

// Whether the records have a sticky ban of the mask of a change.
fn is_sticky(second: u64, call: &Call, view: &View<'_>) -> bool
    ensures { result ≡ is_sticky second call.now view.now }
{
    let mapping = view.channels().casemapping();
    view.userfile()
        .sticky_ban(mapping, channel_of(call), mode_argument(call), second)
        .is_some()
}

// A call of `lift` with the channel and the mask, after an hour.
fn later_lift(alloc: Global, call: &Call) -> Result<Action, NoMemory>
    ensures { IfOk result (λ action. action ≡ later_lift call.now) }
{
    let proc = Text::from_slice(alloc, b"lift")?;
    let mut text = Vec::from_slice(alloc, channel_of(call))?;
    text.extend_from_slice(b" ")?;
    text.extend_from_slice(mode_argument(call))?;
    let text = Text::new(text);
    Ok(Action::Utimer(TimerWish {
        interval: DYNAMIC_SECONDS,
        count: 1,
        proc,
        text,
    }))
}
