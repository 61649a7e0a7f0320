// The proc that undoes the change of a mode.
ghost use Rattle.std.specs.Prelude.{◌≡◌, IfOk};
ghost use Rattle.eggprocs.specs.Modes.{other_sign, has_plain_reverse, plain_reverse, sets_key, key_undone, asked_by_keepmodes};

use crate::args::{channel_of, mode_argument, mode_change};
use crate::channel::one_line;
use crate::keeping::is_change_by_untrusted;
use crate::lines::{mode, plain_mode};
use bytetext::NoMemory;
use chanstate::Support;
use outqueue::Queue;
use procs::{Actions, Call, View};
use std::alloc::Global;

// What `keepmodes` requests: the reverse of a change that somebody makes who is no master and no bot.
pub(crate) fn asked_by_keepmodes(
    alloc: Global,
    call: &Call,
    view: &View<'_>,
) -> Result<Actions, NoMemory>
    ensures { IfOk result (λ actions. actions ≡ asked_by_keepmodes call.now view.now) }
{
    if !is_change_by_untrusted(mode_change(call), call, view) {
        return Ok(Actions::empty(alloc));
    }
    let support = view.channels().support();
    let Some(change) = plain_reverse(support, mode_change(call)) else {
        return key_undone(alloc, sets_key(support, mode_change(call)), call);
    };
    let line = plain_mode(alloc, channel_of(call), &change)?;
    one_line(alloc, Queue::Mode, line)
}

// The end of the key that a change sets, if it sets one.
fn key_undone(alloc: Global, key: bool, call: &Call) -> Result<Actions, NoMemory>
    ensures { IfOk result (λ actions. actions ≡ key_undone key call.now) }
{
    if !key {
        return Ok(Actions::empty(alloc));
    }
    let line = mode(alloc, channel_of(call), b"-k", mode_argument(call))?;
    one_line(alloc, Queue::Mode, line)
}

// The other sign.
fn other_sign(sign: u8) -> u8
    ensures { result ≡ other_sign sign }
{
    if sign == b'+' { b'-' } else { b'+' }
}

// Whether a change is a sign and the letter of a mode, and its reverse has no argument.
fn has_plain_reverse(support: &Support, change: &[u8]) -> bool
    ensures { result ≡ has_plain_reverse support.now change.now }
{
    change.len() == 2 && !support.takes_argument(other_sign(change[0]) == b'+', change[1])
}

// Whether a change sets the key of a channel, and the key is named again to clear it.
fn sets_key(support: &Support, change: &[u8]) -> bool
    ensures { result ≡ sets_key support.now change.now }
{
    change == b"+k".as_slice() && support.takes_argument(false, b'k') && !support.is_rank(b'k')
}

// The change that undoes a change, if it has no argument.
fn plain_reverse(support: &Support, change: &[u8]) -> Option<[u8; 2]>
    ensures { result ≡ plain_reverse support.now change.now }
{
    if has_plain_reverse(support, change) {
        Some([other_sign(change[0]), change[1]])
    } else {
        None
    }
}
