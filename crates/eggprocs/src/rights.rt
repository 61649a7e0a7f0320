// Which callers may use a proc.
ghost use Rattle.std.specs.Prelude.{◌≡◌};
ghost use Rattle.eggprocs.specs.Rights.{is_pub, is_join, is_msg, is_timer, is_mode, is_change};
ghost use Rattle.eggprocs.specs.Rights.{flags_by, has_flag, has_master, has_op, has_bot, is_protected, is_op_of, is_bot_op, is_from_op, is_from_voice};
ghost use Rattle.eggprocs.specs.Rights.{global_by, is_master, standing_if, standing_of};

use crate::args::{channel_of, handle_of, mode_change};
use flagexpr::Flags;
use procs::{Call, CallKind, View};
use userfile::PersonFlags;

/// The flag of users who get op when they join a channel.
pub const AUTO_OP: u8 = b'a';

/// The flag of users who get voice when they join a channel.
pub const AUTO_VOICE: u8 = b'g';

/// The flag of a channel's operators. `MASTER` gives it, and so `OWNER` does too.
pub const OP: u8 = b'o';

/// The flag of users who may have voice.
pub const VOICE: u8 = b'v';

/// The flag of friends, whom bans spare.
pub const FRIEND: u8 = b'f';

/// The flag of masters, which gives `OP`.
pub const MASTER: u8 = b'm';

/// The flag of owners, which gives `MASTER`.
pub const OWNER: u8 = b'n';

/// The flag of users who are bots. It counts only if the user has it everywhere.
pub const BOT: u8 = b'b';

/// The standing of the person who says something to the bot.
#[derive(Clone, Copy, Debug)]
pub enum Requester {
    /// Nobody says anything to the bot: the call is for something else.
    Elsewhere,
    /// Somebody without the flags `m` and `n`.
    Stranger,
    /// Somebody with one of the flags `m` and `n`, everywhere.
    Master,
}

// Whether a call is for the first word of a text on a channel.
pub(crate) fn is_pub(kind: CallKind) -> bool
    ensures { result ≡ is_pub kind }
{
    matches!(kind, CallKind::Pub)
}

// Whether a call is for a join.
pub(crate) fn is_join(kind: CallKind) -> bool
    ensures { result ≡ is_join kind }
{
    matches!(kind, CallKind::Join)
}

// Whether a call is for the first word of a text to the bot.
pub(crate) fn is_msg(kind: CallKind) -> bool
    ensures { result ≡ is_msg kind }
{
    matches!(kind, CallKind::Msg)
}

// Whether a call is for a timer that is due.
pub(crate) fn is_timer(kind: CallKind) -> bool
    ensures { result ≡ is_timer kind }
{
    matches!(kind, CallKind::Timer)
}

// Whether a call is for a mode.
fn is_mode(kind: CallKind) -> bool
    ensures { result ≡ is_mode kind }
{
    matches!(kind, CallKind::Mode)
}

// Whether a call is for a mode that changes so, as +o.
pub(crate) fn is_change(change: &[u8], call: &Call) -> bool
    ensures { result ≡ is_change change.now call.now }
{
    is_mode(call.kind) && mode_change(call) == change
}

// The flags of the caller, with those on the call's channel.
pub(crate) fn flags_by(call: &Call, view: &View<'_>) -> PersonFlags
    ensures { result ≡ flags_by call.now view.now }
{
    view.userfile().flags_of(handle_of(call), channel_of(call))
}

// Whether a person has a flag, everywhere or on the channel.
pub(crate) fn has_flag(letter: u8, flags: &PersonFlags) -> bool
    ensures { result ≡ has_flag letter flags.now }
{
    flags.global.has(letter) || flags.chan.has(letter)
}

// Whether a person has the rights of a channel's master: one of the flags m and n.
pub(crate) fn has_master(flags: &PersonFlags) -> bool
    ensures { result ≡ has_master flags.now }
{
    has_flag(MASTER, flags) || has_flag(OWNER, flags)
}

// Whether a person has the rights of a channel's operator: one of the flags o, m and n.
pub(crate) fn has_op(flags: &PersonFlags) -> bool
    ensures { result ≡ has_op flags.now }
{
    has_flag(OP, flags) || has_master(flags)
}

// Whether a person is a bot by the userfile: the flag b, everywhere.
pub(crate) fn has_bot(flags: &PersonFlags) -> bool
    ensures { result ≡ has_bot flags.now }
{
    flags.global.has(BOT)
}

// Whether bans spare a person: an operator or a friend.
pub(crate) fn is_protected(flags: &PersonFlags) -> bool
    ensures { result ≡ is_protected flags.now }
{
    has_op(flags) || has_flag(FRIEND, flags)
}

// Whether the bot itself is an operator of the call's channel.
pub(crate) fn is_bot_op(call: &Call, view: &View<'_>) -> bool
    ensures { result ≡ is_bot_op call.now view.now }
{
    is_op_of(channel_of(call), view)
}

// Whether the bot itself is an operator of a channel.
pub(crate) fn is_op_of(channel: &[u8], view: &View<'_>) -> bool
    ensures { result ≡ is_op_of channel.now view.now }
{
    let channels = view.channels();
    channels.is_op(channel, channels.own_nick())
}

// Whether a call is a word on a channel on which the bot is an operator, and the caller has the rights of one.
pub(crate) fn is_from_op(call: &Call, view: &View<'_>) -> bool
    ensures { result ≡ is_from_op call.now view.now }
{
    is_pub(call.kind) && is_bot_op(call, view) && has_op(&flags_by(call, view))
}

// Whether a call is a word on a channel on which the bot is an operator, and the caller has the rights of one or the flag
// v.
pub(crate) fn is_from_voice(call: &Call, view: &View<'_>) -> bool
    ensures { result ≡ is_from_voice call.now view.now }
{
    let flags = flags_by(call, view);
    is_pub(call.kind) && is_bot_op(call, view) && (has_op(&flags) || has_flag(VOICE, &flags))
}

// The flags that the caller has everywhere.
fn global_by(call: &Call, view: &View<'_>) -> Flags
    ensures { result ≡ global_by call.now view.now }
{
    view.userfile().flags_of(handle_of(call), b"").global
}

// Whether the caller has one of the flags m and n everywhere.
fn is_master(call: &Call, view: &View<'_>) -> bool
    ensures { result ≡ is_master call.now view.now }
{
    let global = global_by(call, view);
    global.has(MASTER) || global.has(OWNER)
}

// The standing of the person who says something to the bot.
pub(crate) fn standing_of(call: &Call, view: &View<'_>) -> Requester
    ensures { result ≡ standing_of call.now view.now }
{
    standing_if(is_msg(call.kind), is_master(call, view))
}

fn standing_if(told: bool, master: bool) -> Requester
    ensures { result ≡ standing_if told master }
{
    if !told {
        Requester::Elsewhere
    } else if master {
        Requester::Master
    } else {
        Requester::Stranger
    }
}
