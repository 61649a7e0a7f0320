// What a line to the server does to a member of a channel.
ghost use Rattle.std.specs.Prelude.{◌≡◌};
ghost use Rattle.eggprocs.specs.Effects.{after_channel, channel_in, is_kick, target_in, effect_of, effect_in, is_ban, is_done};

use bytetext::{after_word, first_word};
use chanstate::Member;

/// What a line does to a member of a channel.
#[derive(Clone, Copy, Debug)]
pub enum LineEffect {
    /// `+o`: makes the member an operator.
    GiveOp,
    /// `-o`: the reverse.
    TakeOp,
    /// `+v`: gives the member voice.
    GiveVoice,
    /// `-v`: the reverse.
    TakeVoice,
    /// `+b`: bans a mask, under which the member is.
    Ban,
    /// Kicks the member.
    Kick,
    /// Anything else.
    Other,
}

// What follows a line's command and channel.
fn after_channel(line: &[u8]) -> &[u8]
    ensures { result.now ≡ after_channel line.now }
{
    after_word(after_word(line))
}

// The channel of a line.
pub(crate) fn channel_in(line: &[u8]) -> &[u8]
    ensures { result.now ≡ channel_in line.now }
{
    first_word(after_word(line))
}

// Whether a line is a kick.
fn is_kick(line: &[u8]) -> bool
    ensures { result ≡ is_kick line.now }
{
    first_word(line) == b"KICK".as_slice()
}

// The nick that a line is about.
pub(crate) fn target_in(line: &[u8]) -> &[u8]
    ensures { result.now ≡ target_in line.now }
{
    if is_kick(line) {
        first_word(after_channel(line))
    } else {
        first_word(after_word(after_channel(line)))
    }
}

// What a change of mode does.
fn effect_of(change: &[u8]) -> LineEffect
    ensures { result ≡ effect_of change.now }
{
    if change == b"+o".as_slice() {
        LineEffect::GiveOp
    } else if change == b"-o".as_slice() {
        LineEffect::TakeOp
    } else if change == b"+v".as_slice() {
        LineEffect::GiveVoice
    } else if change == b"-v".as_slice() {
        LineEffect::TakeVoice
    } else if change == b"+b".as_slice() {
        LineEffect::Ban
    } else {
        LineEffect::Other
    }
}

// What a line does.
pub(crate) fn effect_in(line: &[u8]) -> LineEffect
    ensures { result ≡ effect_in line.now }
{
    if is_kick(line) {
        LineEffect::Kick
    } else if first_word(line) == b"MODE".as_slice() {
        effect_of(first_word(after_channel(line)))
    } else {
        LineEffect::Other
    }
}

// Whether a line sets a ban.
pub(crate) fn is_ban(effect: LineEffect) -> bool
    ensures { result ≡ is_ban effect }
{
    matches!(effect, LineEffect::Ban)
}

// Whether a member shows that an effect is there already.
pub(crate) fn is_done(effect: LineEffect, member: &Member) -> bool
    ensures { result ≡ is_done effect member.now }
{
    match effect {
        LineEffect::GiveOp => member.op,
        LineEffect::TakeOp => !member.op,
        LineEffect::GiveVoice => member.voice,
        LineEffect::TakeVoice => !member.voice,
        LineEffect::Ban | LineEffect::Kick => false,
        LineEffect::Other => true,
    }
}
