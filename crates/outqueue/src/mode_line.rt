// Lines that set or clear one mode of a channel.
ghost use Rattle.std.specs.Prelude.{◌≡◌};
ghost use Rattle.std.specs.List.{list_any};
ghost use Rattle.outqueue.specs.Joining.{channel_of, mode_of, argument_of, is_mode, is_argument, is_one_mode, is_about, goes_along};
ghost use Rattle.outqueue.specs.Joining.{added_by, room_after};
ghost use Rattle.outqueue.specs.Shares.{is_space};

use crate::limits::MAX_JOINED;
use bytetext::{after_word, first_word};
use rfccase::same;

// Returns the channel of `line`, the second word.
pub(crate) fn channel_of(line: &[u8]) -> &[u8]
    ensures { result.now ≡ channel_of line.now }
{
    first_word(after_word(line))
}

// Returns the third word of `line`, its mode if it sets one.
pub(crate) fn mode_of(line: &[u8]) -> &[u8]
    ensures { result.now ≡ mode_of line.now }
{
    first_word(after_word(after_word(line)))
}

// Returns what follows the mode.
pub(crate) fn argument_of(line: &[u8]) -> &[u8]
    ensures { result.now ≡ argument_of line.now }
{
    after_word(after_word(after_word(line)))
}

// Returns whether `line` is `MODE CHANNEL MODE ARGUMENT`, its mode one that has an argument on each server.
#[tactic(auto, unfolding(crate::specs::Joining::is_one_mode))]
pub(crate) fn is_one_mode(line: &[u8]) -> bool
    ensures { result ≡ is_one_mode line.now }
{
    first_word(line) == b"MODE".as_slice()
        && is_mode(mode_of(line))
        && is_argument(argument_of(line))
}

fn is_mode(mode: &[u8]) -> bool
    ensures { result ≡ is_mode mode.now }
{
    mode.len() == 2
        && (mode[0] == b'+' || mode[0] == b'-')
        && (mode[1] == b'b' || mode[1] == b'o' || mode[1] == b'v')
}

fn is_argument(argument: &[u8]) -> bool
    ensures { result ≡ is_argument argument.now }
{
    !argument.is_empty() && argument[0] != b':' && !has_space(argument)
}

fn has_space(text: &[u8]) -> bool
    ensures { result ≡ list_any is_space text.now }
{
    text.iter().any(|byte| *byte == b' ')
}

// Returns whether `line` is about `channel`, by the widest casemapping.
#[tactic(auto, unfolding(crate::specs::Joining::is_about))]
pub(crate) fn is_about(channel: &[u8], line: &[u8]) -> bool
    ensures { result ≡ is_about channel.now line.now }
{
    same(channel_of(line), channel)
}

// Returns whether `line` goes along with modes of `channel` that leave room for so many bytes.
#[tactic(auto, unfolding(crate::specs::Joining::goes_along))]
pub(crate) fn goes_along(channel: &[u8], room: usize, line: &[u8]) -> bool
    ensures { result ≡ goes_along channel.now room line.now }
{
    is_one_mode(line) && channel_of(line) == channel && added_by(line) <= room
}

// Returns how many bytes `line` adds to a MODE.
pub(crate) fn added_by(line: &[u8]) -> usize
    ensures { result ≡ added_by line.now }
{
    argument_of(line).len() + 3
}

// Returns how many bytes a MODE with `line` alone has room for.
pub(crate) fn room_after(line: &[u8]) -> usize
    ensures { result ≡ room_after line.now }
{
    (MAX_JOINED - 9)
        .saturating_sub(channel_of(line).len())
        .saturating_sub(argument_of(line).len())
}
