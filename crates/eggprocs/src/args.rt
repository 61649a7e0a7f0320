// The arguments of a call.
ghost use Rattle.std.specs.Prelude.{◌≡◌};
ghost use Rattle.eggprocs.specs.Args.{arg_at, last_of, nick_of, handle_of, channel_of, said_of, mode_change, mode_argument, timer_text, told_of, or_else};

use bytetext::Text;
use procs::Call;

// The argument at a place, or the empty text if there is none.
pub(crate) fn arg_at(args: &[Text], place: usize) -> &[u8]
    ensures { result.now ≡ arg_at args.now place }
{
    match args.get(place) {
        Some(arg) => arg.as_bytes(),
        None => b"",
    }
}

// The last argument.
pub(crate) fn last_of(args: &[Text]) -> &[u8]
    ensures { result.now ≡ last_of args.now }
{
    match args.last() {
        Some(last) => last.as_bytes(),
        None => b"",
    }
}

// The nick of the caller, who says or does something.
pub(crate) fn nick_of(call: &Call) -> &[u8]
    ensures { result.now ≡ nick_of call.now }
{
    arg_at(call.args.as_slice(), 0)
}

// The handle of the caller.
pub(crate) fn handle_of(call: &Call) -> &[u8]
    ensures { result.now ≡ handle_of call.now }
{
    arg_at(call.args.as_slice(), 2)
}

// The channel on which something is said or done.
pub(crate) fn channel_of(call: &Call) -> &[u8]
    ensures { result.now ≡ channel_of call.now }
{
    arg_at(call.args.as_slice(), 3)
}

// What the caller says on a channel after the command's word.
pub(crate) fn said_of(call: &Call) -> &[u8]
    ensures { result.now ≡ said_of call.now }
{
    arg_at(call.args.as_slice(), 4)
}

// A change of mode as its sign and letter, such as +o.
pub(crate) fn mode_change(call: &Call) -> &[u8]
    ensures { result.now ≡ mode_change call.now }
{
    arg_at(call.args.as_slice(), 4)
}

// The argument of a change of mode: a nick or a mask.
pub(crate) fn mode_argument(call: &Call) -> &[u8]
    ensures { result.now ≡ mode_argument call.now }
{
    arg_at(call.args.as_slice(), 5)
}

// A timer's text.
pub(crate) fn timer_text(call: &Call) -> &[u8]
    ensures { result.now ≡ timer_text call.now }
{
    arg_at(call.args.as_slice(), 0)
}

// What the caller says to the bot after the command's word.
pub(crate) fn told_of(call: &Call) -> &[u8]
    ensures { result.now ≡ told_of call.now }
{
    arg_at(call.args.as_slice(), 3)
}

// A text, or another one if it is empty.
pub(crate) fn or_else<'a>(text: &'a [u8], other: &'a [u8]) -> &'a [u8]
    ensures { result.now ≡ or_else text.now other.now }
{
    if text.is_empty() { other } else { text }
}
