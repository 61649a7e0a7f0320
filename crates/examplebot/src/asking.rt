// What procs read of a call and a view, and the actions that they ask for, in the words of `specs/Asking.antt`.
ghost use Rattle.std.specs.Prelude.{◌≡◌, ◌≤◌, length, map, IfOk};
ghost use Rattle.std.specs.List.{concat};
ghost use Rattle.examplebot.specs.Asking.{arg_at, ban, channel_of, handle_of, has_o, is_op, mask_of, nick_of, put, put_after, put_later, second_after};

use bytetext::{MOMENTS_END, NoMemory, Text};
use outqueue::Queue;
use procs::{Action, Actions, Call, PutWish, TimerWish, View};
use std::alloc::Global;
use userfile::{Change, Edit};

// Returns the call's argument at `place`, or the empty text if it has none there.
pub(crate) fn arg_at(call: &Call, place: usize) -> &[u8]
    ensures { result.now ≡ arg_at call.now place }
{
    match call.args.as_slice().get(place) {
        Some(arg) => arg.as_bytes(),
        None => b"",
    }
}

// Returns the nick of the person who does or says something.
pub(crate) fn nick_of(call: &Call) -> &[u8]
    ensures { result.now ≡ nick_of call.now }
{
    arg_at(call, 0)
}

// Returns the handle of that person, `*` if unknown.
pub(crate) fn handle_of(call: &Call) -> &[u8]
    ensures { result.now ≡ handle_of call.now }
{
    arg_at(call, 2)
}

// Returns the channel on which it happens.
pub(crate) fn channel_of(call: &Call) -> &[u8]
    ensures { result.now ≡ channel_of call.now }
{
    arg_at(call, 3)
}

// Returns the mask of that person: any nick, and just this user and host.
pub(crate) fn mask_of(alloc: Global, call: &Call) -> Result<Text, NoMemory>
    ensures { IfOk result (λ mask. mask ≡ mask_of call.now) }
{
    text(alloc, &[b"*!", arg_at(call, 1)])
}

// Returns whether that person has the flag o, everywhere or on the channel.
pub(crate) fn has_o(call: &Call, view: &View<'_>) -> bool
    ensures { result ≡ has_o call.now view.now }
{
    let flags = view.userfile().flags_of(handle_of(call), channel_of(call));
    flags.global.has(b'o') || flags.chan.has(b'o')
}

// Returns whether that person has op on the channel.
pub(crate) fn is_op(call: &Call, view: &View<'_>) -> bool
    ensures { result ≡ is_op call.now view.now }
{
    view.channels().is_op(channel_of(call), nick_of(call))
}

// Returns the second that is `seconds` after that of the clock, or `None` before the clock's first reading.
pub(crate) fn second_after(view: &View<'_>, seconds: u32) -> Option<u64>
    ensures { result ≡ second_after seconds view.now.second }
{
    match view.second() {
        Some(second) if second < MOMENTS_END => Some(second + u64::from(seconds)),
        Some(_) | None => None,
    }
}

// Joins `parts`, one after another.
fn text(alloc: Global, parts: &[&[u8]]) -> Result<Text, NoMemory>
    ensures { IfOk result (λ text. text ≡ concat (map (λ part. part.now) parts.now)) }
{
    let mut text = Vec::new(alloc);
    for part in parts {
        text.extend_from_slice(part)?;
    }
    Ok(Text::new(text))
}

// Asks for a line to the server, made of `parts`, in `queue`.
pub(crate) fn put(alloc: Global, queue: Queue, parts: &[&[u8]]) -> Result<Action, NoMemory>
    ensures { IfOk result (λ action. action ≡ put queue (map (λ part. part.now) parts.now)) }
{
    let line = text(alloc, parts)?;
    Ok(Action::Put(PutWish { queue, line }))
}

// Asks for a line to the server, made of `parts`, in the mode queue, `seconds` later.
pub(crate) fn put_after(alloc: Global, seconds: u32, parts: &[&[u8]]) -> Result<Action, NoMemory>
    ensures { IfOk result (λ action. action ≡ put_after seconds (map (λ part. part.now) parts.now)) }
{
    let proc = Text::from_slice(alloc, b"put_later")?;
    let text = text(alloc, parts)?;
    Ok(Action::Utimer(TimerWish {
        interval: seconds,
        count: 1,
        proc,
        text,
    }))
}

// Returns what the proc `put_later` asks for: the line that is its timer's text.
pub(crate) fn put_later(alloc: Global, call: &Call) -> Result<Actions, NoMemory>
    ensures { IfOk result (λ actions. actions ≡ put_later call.now) }
{
    let line = put(alloc, Queue::Mode, &[arg_at(call, 0)])?;
    Ok(these(vec![in alloc; line]?))
}

// Asks in nobody's name for a ban in the records, made by `egg`, that ends at the second `expires`.
pub(crate) fn ban(
    alloc: Global,
    channel: &[u8],
    mask: &[u8],
    expires: u64,
    comment: &[u8],
) -> Result<Action, NoMemory>
    ensures { IfOk result (λ action. action ≡ ban channel.now mask.now expires comment.now) }
{
    let channel = Text::from_slice(alloc, channel)?;
    let mask = Text::from_slice(alloc, mask)?;
    let creator = Text::from_slice(alloc, b"egg")?;
    let comment = Text::from_slice(alloc, comment)?;
    Ok(Action::Ask(Change::by_nobody(Edit::AddBan {
        channel,
        mask,
        creator,
        expires,
        comment,
    })))
}

// Wraps `actions`, of which there are eight at most.
pub(crate) fn these(actions: Vec<Action>) -> Actions
    requires { length actions.items ≤ 8 }
    ensures { result ≡ actions.items }
{
    Actions::from_vec(actions).unwrap()
}
