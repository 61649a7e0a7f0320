// What binds and procs see of an event of a message.
ghost use Rattle.std.specs.Prelude.{◌≡◌, IfOk};
ghost use Rattle.procs.specs.Heard.{kind_of, is_personal, call_by};

use crate::bind_kind::BindKind;
use crate::call::Call;
use bytetext::{NoMemory, Text, Texts, copies_of};
use chanstate::{EventKind, IrcEvent};
use std::alloc::Global;

// Returns the kind under which binds know an event.
pub(crate) fn kind_of(kind: EventKind) -> BindKind
    ensures { result ≡ kind_of kind }
{
    match kind {
        EventKind::Raw => BindKind::Raw,
        EventKind::Msg => BindKind::Msg,
        EventKind::Msgm => BindKind::Msgm,
        EventKind::Notc => BindKind::Notc,
        EventKind::Pub => BindKind::Pub,
        EventKind::Pubm => BindKind::Pubm,
        EventKind::Join => BindKind::Join,
        EventKind::Part => BindKind::Part,
        EventKind::Sign => BindKind::Sign,
        EventKind::Kick => BindKind::Kick,
        EventKind::Nick => BindKind::Nick,
        EventKind::Mode => BindKind::Mode,
        EventKind::Topc => BindKind::Topc,
        EventKind::Account => BindKind::Account,
    }
}

// Whether an event is by somebody.
pub(crate) fn is_personal(kind: EventKind) -> bool
    ensures { result ≡ is_personal kind }
{
    match kind {
        EventKind::Raw => false,
        EventKind::Msg
        | EventKind::Msgm
        | EventKind::Notc
        | EventKind::Pub
        | EventKind::Pubm
        | EventKind::Join
        | EventKind::Part
        | EventKind::Sign
        | EventKind::Kick
        | EventKind::Nick
        | EventKind::Mode
        | EventKind::Topc
        | EventKind::Account => true,
    }
}

// Returns the call of procs for an event by this handle.
pub(crate) fn call_by(alloc: Global, handle: &[u8], event: &IrcEvent) -> Result<Call, NoMemory>
    ensures { IfOk result (λ call. call ≡ call_by handle.now event.now) }
{
    let mut args = copies_of(alloc, event.arguments.as_slice())?;
    if is_personal(event.kind) && args.len() >= 2 {
        args.insert(2, Text::from_slice(alloc, handle)?)?;
    }
    Ok(Call {
        kind: kind_of(event.kind).kind(),
        args: Texts::new(args),
    })
}
