// Which binds wait for messages of the server.
ghost use Rattle.std.specs.Prelude.{◌≡◌};
ghost use Rattle.procs.specs.Hearing.{is_of_messages, hear_messages};

use crate::bind_kind::BindKind;
use crate::held::Held;

// Whether one of these binds waits for messages.
pub(crate) fn hear_messages(held: &[Held]) -> bool
    ensures { result ≡ hear_messages held.now }
{
    held.iter().any(|one| is_of_messages(one.kind()))
}

// Whether a kind waits for messages.
fn is_of_messages(kind: BindKind) -> bool
    ensures { result ≡ is_of_messages kind }
{
    match kind {
        BindKind::Raw
        | BindKind::Msg
        | BindKind::Msgm
        | BindKind::Notc
        | BindKind::Pub
        | BindKind::Pubm
        | BindKind::Join
        | BindKind::Part
        | BindKind::Sign
        | BindKind::Kick
        | BindKind::Nick
        | BindKind::Mode
        | BindKind::Topc
        | BindKind::Account => true,
        BindKind::Bot | BindKind::Time | BindKind::Cron => false,
    }
}
