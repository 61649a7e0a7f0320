// The properties of a kind of bind.
ghost use Rattle.std.specs.Prelude.{◌≡◌, ◌<◌};
ghost use Rattle.procs.specs.Kinds.{place_of, is_kind, is_single, is_cron, has_flags};

use crate::bind_kind::BindKind;

// The number of kinds.
pub(crate) const KINDS: usize = 17;

// Returns the number of a kind.
pub(crate) fn place_of(kind: BindKind) -> usize
    ensures place { result ≡ place_of kind }
    ensures within { result < KINDS }
{
    match kind {
        BindKind::Raw => 0,
        BindKind::Msg => 1,
        BindKind::Msgm => 2,
        BindKind::Notc => 3,
        BindKind::Pub => 4,
        BindKind::Pubm => 5,
        BindKind::Join => 6,
        BindKind::Part => 7,
        BindKind::Sign => 8,
        BindKind::Kick => 9,
        BindKind::Nick => 10,
        BindKind::Mode => 11,
        BindKind::Topc => 12,
        BindKind::Account => 13,
        BindKind::Bot => 14,
        BindKind::Time => 15,
        BindKind::Cron => 16,
    }
}

// Whether two kinds are equal.
pub(crate) fn is_kind(a: BindKind, b: BindKind) -> bool
    ensures { result ≡ is_kind a b }
{
    place_of(a) == place_of(b)
}

// Whether a keyword has at most one bind.
pub(crate) fn is_single(kind: BindKind) -> bool
    ensures { result ≡ is_single kind }
{
    match kind {
        BindKind::Msg | BindKind::Pub | BindKind::Bot => true,
        BindKind::Raw
        | BindKind::Msgm
        | BindKind::Notc
        | BindKind::Pubm
        | BindKind::Join
        | BindKind::Part
        | BindKind::Sign
        | BindKind::Kick
        | BindKind::Nick
        | BindKind::Mode
        | BindKind::Topc
        | BindKind::Account
        | BindKind::Time
        | BindKind::Cron => false,
    }
}

// Whether the mask of a bind is cron fields.
pub(crate) fn is_cron(kind: BindKind) -> bool
    ensures { result ≡ is_cron kind }
{
    match kind {
        BindKind::Cron => true,
        BindKind::Raw
        | BindKind::Msg
        | BindKind::Msgm
        | BindKind::Notc
        | BindKind::Pub
        | BindKind::Pubm
        | BindKind::Join
        | BindKind::Part
        | BindKind::Sign
        | BindKind::Kick
        | BindKind::Nick
        | BindKind::Mode
        | BindKind::Topc
        | BindKind::Account
        | BindKind::Bot
        | BindKind::Time => false,
    }
}

// Whether the flags of a bind matter.
pub(crate) fn has_flags(kind: BindKind) -> bool
    ensures { result ≡ has_flags kind }
{
    match kind {
        BindKind::Msg
        | BindKind::Msgm
        | BindKind::Notc
        | BindKind::Pub
        | BindKind::Pubm
        | BindKind::Join
        | BindKind::Part
        | BindKind::Sign
        | BindKind::Kick
        | BindKind::Nick
        | BindKind::Mode
        | BindKind::Topc
        | BindKind::Account => true,
        BindKind::Raw | BindKind::Bot | BindKind::Time | BindKind::Cron => false,
    }
}
