// Who may ask for what.
ghost use Rattle.std.specs.Prelude.{◌≡◌};
ghost use Rattle.std.specs.List.{list_any};
ghost use Rattle.std.specs.Option.{option_copied};
ghost use Rattle.indexmap.specs.IndexMap.{values};
ghost use Rattle.userfile.specs.Persons.{flags_on};
ghost use Rattle.userfile.specs.Rights.{owns, is_guarded, operates, is_owner, is_master, is_op, is_self, is_of_guarded};
ghost use Rattle.userfile.specs.Rights.{owns_beside, is_last_owner, may_change, may_ask};

use crate::edit::Edit;
use crate::flags::PersonFlags;
use crate::texts::is_same;
use crate::user::User;
use crate::userfile::Userfile;
use flagexpr::Flags;
use indexmap::IndexMap;

/// The flag of operators, everywhere or on a channel.
pub const OP: u8 = b'o';

/// The flag of masters.
pub const MASTER: u8 = b'm';

/// The flag of owners.
pub const OWNER: u8 = b'n';

// Whether who asks, as one of the users, has the right to an edit.
pub(crate) fn may_ask(userfile: &Userfile, asker: Option<&User>, edit: &Edit) -> bool
    ensures { result ≡ may_ask userfile.now.users (option_copied asker.entry) edit.now }
{
    match edit {
        Edit::AddUser { handle }
        | Edit::AddHost { handle, .. }
        | Edit::DelHost { handle, .. }
        | Edit::SetChan { handle, .. }
        | Edit::SetBot { handle, .. } => {
            may_change(is_of_guarded(userfile, handle.as_bytes()), asker)
        }
        Edit::DelUser { handle } => {
            may_change(is_of_guarded(userfile, handle.as_bytes()), asker)
                && !is_last_owner(userfile, handle.as_bytes())
        }
        Edit::SetGlobal { handle, flags } => {
            may_change(
                is_guarded(*flags) || is_of_guarded(userfile, handle.as_bytes()),
                asker,
            ) && (owns(*flags) || !is_last_owner(userfile, handle.as_bytes()))
        }
        Edit::AddBan { channel, .. } | Edit::DelBan { channel, .. } => {
            is_op(channel.as_bytes(), asker)
        }
        Edit::SetInfo { handle, .. } => is_self(handle.as_bytes(), asker),
        Edit::SetSticky { .. } => is_master(asker),
    }
}

// Whether who asks may edit a user; some edits are for owners only.
fn may_change(for_owners: bool, asker: Option<&User>) -> bool
    ensures { result ≡ may_change for_owners (option_copied asker.entry) }
{
    if for_owners {
        is_owner(asker)
    } else {
        is_master(asker)
    }
}

// Whether the user with the handle is a master or an owner.
fn is_of_guarded(userfile: &Userfile, handle: &[u8]) -> bool
    ensures { result ≡ is_of_guarded userfile.now.users handle.now }
{
    is_guarded(userfile.flags_of(handle, b"").global)
}

// Whether the user with the handle is the only owner.
fn is_last_owner(userfile: &Userfile, handle: &[u8]) -> bool
    ensures { result ≡ is_last_owner userfile.now.users handle.now }
{
    owns(userfile.flags_of(handle, b"").global) && !userfile.has_owner_beside(handle)
}

// Whether one of the users is an owner and has another handle.
pub(crate) fn one_owns_beside(users: &IndexMap<Vec<u8>, User>, handle: &[u8]) -> bool
    ensures { result ≡ list_any (owns_beside handle.now) (values users.now) }
{
    users.values().any(|user| owns_beside(handle, user))
}

// Whether a user is an owner and has another handle.
fn owns_beside(handle: &[u8], user: &User) -> bool
    ensures { result ≡ owns_beside handle.now user.now }
{
    owns(user.global) && !is_same(handle, user.handle.as_bytes())
}

// Whether flags are those of an owner.
fn owns(flags: Flags) -> bool
    ensures { result ≡ owns flags }
{
    flags.has(OWNER)
}

// Whether flags are those of a master or an owner.
fn is_guarded(flags: Flags) -> bool
    ensures { result ≡ is_guarded flags }
{
    flags.has(MASTER) || owns(flags)
}

// Whether flags are those of an operator, a master or an owner.
fn operates(flags: Flags) -> bool
    ensures { result ≡ operates flags }
{
    flags.has(OP) || is_guarded(flags)
}

// Whether who asks is an owner.
fn is_owner(asker: Option<&User>) -> bool
    ensures { result ≡ is_owner (option_copied asker.entry) }
{
    owns(flags_on(asker, b"").global)
}

// Whether who asks is a master or an owner.
fn is_master(asker: Option<&User>) -> bool
    ensures { result ≡ is_master (option_copied asker.entry) }
{
    is_guarded(flags_on(asker, b"").global)
}

// Whether who asks is an operator, a master or an owner, everywhere or on the channel.
fn is_op(channel: &[u8], asker: Option<&User>) -> bool
    ensures { result ≡ is_op channel.now (option_copied asker.entry) }
{
    let flags = flags_on(asker, channel);
    operates(flags.global) || operates(flags.chan)
}

// Whether who asks is the user with the handle.
fn is_self(handle: &[u8], asker: Option<&User>) -> bool
    ensures { result ≡ is_self handle.now (option_copied asker.entry) }
{
    match asker {
        Some(user) => is_same(handle, user.handle.as_bytes()),
        None => false,
    }
}

// The flags of who asks, with those on a channel.
fn flags_on(asker: Option<&User>, channel: &[u8]) -> PersonFlags
    ensures { result ≡ flags_on channel.now (option_copied asker.entry) }
{
    match asker {
        Some(user) => PersonFlags::on(user, channel),
        None => PersonFlags::none(),
    }
}
