// The map of the users. Its keys are the lower cases of their handles.
ghost use Rattle.std.specs.Prelude.{◌≡◌, [], ◌∷◌, ◌++◌, not, true, false, None, OnOk, OnErr};
ghost use Rattle.std.specs.Option.{option_copied};
ghost use Rattle.rfccase.specs.Casemapping.{is_same};
ghost use Rattle.userfile.specs.Apply.{new_user, with_mask};
ghost use Rattle.userfile.specs.UserEdits.{edited, is_of_masks};
ghost use Rattle.userfile.specs.Index.{IsIndexOf};
ghost use Rattle.userfile.specs.declared.index.TailIndex.{TailIndex};
ghost use Rattle.userfile.specs.Held.{user_of, users_without, with_user};
ghost use Rattle.userfile.specs.Shapes.{is_handle};
ghost use Rattle.userfile.specs.Keys.{IsKeyed};
ghost use Rattle.indexmap.specs.IndexMap.{values};

use crate::hostmask::Hostmask;
use crate::limits::MAX_HANDLE;
use crate::texts::is_same;
use crate::user::User;
use crate::user_edits::{UserEdit, give_mask, make_edit};
use bytetext::{NoMemory, Text, TryCopy};
use indexmap::IndexMap;
use rfccase::{ShortFold, fold_text};
use std::alloc::Global;

// The user with this handle.
pub(crate) fn find_user<'a>(users: &'a IndexMap<Vec<u8>, User>, handle: &[u8]) -> Option<&'a User>
    requires { IsKeyed users.now.entries }
    ensures { option_copied result ≡ user_of handle.now (values users.now) }
{
    match ShortFold::<MAX_HANDLE>::new(handle) {
        Some(lower) => users.get(lower.as_bytes()),
        None => None,
    }
}

// Adds a user with a handle that no other user has.
pub(crate) fn add_user(
    users: &mut IndexMap<Vec<u8>, User>,
    alloc: Global,
    handle: &Text,
) -> Result<(), NoMemory>
    requires keyed { IsKeyed users.old.entries }
    requires good { is_handle handle.now ≡ true }
    requires absent { user_of handle.now (values users.old) ≡ None }
    ensures keyed { IsKeyed users.new.entries }
    ensures ok { OnOk result (values users.new ≡ values users.old ++ new_user handle.now ∷ []) }
    ensures index { (index : TailIndex) → IsIndexOf index (values users.old) → IsIndexOf index (values users.new) }
    ensures err { OnErr result (values users.new ≡ values users.old) }
{
    let key = fold_text(alloc, handle.as_bytes())?;
    let user = User::new(alloc, handle.copy(alloc)?);
    users.insert(key, user)?;
    Ok(())
}

// Removes the user with the handle, and keeps the others in their order.
pub(crate) fn keep_other_users(users: &mut IndexMap<Vec<u8>, User>, handle: &[u8])
    requires { IsKeyed users.old.entries }
    ensures keyed { IsKeyed users.new.entries }
    ensures kept { values users.new ≡ users_without handle.now (values users.old) }
{
    users.retain(
        |_key: &Vec<u8>, user: &mut User| -> bool
            ensures { (result ≡ not (is_same handle.entry.now user.old.handle)) × (user.new ≡ user.old) }
        { !is_same(handle, user.handle.as_bytes()) },
    );
}

// Makes an edit of the user with the handle.
pub(crate) fn edit_user(users: &mut IndexMap<Vec<u8>, User>, handle: &[u8], edit: UserEdit<'_>)
    requires keyed { IsKeyed users.old.entries }
    ensures keyed { IsKeyed users.new.entries }
    ensures edited { values users.new ≡ with_user handle.now (edited edit.entry) (values users.old) }
    ensures index { (index : TailIndex) → is_of_masks edit.entry ≡ false → IsIndexOf index (values users.old) → IsIndexOf index (values users.new) }
{
    if let Some(lower) = ShortFold::<MAX_HANDLE>::new(handle) {
        if let Some(user) = users.get_mut(lower.as_bytes()) {
            make_edit(user, edit);
        }
    }
}

// Appends a hostmask to those of the user with the handle.
pub(crate) fn push_mask(
    users: &mut IndexMap<Vec<u8>, User>,
    handle: &[u8],
    mask: Hostmask,
) -> Result<(), NoMemory>
    requires keyed { IsKeyed users.old.entries }
    ensures keyed { IsKeyed users.new.entries }
    ensures ok { OnOk result (values users.new ≡ with_user handle.now (with_mask mask) (values users.old)) }
    ensures err { OnErr result (values users.new ≡ values users.old) }
{
    let Some(lower) = ShortFold::<MAX_HANDLE>::new(handle) else {
        return Ok(());
    };
    match users.get_mut(lower.as_bytes()) {
        Some(user) => give_mask(user, mask),
        None => Ok(()),
    }
}
