// The map of the users and the index of their hostmasks, changed together.
ghost use Rattle.std.specs.Prelude.{◌≡◌, ◌<◌, ◌≤◌, false, length, IfErr, IfOk, OnOk, OnErr, List, Some};
ghost use Rattle.std.specs.List.{position_from};
ghost use Rattle.rfccase.specs.Casemapping.{is_same};
ghost use Rattle.indexmap.specs.IndexMap.{values};
ghost use Rattle.userfile.specs.Apply.{with_mask, without_mask};
ghost use Rattle.userfile.specs.Held.{users_without, with_user};
ghost use Rattle.userfile.specs.Hostmasks.{mask_tail};
ghost use Rattle.userfile.specs.Index.{listing_of, masks_at, IsUnder, AreUnder, Covers, Keeps, Names, NamesBut, IsIndexOf, AddsOnly, AddsNothing};
ghost use Rattle.userfile.specs.declared.user.User.{User as user};
ghost use Rattle.userfile.specs.Keys.{IsKeyed};
ghost use Rattle.userfile.specs.Together.{repeats_handle};

use crate::entries::{edit_user, keep_other_users, push_mask};
use crate::hostmask::Hostmask;
use crate::index::{
    TailIndex, add_listing, is_listed, keep_masks, listing_of, new_index, remove_user,
};
use crate::limits::{MAX_HANDLE, MAX_MASKS, MAX_USERS};
use crate::user::User;
use crate::user_edits::UserEdit;
use bytetext::NoMemory;
use indexmap::IndexMap;
use rfccase::ShortFold;
use std::alloc::Global;

// The position of the user with the handle.
pub(crate) fn place_of(users: &IndexMap<Vec<u8>, User>, handle: &[u8]) -> Option<usize>
    requires { IsKeyed users.now.entries }
    ensures { result ≡ position_from (λ u. is_same handle.now u.handle) 0 (values users.now) }
{
    match ShortFold::<MAX_HANDLE>::new(handle) {
        Some(lower) => users.get_index_of(lower.as_bytes()),
        None => None,
    }
}

// Appends a hostmask to those of the user with the handle.
pub(crate) fn add_host(
    users: &mut IndexMap<Vec<u8>, User>,
    index: &mut TailIndex,
    alloc: Global,
    handle: &[u8],
    mask: Hostmask,
) -> Result<(), NoMemory>
    requires keyed { IsKeyed users.old.entries }
    requires few { length (values users.old) ≤ MAX_USERS }
    requires index { IsIndexOf index.old (values users.old) }
    ensures keyed { IsKeyed users.new.entries }
    ensures index { IsIndexOf index.new (values users.new) }
    ensures ok { OnOk result (values users.new ≡ with_user handle.now (with_mask mask) (values users.old)) }
    ensures err { OnErr result (values users.new ≡ values users.old) }
{
    match place_of(users, handle) {
        Some(place) => add_host_at(users, index, alloc, place, handle, mask),
        None => Ok(()),
    }
}

// Appends a hostmask to those of the user with the handle, who is at position `place`. If the user's list can't grow,
// the call repairs the look-up index, which does not allocate.
fn add_host_at(
    users: &mut IndexMap<Vec<u8>, User>,
    index: &mut TailIndex,
    alloc: Global,
    place: usize,
    handle: &[u8],
    mask: Hostmask,
) -> Result<(), NoMemory>
    requires keyed { IsKeyed users.old.entries }
    requires few { length (values users.old) ≤ MAX_USERS }
    requires place { position_from (λ u. is_same handle.now u.handle) 0 (values users.old) ≡ Some place }
    requires index { IsIndexOf index.old (values users.old) }
    ensures keyed { IsKeyed users.new.entries }
    ensures index { IsIndexOf index.new (values users.new) }
    ensures ok { OnOk result (values users.new ≡ with_user handle.now (with_mask mask) (values users.old)) }
    ensures err { OnErr result (values users.new ≡ values users.old) }
{
    add_mask_beside(index, alloc, &mask, place as u32, masks_at(users, place))?;
    match push_mask(users, handle, mask) {
        Ok(()) => Ok(()),
        Err(NoMemory) => {
            tidy(users, index, place);
            Err(NoMemory)
        }
    }
}

// Adds a mask under its tail. `masks` are those that its user, at position `place`, has already. Their listings are in
// the index, so only the masks are searched for one with the same listing, and not the group of the tail.
fn add_mask_beside(
    index: &mut TailIndex,
    alloc: Global,
    mask: &Hostmask,
    place: u32,
    masks: &[Hostmask],
) -> Result<(), NoMemory>
    requires { AreUnder index.old place masks.now }
    ensures kept { Keeps index.old index.new }
    ensures only { AddsOnly index.old.groups.entries index.new.groups.entries (mask_tail mask.now) (listing_of place mask.now) }
    ensures ok { OnOk result (IsUnder index.new (mask_tail mask.now) (listing_of place mask.now)) }
    ensures err { OnErr result (AddsNothing index.old.groups.entries index.new.groups.entries) }
{
    let tail = mask.tail();
    let listing = listing_of(mask, place);
    if is_listed(&tail, &listing, masks) {
        return Ok(());
    }
    add_listing(index, alloc, tail, &listing, 0)
}

// Removes a hostmask from the user with the handle.
pub(crate) fn del_host(
    users: &mut IndexMap<Vec<u8>, User>,
    index: &mut TailIndex,
    handle: &[u8],
    mask: &[u8],
)
    requires keyed { IsKeyed users.old.entries }
    requires index { IsIndexOf index.old (values users.old) }
    ensures keyed { IsKeyed users.new.entries }
    ensures index { IsIndexOf index.new (values users.new) }
    ensures edited { values users.new ≡ with_user handle.now (without_mask mask.now) (values users.old) }
{
    let place = place_of(users, handle);
    edit_user(users, handle, UserEdit::DelMask(mask));
    if let Some(place) = place {
        tidy(users, index, place);
    }
}

// Removes those listings of the user at position `place` that belong to none of the user's masks.
fn tidy(users: &IndexMap<Vec<u8>, User>, index: &mut TailIndex, place: usize)
    requires covers { Covers index.old 0 (values users.now) }
    requires others { NamesBut place index.old (values users.now) }
    ensures { IsIndexOf index.new (values users.now) }
{
    keep_masks(&mut index.groups, place, masks_at(users, place));
}

// The masks of the user at position `place`.
fn masks_at(users: &IndexMap<Vec<u8>, User>, place: usize) -> &[Hostmask]
    ensures { result.now ≡ masks_at (values users.now) place }
{
    match users.get_index(place) {
        Some((_, user)) => user.masks.as_slice(),
        None => &[],
    }
}

// Removes the user with the handle.
pub(crate) fn del_user(users: &mut IndexMap<Vec<u8>, User>, index: &mut TailIndex, handle: &[u8])
    requires keyed { IsKeyed users.old.entries }
    requires apart { repeats_handle (values users.old) ≡ false }
    requires index { IsIndexOf index.old (values users.old) }
    ensures keyed { IsKeyed users.new.entries }
    ensures index { IsIndexOf index.new (values users.new) }
    ensures kept { values users.new ≡ users_without handle.now (values users.old) }
{
    if let Some(place) = place_of(users, handle) {
        keep_other_users(users, handle);
        remove_user(&mut index.groups, place);
    }
}

// The index of all hostmasks of these users.
pub(crate) fn index_of(
    alloc: Global,
    users: &IndexMap<Vec<u8>, User>,
) -> Result<TailIndex, NoMemory>
    requires { length (values users.now) ≤ MAX_USERS }
    ensures index { IfOk result (λ index. IsIndexOf index (values users.now)) }
    ensures memory { IfErr result (λ _. 0 < length (values users.now)) }
{
    let mut index = new_index(alloc);
    for place in 0..users.len() {
        add_masks(&mut index, alloc, masks_at(users, place), place as u32)?;
    }
    Ok(index)
}

// Adds these masks, of the user at position `place`, under their tails. They are all that the user has, so their
// listings are the last ones of their groups.
fn add_masks(
    index: &mut TailIndex,
    alloc: Global,
    masks: &[Hostmask],
    place: u32,
) -> Result<(), NoMemory>
    ensures kept { Keeps index.old index.new }
    ensures names { (users : List user) → masks_at users place ≡ masks.now → Names index.old users → Names index.new users }
    ensures ok { OnOk result (AreUnder index.new place masks.now) }
{
    for mask in masks {
        add_mask(index, alloc, mask, place)?;
    }
    Ok(())
}

// Adds a mask, of the user at position `place`, under its tail, unless its listing is there among as many of the last ones as
// a user has masks at most.
fn add_mask(
    index: &mut TailIndex,
    alloc: Global,
    mask: &Hostmask,
    place: u32,
) -> Result<(), NoMemory>
    ensures kept { Keeps index.old index.new }
    ensures only { AddsOnly index.old.groups.entries index.new.groups.entries (mask_tail mask.now) (listing_of place mask.now) }
    ensures ok { OnOk result (IsUnder index.new (mask_tail mask.now) (listing_of place mask.now)) }
    ensures err { OnErr result (AddsNothing index.old.groups.entries index.new.groups.entries) }
{
    add_listing(
        index,
        alloc,
        mask.tail(),
        &listing_of(mask, place),
        MAX_MASKS,
    )
}
