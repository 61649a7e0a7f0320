// What an edit needs, made in advance, so that making the edit does not allocate.
ghost use Rattle.std.specs.Prelude.{◌≡◌, ◌≢◌, ◌≤◌, None, true, false, length, IfOk, IfErr, OnErr};
ghost use Rattle.std.specs.Map.{values_of};
ghost use Rattle.bytetext.specs.declared.failure.Failure.TheVariants.{NoMemory as no_memory};
ghost use Rattle.indexmap.specs.IndexMap.{values};
ghost use Rattle.userfile.specs.Apply.{edit_refusal, edit_made, edit_grows, with_channel};
ghost use Rattle.userfile.specs.UserEdits.{with_channels};
ghost use Rattle.userfile.specs.Held.{with_user};
ghost use Rattle.userfile.specs.Index.{IsIndexOf};
ghost use Rattle.userfile.specs.Keys.{IsKeyed, records_of};
ghost use Rattle.userfile.specs.Plans.{IsPlanFor, taken_back, adds};
ghost use Rattle.userfile.specs.Together.{repeats_handle};

use crate::ban::Ban;
use crate::bans::{ban_of, keep_other_bans, set_sticky};
use crate::channel_flags::ChannelEntries;
use crate::edit::Edit;
use crate::entries::{add_user, edit_user, find_user};
use crate::error::ChangeError;
use crate::index::TailIndex;
use crate::indexing::{add_host, del_host, del_user};
use crate::limits::MAX_USERS;
use crate::user::User;
use crate::user_edits::{UserEdit, hostmask_of};
use bytetext::{NoMemory, Text, TryCopy};
use flagexpr::Flags;
use indexmap::IndexMap;
use std::alloc::Global;

/// What was made in advance for a change, by what its edit does.
#[derive(Drop)]
pub enum Plan {
    /// Nothing: the edit does not allocate.
    Later,
    /// The user, the hostmask or the ban that the edit adds. It is among the others already, and removing it again
    /// does not allocate.
    Added,
    /// The channel entries that the user of a handle will have: the handle, and the entries.
    Channels(Text, ChannelEntries),
    /// The info text that the user of a handle will have: the handle, and the text.
    Info(Text, Text),
}

// Makes in advance what an edit needs; the edit isn't refused.
pub(crate) fn plan_for(
    users: &mut IndexMap<Vec<u8>, User>,
    index: &mut TailIndex,
    bans: &mut Vec<Ban>,
    alloc: Global,
    edit: &Edit,
) -> Result<Plan, ChangeError>
    requires keyed { IsKeyed users.old.entries }
    requires few { length (values_of users.old.entries) ≤ MAX_USERS }
    requires index { IsIndexOf index.old (values_of users.old.entries) }
    requires taken { edit_refusal (records_of users.old.entries bans.old.items) edit.now ≡ None }
    ensures keyed { IsKeyed users.new.entries }
    ensures index { IsIndexOf index.new (values_of users.new.entries) }
    ensures ready { IfOk result (λ plan. IsPlanFor plan edit.now
        (records_of users.old.entries bans.old.items) (records_of users.new.entries bans.new.items)) }
    ensures err { OnErr result (records_of users.new.entries bans.new.items ≡ records_of users.old.entries bans.old.items) }
    ensures memory { IfErr result (λ e. (e ≡ no_memory) × (edit_grows edit.now ≡ true)) }
{
    match edit {
        Edit::AddUser { handle } => {
            add_user(users, alloc, handle)?;
            Ok(Plan::Added)
        }
        Edit::AddHost { handle, mask } => {
            let mask = hostmask_of(alloc, mask)?;
            add_host(users, index, alloc, handle.as_bytes(), mask)?;
            Ok(Plan::Added)
        }
        Edit::AddBan {
            channel,
            mask,
            creator,
            expires,
            comment,
        } => {
            bans.push(ban_of(alloc, channel, mask, creator, *expires, comment)?)?;
            Ok(Plan::Added)
        }
        Edit::SetChan {
            handle,
            channel,
            flags,
        } => {
            if flags.is_empty() {
                return Ok(Plan::Later);
            }
            let entries = entries_with(users, alloc, handle.as_bytes(), channel, *flags)?;
            Ok(Plan::Channels(handle.copy(alloc)?, entries))
        }
        Edit::SetInfo { handle, info } => {
            if info.is_empty() {
                return Ok(Plan::Later);
            }
            let info = info.copy(alloc)?;
            Ok(Plan::Info(handle.copy(alloc)?, info))
        }
        Edit::DelUser { .. } => Ok(Plan::Later),
        Edit::DelHost { .. } => Ok(Plan::Later),
        Edit::SetGlobal { .. } => Ok(Plan::Later),
        Edit::SetBot { .. } => Ok(Plan::Later),
        Edit::DelBan { .. } => Ok(Plan::Later),
        Edit::SetSticky { .. } => Ok(Plan::Later),
    }
}

// The entries that the user of a handle will have once these flags are set on a channel.
fn entries_with(
    users: &IndexMap<Vec<u8>, User>,
    alloc: Global,
    handle: &[u8],
    channel: &Text,
    flags: Flags,
) -> Result<ChannelEntries, NoMemory>
    requires keyed { IsKeyed users.now.entries }
    requires some { flags ≢ 0 }
    ensures { IfOk result (λ entries. with_user handle.now (with_channels entries) (values users.now)
        ≡ with_user handle.now (with_channel channel.now flags) (values users.now)) }
{
    match find_user(users, handle) {
        Some(user) => user.channels.with(alloc, channel, flags),
        None => Ok(ChannelEntries::empty(alloc)),
    }
}

// Makes an edit that does not allocate.
pub(crate) fn take_in(
    users: &mut IndexMap<Vec<u8>, User>,
    index: &mut TailIndex,
    bans: &mut Vec<Ban>,
    edit: &Edit,
)
    requires keyed { IsKeyed users.old.entries }
    requires apart { repeats_handle (values_of users.old.entries) ≡ false }
    requires index { IsIndexOf index.old (values_of users.old.entries) }
    requires no_growth { edit_grows edit.now ≡ false }
    ensures keyed { IsKeyed users.new.entries }
    ensures index { IsIndexOf index.new (values_of users.new.entries) }
    ensures changed { records_of users.new.entries bans.new.items ≡ edit_made (records_of users.old.entries bans.old.items) edit.now }
{
    match edit {
        Edit::DelUser { handle } => del_user(users, index, handle.as_bytes()),
        Edit::DelHost { handle, mask } => {
            del_host(users, index, handle.as_bytes(), mask.as_bytes());
        }
        Edit::SetGlobal { handle, flags } => {
            edit_user(users, handle.as_bytes(), UserEdit::SetGlobal(*flags));
        }
        Edit::SetChan {
            handle,
            channel,
            ..
        } => {
            edit_user(
                users,
                handle.as_bytes(),
                UserEdit::DelChannel(channel.as_bytes()),
            );
        }
        Edit::SetBot { handle, flags } => {
            edit_user(users, handle.as_bytes(), UserEdit::SetBot(*flags));
        }
        Edit::DelBan { channel, mask } => {
            keep_other_bans(bans, channel.as_bytes(), mask.as_bytes());
        }
        // Only an empty info text does not allocate.
        Edit::SetInfo { handle, .. } => {
            let nothing = Text::empty(*users.allocator());
            edit_user(users, handle.as_bytes(), UserEdit::SetInfo(nothing));
        }
        Edit::SetSticky { channel, mask, on } => {
            set_sticky(
                bans.as_mut_slice(),
                channel.as_bytes(),
                mask.as_bytes(),
                *on,
            );
        }
        // These allocate.
        Edit::AddUser { .. } => {}
        Edit::AddHost { .. } => {}
        Edit::AddBan { .. } => {}
    }
}

// Removes what an edit has added.
pub(crate) fn take_back(
    users: &mut IndexMap<Vec<u8>, User>,
    index: &mut TailIndex,
    bans: &mut Vec<Ban>,
    edit: &Edit,
)
    requires keyed { IsKeyed users.old.entries }
    requires apart { repeats_handle (values_of users.old.entries) ≡ false }
    requires index { IsIndexOf index.old (values_of users.old.entries) }
    requires added { adds edit.now ≡ true }
    ensures keyed { IsKeyed users.new.entries }
    ensures index { IsIndexOf index.new (values_of users.new.entries) }
    ensures changed { records_of users.new.entries bans.new.items ≡ edit_made (records_of users.old.entries bans.old.items) (taken_back edit.now) }
{
    match edit {
        Edit::AddUser { handle } => del_user(users, index, handle.as_bytes()),
        Edit::AddHost { handle, mask } => {
            del_host(users, index, handle.as_bytes(), mask.as_bytes());
        }
        Edit::AddBan { channel, mask, .. } => {
            keep_other_bans(bans, channel.as_bytes(), mask.as_bytes());
        }
        // These add nothing.
        Edit::DelUser { .. } => {}
        Edit::DelHost { .. } => {}
        Edit::SetGlobal { .. } => {}
        Edit::SetChan { .. } => {}
        Edit::SetBot { .. } => {}
        Edit::DelBan { .. } => {}
        Edit::SetInfo { .. } => {}
        Edit::SetSticky { .. } => {}
    }
}
