// What an edit makes of one user, and why an edit is refused for what the user holds.
ghost use Rattle.std.specs.Prelude.{◌≡◌, true, IfOk, IfErr, OnOk, OnErr};
ghost use Rattle.bytetext.specs.declared.failure.Failure.TheVariants.{NoMemory as no_memory};
ghost use Rattle.userfile.specs.Shapes.{is_hostmask};
ghost use Rattle.userfile.specs.Apply.{add_mask_fault, del_mask_fault, set_channel_fault, with_mask};
ghost use Rattle.userfile.specs.UserEdits.{edited};

use crate::channel_flags::ChannelEntries;
use crate::error::{ChangeError, ChangeFault};
use crate::hostmask::Hostmask;
use crate::limits::{MAX_CHANNELS, MAX_MASKS};
use crate::refusals::{fault_if, fault_unless, first_of_two};
use crate::user::User;
use bytetext::{Failure, NoMemory, Text};
use flagexpr::Flags;
use std::alloc::Global;

// Why a user can't be given a mask.
pub(crate) fn add_mask_fault(mask: &[u8], user: &User) -> Option<ChangeFault>
    ensures { result ≡ add_mask_fault mask.now user.now }
{
    first_of_two(
        fault_if(user.masks.has(mask), ChangeFault::MaskExists),
        fault_unless(user.masks.len() < MAX_MASKS, ChangeFault::Full),
    )
}

// Why a mask can't be removed from a user.
pub(crate) fn del_mask_fault(mask: &[u8], user: &User) -> Option<ChangeFault>
    ensures { result ≡ del_mask_fault mask.now user.now }
{
    fault_unless(user.masks.has(mask), ChangeFault::NoSuchMask)
}

// Why a user's flags on a channel can't be set.
pub(crate) fn set_channel_fault(channel: &[u8], flags: Flags, user: &User) -> Option<ChangeFault>
    ensures { result ≡ set_channel_fault channel.now flags user.now }
{
    fault_unless(
        flags.is_empty()
            || user.channels.get(channel).is_some()
            || user.channels.len() < MAX_CHANNELS,
        ChangeFault::Full,
    )
}

// An edit of one user that does not allocate.
#[derive(Drop)]
pub(crate) enum UserEdit<'a> {
    // Removes the mask of this text.
    DelMask(&'a [u8]),
    // Sets the flags that the user has everywhere.
    SetGlobal(Flags),
    // Removes the entry of a channel.
    DelChannel(&'a [u8]),
    // Replaces the entries by these.
    SetChannels(ChannelEntries),
    // Sets the user's flags as a bot.
    SetBot(Flags),
    // Replaces the info text by this one.
    SetInfo(Text),
}

// Makes an edit.
pub(crate) fn make_edit(user: &mut User, edit: UserEdit<'_>)
    ensures { user.new ≡ edited edit.entry user.old }
{
    match edit {
        UserEdit::DelMask(mask) => user.masks.remove(mask),
        UserEdit::SetGlobal(flags) => user.global = flags,
        UserEdit::DelChannel(channel) => user.channels.remove(channel),
        UserEdit::SetChannels(entries) => user.channels = entries,
        UserEdit::SetBot(flags) => user.bot = flags,
        UserEdit::SetInfo(info) => user.info = info,
    }
}

// Appends a mask to the user's masks.
pub(crate) fn give_mask(user: &mut User, mask: Hostmask) -> Result<(), NoMemory>
    ensures ok { OnOk result (user.new ≡ with_mask mask user.old) }
    ensures err { OnErr result (user.new ≡ user.old) }
{
    user.masks.push(mask)
}

// Creates the hostmask of a text that is one.
pub(crate) fn hostmask_of(alloc: Global, mask: &Text) -> Result<Hostmask, ChangeError>
    requires { is_hostmask mask.now ≡ true }
    ensures ok { IfOk result (λ made. made ≡ mask.now) }
    ensures err { IfErr result (λ e. e ≡ no_memory) }
{
    match Hostmask::new(alloc, mask.as_bytes()) {
        Ok(made) => Ok(made),
        Err(Failure::NoMemory) => Err(Failure::NoMemory),
        Err(Failure::Refused(_)) => Err(Failure::Refused(ChangeFault::BadMask)),
    }
}
