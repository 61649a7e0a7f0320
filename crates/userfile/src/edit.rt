// One edit of the userfile.
ghost use Rattle.std.specs.Prelude.{◌≡◌, IfOk};

use bytetext::{NoMemory, Text, TryCopy};
use flagexpr::Flags;
use std::alloc::Global;

/// One edit of a userfile. A [`Change`](crate::Change) says who asks for it. Handles, masks and channels are compared
/// by casemapping.
#[derive(Debug)]
pub enum Edit {
    /// Adds a user after the others.
    AddUser {
        /// The new user's handle.
        handle: Text,
    },
    /// Deletes a user.
    DelUser {
        /// The user's handle.
        handle: Text,
    },
    /// Adds a hostmask after the user's other hostmasks.
    AddHost {
        /// The user's handle.
        handle: Text,
        /// The hostmask.
        mask: Text,
    },
    /// Deletes a hostmask of a user.
    DelHost {
        /// The user's handle.
        handle: Text,
        /// The hostmask's text.
        mask: Text,
    },
    /// Sets the flags that a user has everywhere.
    SetGlobal {
        /// The user's handle.
        handle: Text,
        /// The flags, which replace the old ones.
        flags: Flags,
    },
    /// Sets a user's flags on a channel.
    SetChan {
        /// The user's handle.
        handle: Text,
        /// The channel.
        channel: Text,
        /// The flags, which replace the old ones; empty flags delete the channel's entry.
        flags: Flags,
    },
    /// Sets a user's flags as a bot.
    SetBot {
        /// The user's handle.
        handle: Text,
        /// The flags, which replace the old ones.
        flags: Flags,
    },
    /// Adds a ban after the others.
    AddBan {
        /// The channel, or the empty text for a ban of all channels.
        channel: Text,
        /// The hostmask.
        mask: Text,
        /// The handle of the ban's creator; a user with this handle need not exist.
        creator: Text,
        /// The second since 1970-01-01 UTC from which on the ban matches nobody; 0 for a ban that never ends.
        expires: u64,
        /// The comment, for the banned person to read.
        comment: Text,
    },
    /// Deletes a ban.
    DelBan {
        /// The ban's channel, or the empty text for a ban of all channels.
        channel: Text,
        /// The ban's hostmask.
        mask: Text,
    },
    /// Sets a user's info text.
    SetInfo {
        /// The user's handle.
        handle: Text,
        /// The text, which replaces the old one; the empty text for none.
        info: Text,
    },
    /// Sets whether a ban is sticky.
    SetSticky {
        /// The ban's channel, or the empty text for a ban of all channels.
        channel: Text,
        /// The ban's hostmask.
        mask: Text,
        /// Whether the ban is sticky from now on.
        on: bool,
    },
}

// By hand, so that the drop is proved once, and not in each function that drops an edit.
impl Drop for Edit {
    fn drop(self) {
        match self {
            Edit::AddUser { handle: _ } => {}
            Edit::DelUser { handle: _ } => {}
            Edit::AddHost { handle: _, mask: _ } => {}
            Edit::DelHost { handle: _, mask: _ } => {}
            Edit::SetGlobal {
                handle: _,
                flags: _,
            } => {}
            Edit::SetChan {
                handle: _,
                channel: _,
                flags: _,
            } => {}
            Edit::SetBot {
                handle: _,
                flags: _,
            } => {}
            Edit::AddBan {
                channel: _,
                mask: _,
                creator: _,
                expires: _,
                comment: _,
            } => {}
            Edit::DelBan {
                channel: _,
                mask: _,
            } => {}
            Edit::SetInfo { handle: _, info: _ } => {}
            Edit::SetSticky {
                channel: _,
                mask: _,
                on: _,
            } => {}
        }
    }
}

impl TryCopy for Edit {
    fn copy(&self, alloc: Global) -> Result<Edit, NoMemory> {
        match self {
            Edit::AddUser { handle } => match handle.copy(alloc) {
                Ok(handle) => Ok(Edit::AddUser { handle }),
                Err(NoMemory) => Err(NoMemory),
            },
            Edit::DelUser { handle } => match handle.copy(alloc) {
                Ok(handle) => Ok(Edit::DelUser { handle }),
                Err(NoMemory) => Err(NoMemory),
            },
            Edit::AddHost { handle, mask } => match pair_of(alloc, handle, mask) {
                Ok((handle, mask)) => Ok(Edit::AddHost { handle, mask }),
                Err(NoMemory) => Err(NoMemory),
            },
            Edit::DelHost { handle, mask } => match pair_of(alloc, handle, mask) {
                Ok((handle, mask)) => Ok(Edit::DelHost { handle, mask }),
                Err(NoMemory) => Err(NoMemory),
            },
            Edit::SetGlobal { handle, flags } => set_global_copy(alloc, handle, *flags),
            Edit::SetChan {
                handle,
                channel,
                flags,
            } => set_chan_copy(alloc, handle, channel, *flags),
            Edit::SetBot { handle, flags } => set_bot_copy(alloc, handle, *flags),
            Edit::AddBan {
                channel,
                mask,
                creator,
                expires,
                comment,
            } => { ban_copy(alloc, channel, mask, creator, *expires, comment) }
            Edit::DelBan { channel, mask } => match pair_of(alloc, channel, mask) {
                Ok((channel, mask)) => Ok(Edit::DelBan { channel, mask }),
                Err(NoMemory) => Err(NoMemory),
            },
            Edit::SetInfo { handle, info } => match pair_of(alloc, handle, info) {
                Ok((handle, info)) => Ok(Edit::SetInfo { handle, info }),
                Err(NoMemory) => Err(NoMemory),
            },
            Edit::SetSticky { channel, mask, on } => set_sticky_copy(alloc, channel, mask, *on),
        }
    }
}

// Copies of two texts.
fn pair_of(alloc: Global, a: &Text, b: &Text) -> Result<(Text, Text), NoMemory>
    ensures { IfOk result (λ pair. pair ≡ (a.now, b.now)) }
{
    let first = a.copy(alloc)?;
    let second = b.copy(alloc)?;
    Ok((first, second))
}

// An edit that sets a user's flags everywhere, with a copy of the handle.
fn set_global_copy(alloc: Global, handle: &Text, flags: Flags) -> Result<Edit, NoMemory>
    ensures { IfOk result (λ c. c ≡ Edit.SetGlobal handle.now flags) }
{
    let handle = handle.copy(alloc)?;
    Ok(Edit::SetGlobal { handle, flags })
}

// An edit that sets a user's flags on a channel, with copies of these texts.
fn set_chan_copy(
    alloc: Global,
    handle: &Text,
    channel: &Text,
    flags: Flags,
) -> Result<Edit, NoMemory>
    ensures { IfOk result (λ c. c ≡ Edit.SetChan handle.now channel.now flags) }
{
    let (handle, channel) = pair_of(alloc, handle, channel)?;
    Ok(Edit::SetChan {
        handle,
        channel,
        flags,
    })
}

// An edit that sets a user's flags as a bot, with a copy of the handle.
fn set_bot_copy(alloc: Global, handle: &Text, flags: Flags) -> Result<Edit, NoMemory>
    ensures { IfOk result (λ c. c ≡ Edit.SetBot handle.now flags) }
{
    let handle = handle.copy(alloc)?;
    Ok(Edit::SetBot { handle, flags })
}

// An edit that adds a ban, with copies of these texts.
fn ban_copy(
    alloc: Global,
    channel: &Text,
    mask: &Text,
    creator: &Text,
    expires: u64,
    comment: &Text,
) -> Result<Edit, NoMemory>
    ensures { IfOk result (λ c. c ≡ Edit.AddBan channel.now mask.now creator.now expires comment.now) }
{
    let (channel, mask) = pair_of(alloc, channel, mask)?;
    let (creator, comment) = pair_of(alloc, creator, comment)?;
    Ok(Edit::AddBan {
        channel,
        mask,
        creator,
        expires,
        comment,
    })
}

// An edit that sets whether a ban is sticky, with copies of these texts.
fn set_sticky_copy(alloc: Global, channel: &Text, mask: &Text, on: bool) -> Result<Edit, NoMemory>
    ensures { IfOk result (λ c. c ≡ Edit.SetSticky channel.now mask.now on) }
{
    let (channel, mask) = pair_of(alloc, channel, mask)?;
    Ok(Edit::SetSticky { channel, mask, on })
}
