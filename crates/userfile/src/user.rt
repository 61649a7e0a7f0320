// One user.
ghost use Rattle.std.specs.Prelude.{◌≡◌};

use crate::channel_flags::ChannelEntries;
use crate::hostmask::Hostmasks;
use bytetext::{NoMemory, Text, TryCopy};
use flagexpr::Flags;
use std::alloc::Global;

/// A user of the userfile.
#[derive(Debug)]
pub struct User {
    /// The handle as it was given.
    pub handle: Text,
    /// The hostmasks that identify the user, in the order in which they were added.
    pub masks: Hostmasks,
    /// The flags that the user has everywhere.
    pub global: Flags,
    /// The flags on channels, in the order in which their channels were first set.
    pub channels: ChannelEntries,
    /// The flags of the user as a bot.
    pub bot: Flags,
    /// The info text, by which the user or others describe the user: 0 to 80 bytes on one line, empty at first.
    pub info: Text,
}

// By hand, so that the drop is proved once, and not in each function that drops a user.
impl Drop for User {
    fn drop(self) {
        let User {
            handle: _,
            masks: _,
            global: _,
            channels: _,
            bot: _,
            info: _,
        } = self;
    }
}

impl User {
    ghost use Rattle.std.specs.Prelude.{◌≡◌};
    ghost use Rattle.userfile.specs.Apply.{new_user};

    // Creates a user with this handle, without hostmasks, flags or an info text.
    pub(crate) fn new(alloc: Global, handle: Text) -> User
        ensures { result ≡ new_user handle }
    {
        User {
            handle,
            masks: Hostmasks::empty(alloc),
            global: Flags::empty(),
            channels: ChannelEntries::empty(alloc),
            bot: Flags::empty(),
            info: Text::empty(alloc),
        }
    }
}

impl TryCopy for User {
    fn copy(&self, alloc: Global) -> Result<User, NoMemory> {
        Ok(User {
            handle: self.handle.copy(alloc)?,
            masks: self.masks.copy(alloc)?,
            global: self.global,
            channels: self.channels.copy(alloc)?,
            bot: self.bot,
            info: self.info.copy(alloc)?,
        })
    }
}
