// One channel that the bot is on.
ghost use Rattle.std.specs.Prelude.{◌≡◌, IfOk};
ghost use Rattle.chanstate.specs.Channels.{opened, with_members};
ghost use Rattle.chanstate.specs.Members.{is_called};
ghost use Rattle.chanstate.specs.Firsts.{first_removed};

use crate::member::Member;
use crate::roster::Roster;
use bytetext::{NoMemory, Text, TryCopy};
use rfccase::Casemapping;
use std::alloc::Global;

/// A channel that the bot is on.
#[derive(Debug)]
pub struct Channel {
    pub(crate) name: Text,
    pub(crate) topic: Text,
    pub(crate) members: Roster,
}

// Written by hand, so that it is proved once and not in each function that drops a `Channel`.
impl Drop for Channel {
    fn drop(self) {
        let Channel {
            name: _,
            topic: _,
            members: _,
        } = self;
    }
}

impl Channel {
    // Creates the channel `name` as the bot has just joined it: `bot` is its only member, and it has no topic. Nicks
    // compare by `mapping`.
    pub(crate) fn open(
        alloc: Global,
        mapping: Casemapping,
        name: &[u8],
        bot: Member,
    ) -> Result<Channel, NoMemory>
        ensures { IfOk result (λ c. c ≡ opened name.now bot) }
    {
        Ok(Channel {
            name: Text::from_slice(alloc, name)?,
            topic: Text::empty(alloc),
            members: Roster::one(alloc, mapping, bot)?,
        })
    }

    // Removes the member called `nick`.
    pub(crate) fn depart(&mut self, mapping: Casemapping, nick: &[u8])
        ensures { self.new ≡ with_members (first_removed (is_called mapping nick.now)) self.old }
    {
        self.members.remove(mapping, nick);
    }
}

impl TryCopy for Channel {
    fn copy(&self, alloc: Global) -> Result<Channel, NoMemory> {
        Ok(Channel {
            name: self.name.copy(alloc)?,
            topic: self.topic.copy(alloc)?,
            members: self.members.copy(alloc)?,
        })
    }
}
