// One ban: whom it keeps off a channel, and when it comes back.
ghost use Rattle.std.specs.Prelude.{◌≡◌, ◌+◌, ◌*◌, ◌<◌, ◌≤◌};

use crate::hostmask::Hostmask;
use crate::texts::{is_same, same_by};
use bytetext::{NoMemory, Text, TryCopy};
use rfccase::Casemapping;
use std::alloc::Global;

/// A ban of the persons that a hostmask matches, on one channel or on all.
#[derive(Debug)]
pub struct Ban {
    /// The channel as it was given; the empty text for a ban of all channels.
    pub channel: Text,
    /// The hostmask.
    pub mask: Hostmask,
    /// The handle of the ban's creator; a user with this handle need not exist.
    pub creator: Text,
    /// The second since 1970-01-01 UTC from which on the ban matches nobody; 0 for a ban that never ends.
    pub expires: u64,
    /// The comment, for the banned person to read.
    pub comment: Text,
    /// Whether the ban is sticky: it is to come back when somebody removes it from a channel. A new ban is not sticky.
    pub sticky: bool,
}

// By hand, so that the drop is proved once, and not in each function that drops a ban.
impl Drop for Ban {
    fn drop(self) {
        let Ban {
            channel: _,
            mask: _,
            creator: _,
            expires: _,
            comment: _,
            sticky: _,
        } = self;
    }
}

impl Ban {
    ghost use Rattle.std.specs.Prelude.{◌≡◌};
    ghost use Rattle.userfile.specs.Held.{is_ban};
    ghost use Rattle.userfile.specs.Persons.{bars, returns_to};

    // Whether this is the ban of that channel and mask.
    pub(crate) fn is_of(&self, channel: &[u8], mask: &[u8]) -> bool
        ensures { result ≡ is_ban channel.now mask.now self.now }
    {
        is_same(channel, self.channel.as_bytes()) && is_same(mask, self.mask.as_bytes())
    }

    // Whether the ban keeps this person off the channel at that second.
    pub(crate) fn bars(&self, mapping: Casemapping, channel: &[u8], who: &[u8], now: u64) -> bool
        ensures { result ≡ bars mapping channel.now who.now now self.now }
    {
        (self.channel.is_empty() || same_by(mapping, channel, self.channel.as_bytes()))
            && (self.expires == 0 || now < self.expires)
            && self.mask.matches(mapping, who)
    }

    // Whether the ban comes back to the channel at that second if somebody removes this mask from it.
    pub(crate) fn returns_to(
        &self,
        mapping: Casemapping,
        channel: &[u8],
        mask: &[u8],
        now: u64,
    ) -> bool
        ensures { result ≡ returns_to mapping channel.now mask.now now self.now }
    {
        self.sticky
            && (self.channel.is_empty() || same_by(mapping, channel, self.channel.as_bytes()))
            && (self.expires == 0 || now < self.expires)
            && same_by(mapping, mask, self.mask.as_bytes())
    }
}

impl TryCopy for Ban {
    fn copy(&self, alloc: Global) -> Result<Ban, NoMemory> {
        Ok(Ban {
            channel: self.channel.copy(alloc)?,
            mask: self.mask.copy(alloc)?,
            creator: self.creator.copy(alloc)?,
            expires: self.expires,
            comment: self.comment.copy(alloc)?,
            sticky: self.sticky,
        })
    }
}
