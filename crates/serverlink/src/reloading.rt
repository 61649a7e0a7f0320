// What changes on a connection when the configuration is read again, or when an operator has the bot join or leave a
// channel.
ghost use Rattle.std.specs.Prelude.{◌≡◌, ◌<◌, length, IfSome};

use crate::configured_channels::key_copy;
use crate::irc_connection::{IrcConnection, joined};
use crate::seat::Seat;
use bytetext::{NoMemory, Text, TryCopy};
use rfccase::{Casemapping, same_by};
use settings::{ChannelSetting, Server};
use std::alloc::Global;

impl IrcConnection {
    ghost use Rattle.std.specs.Prelude.{◌≡◌, ◌<◌, ◌++◌, ◌∷◌, [], false, length, IfSome, OnOk};
    ghost use Rattle.serverlink.specs.Casings.{mapping_in};
    ghost use Rattle.serverlink.specs.Listing.{has_seat, is_welcomed, seated, with_all_listed, with_listed};
    ghost use Rattle.serverlink.specs.Seats.{begun};

    /// Has the bot numbered `number` be on the channels that are `listed`, at second `now`: leaves the others, and joins
    /// those on which it was not to be. A channel that is still listed stays as it is, but the bot joins it by its new
    /// key from now on: at once, if the bot is not on it. Returns whether anything changed.
    ///
    /// # Errors
    /// `NoMemory` if an allocation fails. The bot may have left or joined some of them.
    pub fn take_channels(
        &mut self,
        alloc: Global,
        listed: &[ChannelSetting],
        number: u16,
        now: u64,
    ) -> Result<bool, NoMemory>
        ensures session { self.new.session ≡ self.old.session }
    {
        let left = self.leave_unnamed(alloc, listed)?;
        let joins = self.join_named(alloc, listed, number, now)?;
        Ok(left || joins)
    }

    // Leaves the channels that are not listed. Returns whether there was one.
    fn leave_unnamed(&mut self, alloc: Global, listed: &[ChannelSetting]) -> Result<bool, NoMemory>
        ensures { self.new.session ≡ self.old.session }
    {
        let mut left = false;
        for _channel in 0..self.channels.len() {
            let mapping = self.casemapping();
            let Some(seat) = self.channels.remove_unnamed(mapping, listed) else {
                break;
            };
            self.part(alloc, seat.channel())?;
            left = true;
        }
        Ok(left)
    }

    // Joins the channels that are listed and on which the bot was not to be, and takes the keys of the others. Returns
    // whether anything changed.
    fn join_named(
        &mut self,
        alloc: Global,
        listed: &[ChannelSetting],
        number: u16,
        now: u64,
    ) -> Result<bool, NoMemory>
        ensures session { self.new.session ≡ self.old.session }
        ensures channels { OnOk result (self.new.channels
            ≡ with_all_listed (mapping_in self.old.session) (is_welcomed self.old.session) number now listed.now self.old.channels) }
    {
        let mut changed = false;
        for channel in listed {
            changed |= self.take_channel(alloc, channel, number, now)?;
        }
        Ok(changed)
    }

    // Has the bot be on a channel that is listed, by its key. Returns whether anything changed.
    fn take_channel(
        &mut self,
        alloc: Global,
        channel: &ChannelSetting,
        number: u16,
        now: u64,
    ) -> Result<bool, NoMemory>
        ensures session { self.new.session ≡ self.old.session }
        ensures channels { OnOk result (self.new.channels
            ≡ with_listed (mapping_in self.old.session) (is_welcomed self.old.session) number now channel.now self.old.channels) }
    {
        let name = channel.name.as_bytes();
        let mapping = self.casemapping();
        if self.channels.has(mapping, name) {
            return self
                .channels
                .take_key(alloc, mapping, name, &channel.key, now);
        }
        let key = key_copy(alloc, &channel.key)?;
        self.add_channel(alloc, name, key, number, now)
    }

    /// Has the bot numbered `number` be on `channel` from second `now` on, and join it with this `key`, if it has one.
    /// Returns false, and changes nothing, if it is to be there already.
    ///
    /// # Errors
    /// `NoMemory` if an allocation fails: never if it is to be there already. Nothing has changed then.
    pub fn add_channel(
        &mut self,
        alloc: Global,
        channel: &[u8],
        key: Option<Text>,
        number: u16,
        now: u64,
    ) -> Result<bool, NoMemory>
        ensures session { self.new.session ≡ self.old.session }
        ensures added { OnOk result (has_seat (mapping_in self.old.session) channel.now self.old.channels ≡ false
            → self.new.channels ≡ self.old.channels
            ++ seated (is_welcomed self.old.session) now (begun channel.now key number) ∷ []) }
    {
        if self.channels.has(self.casemapping(), channel) {
            return Ok(false);
        }
        let mut seat = Seat::new(Text::from_slice(alloc, channel)?, key, number);
        if self.is_welcomed() {
            seat.welcome(now);
        }
        self.channels.add(seat)?;
        Ok(true)
    }

    /// Has the bot leave `channel`. Returns false, and changes nothing, if it was not to be there.
    ///
    /// # Errors
    /// `NoMemory` if an allocation fails: never if it was not to be there. The bot then no longer joins it.
    pub fn drop_channel(&mut self, alloc: Global, channel: &[u8]) -> Result<bool, NoMemory>
        ensures session { self.new.session ≡ self.old.session }
    {
        let mapping = self.casemapping();
        match self.channels.remove(mapping, channel) {
            Some(seat) => {
                self.part(alloc, seat.channel())?;
                Ok(true)
            }
            None => Ok(false),
        }
    }

    // Queues a PART, if a server has welcomed the bot. A JOIN that the server has not answered yet stands before it.
    fn part(&mut self, alloc: Global, channel: &[u8]) -> Result<(), NoMemory>
        ensures { self.new.session ≡ self.old.session }
    {
        if self.is_welcomed() {
            let line = joined(alloc, b"PART ", channel)?;
            self.own.put(Text::new(line))?;
        }
        Ok(())
    }

    /// Has the bot ask for `nick` now, if a server has welcomed it, and after each later welcome under another one.
    ///
    /// # Errors
    /// `NoMemory` if an allocation fails. The bot may then ask for it or not.
    pub fn take_nick(&mut self, alloc: Global, nick: &[u8]) -> Result<(), NoMemory>
        ensures session { self.new.session ≡ self.old.session }
    {
        self.renames = Some(Text::from_slice(alloc, nick)?);
        if self.is_welcomed() {
            let line = joined(alloc, b"NICK ", nick)?;
            self.own.put(Text::new(line))?;
        }
        Ok(())
    }

    // A server has welcomed the bot as `nick`: queues a NICK if the configuration has another one by now.
    pub(crate) fn rename(&mut self, alloc: Global, nick: &[u8]) -> Result<(), NoMemory>
        ensures { self.new.session ≡ self.old.session }
    {
        if let Some(wanted) = &self.renames {
            // The server has not said yet how it compares names, so only letters count as the same in both cases.
            if !same_by(Casemapping::Ascii, wanted.as_bytes(), nick) {
                let line = joined(alloc, b"NICK ", wanted.as_bytes())?;
                self.own.put(Text::new(line))?;
            }
        }
        Ok(())
    }

    /// Returns the place in `new` of the server of `old` that is connected or is tried next, if it stands there.
    pub fn place_in(&self, old: &[Server], new: &[Server]) -> Option<usize>
        ensures within { IfSome result (λ place. place < length new.now) }
    {
        let server = old.get(self.dialling.place())?;
        new.iter().position(|other| is_at(other, server))
    }

    /// Takes another list, of `servers` servers: the server that is connected, or is tried next, stands at `place` there.
    pub fn relist(&mut self, servers: usize, place: usize)
        requires within { place < servers }
        ensures session { self.new.session ≡ self.old.session }
        ensures place { self.new.dialling.place ≡ place }
    {
        self.dialling.relist(servers, place);
    }

    // Whether a server has welcomed the bot.
    fn is_welcomed(&self) -> bool
        ensures { result ≡ is_welcomed self.now.session }
    {
        match &self.session {
            Some(session) => session.is_welcomed,
            None => false,
        }
    }
}

// Whether two servers have the same host and port, and both a plus or none. Their passwords may differ.
fn is_at(one: &Server, other: &Server) -> bool {
    one.address.port == other.address.port
        && one.address.tls == other.address.tls
        && one.address.host.as_bytes() == other.address.host.as_bytes()
}
