// A user's flags on channels.
ghost use Rattle.std.specs.Prelude.{◌≡◌, OnOk, OnErr};
ghost use Rattle.std.specs.List.{position_from};
ghost use Rattle.std.specs.Option.{option_copied};
ghost use Rattle.userfile.specs.Held.{entry_of, entries_without, with_entry};
ghost use Rattle.rfccase.specs.Casemapping.{is_same};

use crate::texts::is_same;
use bytetext::{NoMemory, Text, TryCopy, copies_of};
use flagexpr::Flags;
use std::alloc::Global;
use std::marker::Model;

/// A user's flags on one channel.
#[derive(Debug, Drop)]
pub struct ChannelFlags {
    /// The channel as it was last given.
    pub channel: Text,
    /// The flags on it; a userfile holds no entry without flags.
    pub flags: Flags,
}

impl TryCopy for ChannelFlags {
    fn copy(&self, alloc: Global) -> Result<ChannelFlags, NoMemory> {
        let channel = self.channel.copy(alloc)?;
        Ok(ChannelFlags {
            channel,
            flags: self.flags,
        })
    }
}

/// A list of a user's flags on channels. Contracts see its entries in order.
#[derive(Debug, Drop)]
pub struct ChannelEntries {
    items: Vec<ChannelFlags>,
}

impl Model for ChannelEntries {
    ghost use Rattle.std.specs.Prelude.{List};
    ghost use Rattle.userfile.specs.declared.channel_flags.ChannelFlags.{ChannelFlags};

    ghost Value = { List ChannelFlags };

    ghost view = { λ c. c.items.items };
}

impl ChannelEntries {
    ghost use Rattle.std.specs.Prelude.{◌≡◌, ◌≢◌, [], ◌∷◌, ◌++◌, IfOk, length};
    ghost use Rattle.std.specs.Option.{option_copied};
    ghost use Rattle.userfile.specs.Held.{entry_of, entries_without, with_entry};
    ghost use Rattle.userfile.specs.Apply.{set_channel};

    /// Creates the list of the entries `items`. Does not allocate.
    pub fn new(items: Vec<ChannelFlags>) -> ChannelEntries
        ensures { result ≡ items.items }
    {
        ChannelEntries { items }
    }

    /// Creates a list without entries. Does not allocate.
    pub fn empty(alloc: Global) -> ChannelEntries
        ensures { result ≡ [] }
    {
        ChannelEntries::new(Vec::new(alloc))
    }

    /// Returns the entries, in order.
    pub fn as_slice(&self) -> &[ChannelFlags]
        ensures { result.now ≡ self.now }
    {
        self.items.as_slice()
    }

    /// Returns the number of entries.
    pub fn len(&self) -> usize
        ensures { result ≡ length self.now }
    {
        self.items.len()
    }

    /// Returns the entries as a `Vec`. Does not allocate.
    pub fn into_vec(self) -> Vec<ChannelFlags>
        ensures { result.items ≡ self }
    {
        self.items
    }

    /// Returns the entry of `channel`, compared by casemapping, if there is one.
    pub fn get(&self, channel: &[u8]) -> Option<&ChannelFlags>
        ensures { option_copied result ≡ entry_of channel.now self.now }
    {
        entry_of(self.items.as_slice(), channel)
    }

    // Copies the entries, and sets flags on a channel in the copy.
    pub(crate) fn with(
        &self,
        alloc: Global,
        channel: &Text,
        flags: Flags,
    ) -> Result<ChannelEntries, NoMemory>
        requires { flags ≢ 0 }
        ensures { IfOk result (λ entries. entries ≡ set_channel channel.now flags self.now) }
    {
        let channel = channel.copy(alloc)?;
        let mut items = copies_of(alloc, self.items.as_slice())?;
        put(&mut items, ChannelFlags { channel, flags })?;
        Ok(ChannelEntries { items })
    }

    // Removes the entry of a channel.
    pub(crate) fn remove(&mut self, channel: &[u8])
        ensures { self.new ≡ entries_without channel.now self.old }
    {
        keep_others(&mut self.items, channel);
    }
}

impl TryCopy for ChannelEntries {
    fn copy(&self, alloc: Global) -> Result<ChannelEntries, NoMemory> {
        let items = copies_of(alloc, self.items.as_slice())?;
        Ok(ChannelEntries { items })
    }
}

// The entry of the channel.
pub(crate) fn entry_of<'a>(entries: &'a [ChannelFlags], channel: &[u8]) -> Option<&'a ChannelFlags>
    ensures { option_copied result ≡ entry_of channel.now entries.now }
{
    entries
        .iter()
        .find(|entry| is_same(channel, entry.channel.as_bytes()))
}

// Removes the entry of this channel, and keeps the others in their order.
fn keep_others(entries: &mut Vec<ChannelFlags>, channel: &[u8])
    ensures { entries.new.items ≡ entries_without channel.now entries.old.items }
{
    entries.retain(|entry| !is_same(channel, entry.channel.as_bytes()));
}

// Replaces the entry of the same channel, or appends the entry if there is none.
fn put(entries: &mut Vec<ChannelFlags>, entry: ChannelFlags) -> Result<(), NoMemory>
    ensures ok { OnOk result (entries.new.items ≡ with_entry entry entries.old.items) }
    ensures err { OnErr result (entries.new.items ≡ entries.old.items) }
{
    match place_of(entries.as_slice(), entry.channel.as_bytes()) {
        Some(place) => entries[place] = entry,
        None => entries.push(entry)?,
    }
    Ok(())
}

// The index of the channel's entry.
fn place_of(entries: &[ChannelFlags], channel: &[u8]) -> Option<usize>
    ensures { result ≡ position_from (λ e. is_same channel.now e.channel) 0 entries.now }
{
    entries
        .iter()
        .position(|entry| is_same(channel, entry.channel.as_bytes()))
}
