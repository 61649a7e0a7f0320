// Reads the fields of a user from a record. It reads all of them before the first copy, so it allocates only if the
// bytes are a user.
ghost use Rattle.std.specs.Prelude.{◌≡◌, ◌≤◌, not, [], IfOk};
ghost use Rattle.std.specs.List.{list_any};
ghost use Rattle.rfccase.specs.Casemapping.{is_same};
ghost use Rattle.usercodec.specs.Answers.{Gives};
ghost use Rattle.userfile.specs.Held.{has_mask};
ghost use Rattle.usercodec.specs.Records.{items_at, mask_at, masks_at, has_channel, entry_at, entries_at, plain_user_at, user_at};
ghost use Rattle.usercodec.specs.Users.{texts_of, entry_of, entries_of, user_of};

use crate::fault::CodecError;
use crate::reader::{Reader, keep_if};
use arrayvec::ArrayVec;
use bytetext::{NoMemory, Text};
use flagexpr::Flags;
use rfccase::same;
use std::alloc::Global;
use userfile::{ChannelEntries, ChannelFlags, Hostmask, Hostmasks, MAX_CHANNELS, MAX_MASKS, User};

// A user whose texts are still borrowed from the bytes that were read.
#[derive(Drop)]
pub(crate) struct UserFields<'a> {
    handle: &'a [u8],
    masks: ArrayVec<&'a [u8], MAX_MASKS>,
    global: Flags,
    channels: ArrayVec<EntryFields<'a>, MAX_CHANNELS>,
    bot: Flags,
    info: &'a [u8],
}

// A user's flags on a channel, whose name is still borrowed from the bytes that were read.
#[derive(Clone, Copy)]
pub(crate) struct EntryFields<'a> {
    channel: &'a [u8],
    flags: Flags,
}

// The value of a list's unused entries.
impl<'a> Default for EntryFields<'a> {
    fn default() -> EntryFields<'a> {
        EntryFields {
            channel: &[],
            flags: Flags::empty(),
        }
    }
}

#[tactic(auto, unfolding(crate::specs::Records::user_at))]
pub(crate) fn user_fields<'a>(reader: &mut Reader<'a>) -> Result<UserFields<'a>, CodecError>
    ensures { Gives (λ fields. (user_of fields, reader.new)) result (user_at reader.old) }
{
    let mut user = plain_user_fields(reader)?;
    user.info = reader.info()?;
    Ok(user)
}

// Reads the fields before the info text, and leaves the info text empty.
#[tactic(auto, unfolding(crate::specs::Records::plain_user_at))]
pub(crate) fn plain_user_fields<'a>(reader: &mut Reader<'a>) -> Result<UserFields<'a>, CodecError>
    ensures { Gives (λ fields. (user_of fields, reader.new)) result (plain_user_at reader.old) }
{
    let handle = reader.handle()?;
    let masks = masks(reader)?;
    let global = reader.flags()?;
    let channels = entries(reader)?;
    let bot = reader.flags()?;
    Ok(UserFields {
        handle,
        masks,
        global,
        channels,
        bot,
        info: &[],
    })
}

#[tactic(auto, unfolding(crate::specs::Records::masks_at))]
fn masks<'a>(reader: &mut Reader<'a>) -> Result<ArrayVec<&'a [u8], MAX_MASKS>, CodecError>
    ensures { Gives (λ masks. (texts_of masks.items, reader.new)) result (masks_at reader.old) }
{
    let count = reader.count(MAX_MASKS)?;
    counted_masks(reader, count)
}

fn counted_masks<'a>(
    reader: &mut Reader<'a>,
    count: usize,
) -> Result<ArrayVec<&'a [u8], MAX_MASKS>, CodecError>
    requires { count ≤ MAX_MASKS }
    ensures { Gives (λ masks. (texts_of masks.items, reader.new)) result (items_at mask_at count [] reader.old) }
{
    let mut masks = ArrayVec::new();
    for _ in 0..count {
        let mask = mask(reader, masks.as_slice())?;
        masks.push(mask);
    }
    Ok(masks)
}

#[tactic(auto, unfolding(crate::specs::Records::mask_at))]
fn mask<'a>(reader: &mut Reader<'a>, held: &[&[u8]]) -> Result<&'a [u8], CodecError>
    ensures { Gives (λ mask. (mask.now, reader.new)) result (mask_at (texts_of held.now) reader.old) }
{
    let mask = reader.hostmask()?;
    keep_if(is_new_mask(held, mask), mask)
}

// Whether none of these masks is the same by casemapping.
fn is_new_mask(held: &[&[u8]], mask: &[u8]) -> bool
    ensures { result ≡ not (has_mask mask.now (texts_of held.now)) }
{
    !has_text(held, mask)
}

fn has_text(held: &[&[u8]], text: &[u8]) -> bool
    ensures { result ≡ list_any (λ other. is_same text.now other.now) held.now }
{
    held.iter().any(|other| same(text, other))
}

#[tactic(auto, unfolding(crate::specs::Records::entries_at))]
fn entries<'a>(
    reader: &mut Reader<'a>,
) -> Result<ArrayVec<EntryFields<'a>, MAX_CHANNELS>, CodecError>
    ensures { Gives (λ entries. (entries_of entries.items, reader.new)) result (entries_at reader.old) }
{
    let count = reader.count(MAX_CHANNELS)?;
    counted_entries(reader, count)
}

fn counted_entries<'a>(
    reader: &mut Reader<'a>,
    count: usize,
) -> Result<ArrayVec<EntryFields<'a>, MAX_CHANNELS>, CodecError>
    requires { count ≤ MAX_CHANNELS }
    ensures { Gives (λ entries. (entries_of entries.items, reader.new)) result (items_at entry_at count [] reader.old) }
{
    let mut entries = ArrayVec::new();
    for _ in 0..count {
        match entry(reader, entries.as_slice()) {
            Ok(entry) => entries.push(entry),
            Err(error) => return Err(error),
        }
    }
    Ok(entries)
}

#[tactic(auto, unfolding(crate::specs::Records::entry_at))]
fn entry<'a>(
    reader: &mut Reader<'a>,
    held: &[EntryFields<'a>],
) -> Result<EntryFields<'a>, CodecError>
    ensures { Gives (λ entry. (entry_of entry, reader.new)) result (entry_at (entries_of held.now) reader.old) }
{
    let channel = reader.channel()?;
    let channel = keep_if(is_new_channel(held, channel), channel)?;
    let flags = reader.flags()?;
    let flags = keep_if(!flags.is_empty(), flags)?;
    Ok(EntryFields { channel, flags })
}

// Whether none of these entries is of the channel, by casemapping.
fn is_new_channel(held: &[EntryFields<'_>], channel: &[u8]) -> bool
    ensures { result ≡ not (has_channel channel.now (entries_of held.now)) }
{
    !has_name(held, channel)
}

fn has_name(held: &[EntryFields<'_>], channel: &[u8]) -> bool
    ensures { result ≡ list_any (λ entry. is_same channel.now entry.channel.now) held.now }
{
    held.iter().any(|entry| same(channel, entry.channel))
}

impl<'a> UserFields<'a> {
    ghost use Rattle.std.specs.Prelude.{◌≡◌, IfOk};
    ghost use Rattle.usercodec.specs.Users.{user_of};

    // Copies these fields into a user.
    pub(crate) fn copy(&self, alloc: Global) -> Result<User, NoMemory>
        ensures { IfOk result (λ user. user ≡ user_of self.now) }
    {
        let handle = Text::from_slice(alloc, self.handle)?;
        let masks = hostmasks(alloc, &self.masks)?;
        let channels = channel_flags(alloc, &self.channels)?;
        Ok(User {
            handle,
            masks: Hostmasks::new(masks),
            global: self.global,
            channels: ChannelEntries::new(channels),
            bot: self.bot,
            info: Text::from_slice(alloc, self.info)?,
        })
    }
}

fn hostmasks(alloc: Global, texts: &[&[u8]]) -> Result<Vec<Hostmask>, NoMemory>
    ensures { IfOk result (λ masks. masks.items ≡ texts_of texts.now) }
{
    let mut masks = Vec::with_capacity(alloc, texts.len())?;
    for text in texts {
        masks.push(hostmask(alloc, text)?)?;
    }
    Ok(masks)
}

// Creates the hostmask of a text that is one, so that only the allocation can fail.
pub(crate) fn hostmask(alloc: Global, text: &[u8]) -> Result<Hostmask, NoMemory>
    ensures { IfOk result (λ mask. mask ≡ text.now) }
{
    match Hostmask::new(alloc, text) {
        Ok(mask) => Ok(mask),
        Err(_) => Err(NoMemory),
    }
}

fn channel_flags(alloc: Global, entries: &[EntryFields<'_>]) -> Result<Vec<ChannelFlags>, NoMemory>
    ensures { IfOk result (λ made. made.items ≡ entries_of entries.now) }
{
    let mut made = Vec::with_capacity(alloc, entries.len())?;
    for entry in entries {
        let channel = Text::from_slice(alloc, entry.channel)?;
        made.push(ChannelFlags {
            channel,
            flags: entry.flags,
        })?;
    }
    Ok(made)
}
