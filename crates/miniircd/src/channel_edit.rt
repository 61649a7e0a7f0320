// How commands change channels.
ghost use Rattle.std.specs.Prelude.{◌≡◌, ◌++◌, ◌∷◌, [], IfOk, OnOk, map, filter, not};
ghost use Rattle.std.specs.Option.{option_copied};
ghost use Rattle.miniircd.specs.Rooms.{seen, is_client, plain, marked, members_after, topic_after, edited, edited_if, is_used, concerns, rooms_after, bans_after};

use crate::bans::{other_bans, push_ban};
use crate::member::{ServerChannel, ServerMember, plain};
use crate::texts::is_same;
use bytetext::{NoMemory, Seq, Text, TryCopy, copies_of};
use std::alloc::Global;
use wildmask::Mask;

/// A change of a channel.
#[derive(Clone, Copy)]
pub enum ChannelEdit<'a> {
    // A client joins.
    Enter(usize),
    // A client leaves.
    Leave(usize),
    // The topic becomes this one.
    Title(&'a [u8]),
    // A mark of a client is set or cleared: the voice if `is_voice`, or else the mark of an operator.
    Mark {
        client: usize,
        is_voice: bool,
        on: bool,
    },
    // The ban of a text is set or cleared.
    Ban {
        text: &'a [u8],
        on: bool,
    },
}

fn marked(member: ServerMember, client: usize, is_voice: bool, on: bool) -> ServerMember
    ensures { result ≡ marked client is_voice on member }
{
    if member.client != client {
        return member;
    }
    if is_voice {
        ServerMember {
            voice: on,
            ..member
        }
    } else {
        ServerMember { op: on, ..member }
    }
}

// Returns the members, with the marks of a client changed.
fn marked_each(
    alloc: Global,
    members: &[ServerMember],
    client: usize,
    is_voice: bool,
    on: bool,
) -> Result<Vec<ServerMember>, NoMemory>
    ensures { IfOk result (λ after. after.items ≡ map (marked client is_voice on) members.now) }
{
    let mut after = Vec::with_capacity(alloc, members.len())?;
    for member in members {
        after.push(marked(*member, client, is_voice, on))?;
    }
    Ok(after)
}

/// Returns `members` without `client`.
pub fn without(
    alloc: Global,
    members: &[ServerMember],
    client: usize,
) -> Result<Vec<ServerMember>, NoMemory>
    ensures { IfOk result (λ after. after.items ≡ filter (λ m. not (is_client client m)) members.now) }
{
    let mut after = Vec::with_capacity(alloc, members.len())?;
    for member in members {
        if member.client != client {
            after.push(*member)?;
        }
    }
    Ok(after)
}

// Returns `members` and `client`, who has no mark.
fn with(
    alloc: Global,
    members: &[ServerMember],
    client: usize,
) -> Result<Vec<ServerMember>, NoMemory>
    ensures { IfOk result (λ after. after.items ≡ members.now ++ plain client ∷ []) }
{
    let mut after = Vec::from_slice(alloc, members)?;
    after.push(plain(client))?;
    Ok(after)
}

fn members_after(
    alloc: Global,
    members: &[ServerMember],
    edit: ChannelEdit<'_>,
) -> Result<Vec<ServerMember>, NoMemory>
    ensures { IfOk result (λ after. after.items ≡ members_after (seen edit.entry) members.now) }
{
    match edit {
        ChannelEdit::Enter(client) => with(alloc, members, client),
        ChannelEdit::Leave(client) => without(alloc, members, client),
        ChannelEdit::Title(_) | ChannelEdit::Ban { .. } => copies_of(alloc, members),
        ChannelEdit::Mark {
            client,
            is_voice,
            on,
        } => marked_each(alloc, members, client, is_voice, on),
    }
}

fn topic_after<'a>(topic: &'a [u8], edit: ChannelEdit<'a>) -> &'a [u8]
    ensures { result.now ≡ topic_after (seen edit.entry) topic.now }
{
    match edit {
        ChannelEdit::Title(topic) => topic,
        ChannelEdit::Enter(_)
        | ChannelEdit::Leave(_)
        | ChannelEdit::Mark { .. }
        | ChannelEdit::Ban { .. } => topic,
    }
}

fn bans_after(alloc: Global, bans: &[Mask], edit: ChannelEdit<'_>) -> Result<Vec<Mask>, NoMemory>
    ensures { IfOk result (λ after. after.items ≡ bans_after (seen edit.entry) bans.now) }
{
    match edit {
        ChannelEdit::Ban { text, on: false } => other_bans(alloc, bans, text),
        ChannelEdit::Ban { text, on: true } => {
            let mut after = other_bans(alloc, bans, text)?;
            push_ban(alloc, &mut after, text)?;
            Ok(after)
        }
        ChannelEdit::Enter(_)
        | ChannelEdit::Leave(_)
        | ChannelEdit::Title(_)
        | ChannelEdit::Mark { .. } => { copies_of(alloc, bans) }
    }
}

// Returns a channel after `edit`.
pub(crate) fn edited(
    alloc: Global,
    channel: &ServerChannel,
    edit: ChannelEdit<'_>,
) -> Result<ServerChannel, NoMemory>
    ensures { IfOk result (λ after. after ≡ edited (seen edit.entry) channel.now) }
{
    let members = members_after(alloc, channel.members.as_slice(), edit)?;
    let bans = bans_after(alloc, channel.bans.as_slice(), edit)?;
    Ok(ServerChannel {
        name: channel.name.copy(alloc)?,
        topic: Text::from_slice(alloc, topic_after(channel.topic.as_bytes(), edit))?,
        members: Seq::new(members),
        bans: Seq::new(bans),
    })
}

// Returns whether the channel is called `name`. Without a name it is true of every channel.
fn concerns(name: Option<&[u8]>, channel: &ServerChannel) -> bool
    ensures { result ≡ concerns (option_copied name.entry) channel.now }
{
    match name {
        Some(name) => is_same(name, channel.name.as_bytes()),
        None => true,
    }
}

fn edited_if(
    alloc: Global,
    name: Option<&[u8]>,
    edit: ChannelEdit<'_>,
    channel: &ServerChannel,
) -> Result<ServerChannel, NoMemory>
    ensures { IfOk result (λ after. after ≡ edited_if (option_copied name.entry) (seen edit.entry) channel.now) }
{
    if concerns(name, channel) {
        edited(alloc, channel, edit)
    } else {
        channel.copy(alloc)
    }
}

fn is_used(channel: &ServerChannel) -> bool
    ensures { result ≡ is_used channel.now }
{
    channel.members.len() > 0
}

// Appends `channel` after `edit` to `after`, unless nobody is on it.
fn push_edited(
    alloc: Global,
    after: &mut Vec<ServerChannel>,
    name: Option<&[u8]>,
    edit: ChannelEdit<'_>,
    channel: &ServerChannel,
) -> Result<(), NoMemory>
    ensures { OnOk result (after.new.items ≡ after.old.items
        ++ filter is_used (edited_if (option_copied name.entry) (seen edit.entry) channel.now ∷ [])) }
{
    let channel = edited_if(alloc, name, edit, channel)?;
    if is_used(&channel) {
        after.push(channel)?;
    }
    Ok(())
}

/// Returns `channels` after `edit` of the channel called `name`, or of every channel if there is no name. A channel
/// that nobody is on is removed.
///
/// # Errors
/// Returns `NoMemory` if an allocation fails.
pub fn rooms_after(
    alloc: Global,
    channels: &[ServerChannel],
    name: Option<&[u8]>,
    edit: ChannelEdit<'_>,
) -> Result<Vec<ServerChannel>, NoMemory>
    ensures { IfOk result
        (λ after. after.items ≡ rooms_after (option_copied name.entry) (seen edit.entry) channels.now) }
{
    edit_each(alloc, channels, &name, &edit)
}

// Does what `rooms_after` does. It borrows the name and the edit, so that its loop carries two references.
fn edit_each(
    alloc: Global,
    channels: &[ServerChannel],
    name: &Option<&[u8]>,
    edit: &ChannelEdit<'_>,
) -> Result<Vec<ServerChannel>, NoMemory>
    ensures { IfOk result
        (λ after. after.items ≡ rooms_after (option_copied name.now) (seen edit.now) channels.now) }
{
    let mut after = Vec::with_capacity(alloc, channels.len())?;
    for channel in channels {
        push_edited(alloc, &mut after, *name, *edit, channel)?;
    }
    Ok(after)
}
