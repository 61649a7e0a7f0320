// PART, TOPIC and KICK (RFC 2812 sections 3.2.2, 3.2.4 and 3.2.8).
ghost use Rattle.std.specs.Prelude.{◌≡◌, Some, IfOk, OnOk};
ghost use Rattle.std.specs.Option.{option_copied};
ghost use Rattle.miniircd.specs.People.{holder};
ghost use Rattle.miniircd.specs.Mail.{readers};
ghost use Rattle.miniircd.specs.declared.server_change.ServerChange.TheVariants.{Same, Channels};
ghost use Rattle.miniircd.specs.Rooms.{room, rooms_after, seen};
ghost use Rattle.miniircd.specs.Commands.{standing_in, part_change, topic_change, target_on, kicked, kick_change};

use crate::channel_edit::{ChannelEdit, rooms_after};
use crate::client_identity::ClientIdentity;
use crate::lines::{relayed, source_of};
use crate::member::{ServerChannel, channel_of, is_on};
use crate::people::holder;
use crate::post::Post;
use crate::replies::{Sender, spread, tell_of};
use crate::server_change::ServerChange;
use crate::standing::{Standing, find_standing};
use bytetext::{NoMemory, Seq};
use slab::Slab;
use std::alloc::Global;

/// Tells the client `me` why it can't give a command on the channel `name`, by its `standing`.
///
/// # Errors
/// Returns `NoMemory` if an allocation fails.
pub fn turn_away(
    alloc: Global,
    post: &mut Post<'_>,
    me: &Sender<'_>,
    name: &[u8],
    standing: Standing,
) -> Result<(), NoMemory>
    ensures { OnOk result (readers post.new ≡ readers post.old) }
{
    match standing {
        Standing::Unknown => tell_of(alloc, post, me, b"403", name, b"No such channel"),
        Standing::Outside => tell_of(alloc, post, me, b"442", name, b"Not on channel"),
        Standing::Plain | Standing::Op => {
            tell_of(alloc, post, me, b"482", name, b"Not operator")
        }
    }
}

/// Sends the message `command` of the client `me` to all who are on the channel `name`. `words` follow the name with a
/// space before each, and `last` is the last parameter.
///
/// # Errors
/// Returns `NoMemory` if an allocation fails.
pub fn pass_on(
    alloc: Global,
    post: &mut Post<'_>,
    channels: &[ServerChannel],
    me: &Sender<'_>,
    command: &[u8],
    name: &[u8],
    words: &[u8],
    last: &[u8],
) -> Result<(), NoMemory>
    ensures { OnOk result (readers post.new ≡ readers post.old) }
{
    let Some(channel) = channel_of(channels, name) else {
        return Ok(());
    };
    let source = source_of(alloc, me.person)?;
    let mut all = Vec::from_slice(alloc, b" ")?;
    all.extend_from_slice(name)?;
    all.extend_from_slice(words)?;
    let line = relayed(alloc, source.as_slice(), command, all.as_slice(), last)?;
    spread(alloc, post, channel.members.as_slice(), line.as_slice())
}

// Sends a message of a client whose only parameter is a channel's name to all who are on the channel.
fn pass_name_on(
    alloc: Global,
    post: &mut Post<'_>,
    channels: &[ServerChannel],
    me: &Sender<'_>,
    command: &[u8],
    name: &[u8],
) -> Result<(), NoMemory>
    ensures { OnOk result (readers post.new ≡ readers post.old) }
{
    let Some(channel) = channel_of(channels, name) else {
        return Ok(());
    };
    let source = source_of(alloc, me.person)?;
    let line = relayed(alloc, source.as_slice(), command, b"", name)?;
    spread(alloc, post, channel.members.as_slice(), line.as_slice())
}

/// Answers a PART of the client `me` from the channel `name`, with the `text` that the client may give.
///
/// # Errors
/// Returns `NoMemory` if an allocation fails.
pub fn part(
    alloc: Global,
    post: &mut Post<'_>,
    channels: &[ServerChannel],
    me: &Sender<'_>,
    name: &[u8],
    text: Option<&[u8]>,
) -> Result<ServerChange, NoMemory>
    ensures change { IfOk result (λ change. change
        ≡ part_change (standing_in me.now.key (room name.now channels.now)) me.now.key name.now channels.now) }
    ensures readers { OnOk result (readers post.new ≡ readers post.old) }
{
    let standing = find_standing(channels, name, me.key);
    match standing {
        Standing::Unknown | Standing::Outside => refuse(alloc, post, me, name, standing),
        Standing::Plain | Standing::Op => {
            pass_part_on(alloc, post, channels, me, name, text)?;
            change_room(alloc, channels, name, ChannelEdit::Leave(me.key))
        }
    }
}

// Sends a PART to all who are on the channel.
fn pass_part_on(
    alloc: Global,
    post: &mut Post<'_>,
    channels: &[ServerChannel],
    me: &Sender<'_>,
    name: &[u8],
    text: Option<&[u8]>,
) -> Result<(), NoMemory>
    ensures { OnOk result (readers post.new ≡ readers post.old) }
{
    match text {
        Some(text) => pass_on(alloc, post, channels, me, b"PART", name, b"", text),
        None => pass_name_on(alloc, post, channels, me, b"PART", name),
    }
}

// Tells the client `me` why it can't give a command on the channel `name`, and changes nothing.
fn refuse(
    alloc: Global,
    post: &mut Post<'_>,
    me: &Sender<'_>,
    name: &[u8],
    standing: Standing,
) -> Result<ServerChange, NoMemory>
    ensures change { IfOk result (λ change. change ≡ Same) }
    ensures readers { OnOk result (readers post.new ≡ readers post.old) }
{
    turn_away(alloc, post, me, name, standing)?;
    Ok(ServerChange::Same)
}

// Returns the change of the channel `name` by `edit`.
fn change_room(
    alloc: Global,
    channels: &[ServerChannel],
    name: &[u8],
    edit: ChannelEdit<'_>,
) -> Result<ServerChange, NoMemory>
    ensures { IfOk result (λ change. change
        ≡ Channels (rooms_after (Some name.now) (seen edit.entry) channels.now)) }
{
    let after = rooms_after(alloc, channels, Some(name), edit)?;
    Ok(ServerChange::Channels(Seq::new(after)))
}

// Sends the topic of a channel to the client that asked.
fn tell_topic(
    alloc: Global,
    post: &mut Post<'_>,
    channels: &[ServerChannel],
    me: &Sender<'_>,
    name: &[u8],
) -> Result<(), NoMemory>
    ensures { OnOk result (readers post.new ≡ readers post.old) }
{
    let Some(channel) = channel_of(channels, name) else {
        return Ok(());
    };
    match channel.topic.as_bytes() {
        [] => tell_of(alloc, post, me, b"331", name, b"No topic"),
        topic => tell_of(alloc, post, me, b"332", name, topic),
    }
}

/// Answers a TOPIC of the client `me` for the channel `name`. Without a `text` it asks for the topic.
///
/// # Errors
/// Returns `NoMemory` if an allocation fails.
pub fn topic(
    alloc: Global,
    post: &mut Post<'_>,
    channels: &[ServerChannel],
    me: &Sender<'_>,
    name: &[u8],
    text: Option<&[u8]>,
) -> Result<ServerChange, NoMemory>
    ensures change { IfOk result (λ change. change
        ≡ topic_change (standing_in me.now.key (room name.now channels.now)) name.now (option_copied text.entry) channels.now) }
    ensures readers { OnOk result (readers post.new ≡ readers post.old) }
{
    let standing = find_standing(channels, name, me.key);
    match (standing, text) {
        (Standing::Unknown | Standing::Outside, _) => refuse(alloc, post, me, name, standing),
        (Standing::Plain | Standing::Op, None) => {
            tell_topic(alloc, post, channels, me, name)?;
            Ok(ServerChange::Same)
        }
        (Standing::Plain | Standing::Op, Some(text)) => {
            pass_on(alloc, post, channels, me, b"TOPIC", name, b"", text)?;
            change_room(alloc, channels, name, ChannelEdit::Title(text))
        }
    }
}

/// Returns the member of the channel `name` that holds `nick`.
pub fn target_on(
    clients: &Slab<ClientIdentity>,
    channels: &[ServerChannel],
    name: &[u8],
    nick: &[u8],
) -> Option<usize>
    ensures { result ≡ target_on clients.now.slots channels.now name.now nick.now }
{
    match holder(clients, nick) {
        Some(client) if is_on(channels, name, client) => Some(client),
        Some(_) | None => None,
    }
}

// Kicks a client off a channel, if it is a member.
fn kick_out(
    alloc: Global,
    post: &mut Post<'_>,
    channels: &[ServerChannel],
    me: &Sender<'_>,
    name: &[u8],
    nick: &[u8],
    reason: &[u8],
    target: Option<usize>,
) -> Result<ServerChange, NoMemory>
    ensures change { IfOk result (λ change. change ≡ kicked target name.now channels.now) }
    ensures readers { OnOk result (readers post.new ≡ readers post.old) }
{
    let Some(client) = target else {
        tell_of(alloc, post, me, b"401", nick, b"No such nick")?;
        return Ok(ServerChange::Same);
    };
    pass_kick_on(alloc, post, channels, me, name, nick, reason)?;
    change_room(alloc, channels, name, ChannelEdit::Leave(client))
}

// Sends a KICK to all who are on the channel.
fn pass_kick_on(
    alloc: Global,
    post: &mut Post<'_>,
    channels: &[ServerChannel],
    me: &Sender<'_>,
    name: &[u8],
    nick: &[u8],
    reason: &[u8],
) -> Result<(), NoMemory>
    ensures { OnOk result (readers post.new ≡ readers post.old) }
{
    let words = [b" ", nick].concat(alloc)?;
    pass_on(
        alloc,
        post,
        channels,
        me,
        b"KICK",
        name,
        words.as_slice(),
        reason,
    )
}

/// Answers a KICK of `nick` off the channel `name`. If there is no `reason`, the nick of the client `me` is the reason.
///
/// # Errors
/// Returns `NoMemory` if an allocation fails.
pub fn kick(
    alloc: Global,
    post: &mut Post<'_>,
    clients: &Slab<ClientIdentity>,
    channels: &[ServerChannel],
    me: &Sender<'_>,
    name: &[u8],
    nick: &[u8],
    reason: Option<&[u8]>,
) -> Result<ServerChange, NoMemory>
    ensures change { IfOk result (λ change. change
        ≡ kick_change (standing_in me.now.key (room name.now channels.now)) clients.now.slots name.now nick.now channels.now) }
    ensures readers { OnOk result (readers post.new ≡ readers post.old) }
{
    let standing = find_standing(channels, name, me.key);
    match standing {
        Standing::Unknown | Standing::Outside | Standing::Plain => {
            refuse(alloc, post, me, name, standing)
        }
        Standing::Op => {
            let target = target_on(clients, channels, name, nick);
            let reason = reason.unwrap_or(me.person.nick.as_bytes());
            kick_out(alloc, post, channels, me, name, nick, reason, target)
        }
    }
}
