// Channels and their members.
ghost use Rattle.std.specs.Prelude.{◌≡◌, IfOk};
ghost use Rattle.std.specs.Option.{option_copied};
ghost use Rattle.miniircd.specs.Rooms.{plain, room, member_of, opened, has_member, is_on_some};

use crate::texts::is_same;
use bytetext::{NoMemory, Seq, Text, TryCopy};
use std::alloc::Global;
use wildmask::Mask;

/// A client that is on a channel.
#[derive(Clone, Copy, Debug)]
pub struct ServerMember {
    /// The client's number.
    pub client: usize,
    /// Whether it is a channel operator.
    pub op: bool,
    /// Whether it has voice.
    pub voice: bool,
}

impl TryCopy for ServerMember {
    fn copy(&self, _alloc: Global) -> Result<ServerMember, NoMemory> {
        Ok(*self)
    }
}

/// A channel that somebody is on.
#[derive(Debug)]
pub struct ServerChannel {
    /// The name, as the first member spelled it.
    pub name: Text,
    /// The topic, empty if there is none.
    pub topic: Text,
    /// The members in the order in which they joined.
    pub members: Seq<ServerMember>,
    /// The bans, hostmasks of people who can't join, in the order in which they were set.
    pub bans: Seq<Mask>,
}

// Written by hand, so that it is proved once and not in each function that drops a `ServerChannel`.
impl Drop for ServerChannel {
    fn drop(self) {
        let ServerChannel {
            name: _,
            topic: _,
            members: _,
            bans: _,
        } = self;
    }
}

impl TryCopy for ServerChannel {
    fn copy(&self, alloc: Global) -> Result<ServerChannel, NoMemory> {
        Ok(ServerChannel {
            name: self.name.copy(alloc)?,
            topic: self.topic.copy(alloc)?,
            members: self.members.copy(alloc)?,
            bans: self.bans.copy(alloc)?,
        })
    }
}

// Creates a member who joins a channel that has members.
pub(crate) fn plain(client: usize) -> ServerMember
    ensures { result ≡ plain client }
{
    ServerMember {
        client,
        op: false,
        voice: false,
    }
}

/// Creates the channel called `name` that `client` makes by joining it. The client is its operator.
///
/// # Errors
/// Returns `NoMemory` if an allocation fails.
pub fn opened(alloc: Global, name: &[u8], client: usize) -> Result<ServerChannel, NoMemory>
    ensures { IfOk result (λ channel. channel ≡ opened name.now client) }
{
    let mut members = Seq::empty(alloc);
    members.push(ServerMember {
        client,
        op: true,
        voice: false,
    })?;
    Ok(ServerChannel {
        name: Text::from_slice(alloc, name)?,
        topic: Text::empty(alloc),
        members,
        bans: Seq::empty(alloc),
    })
}

/// Returns the channel called `name`, by casemapping.
pub fn channel_of<'a>(channels: &'a [ServerChannel], name: &[u8]) -> Option<&'a ServerChannel>
    ensures { option_copied result ≡ room name.now channels.now }
{
    channels
        .iter()
        .find(|channel| is_same(name, channel.name.as_bytes()))
}

/// Returns `client` as one of `members`.
pub fn member_of(members: &[ServerMember], client: usize) -> Option<&ServerMember>
    ensures { option_copied result ≡ member_of client members.now }
{
    members.iter().find(|member| member.client == client)
}

/// Returns whether `client` is one of `members`.
pub fn is_member(members: &[ServerMember], client: usize) -> bool
    ensures { result ≡ has_member client members.now }
{
    members.iter().any(|member| member.client == client)
}

/// Returns whether `client` is on the channel called `name`.
pub fn is_on(channels: &[ServerChannel], name: &[u8], client: usize) -> bool
    ensures { result ≡ is_on_some client (room name.now channels.now) }
{
    match channel_of(channels, name) {
        Some(channel) => is_member(channel.members.as_slice(), client),
        None => false,
    }
}
