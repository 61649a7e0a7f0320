// NAMES and WHO (RFC 2812 sections 3.2.5 and 3.6.1).
ghost use Rattle.std.specs.Prelude.{◌≡◌, OnOk};
ghost use Rattle.miniircd.specs.Mail.{readers};

use crate::client_identity::ClientIdentity;
use crate::lines::repeated;
use crate::member::{ServerChannel, ServerMember, channel_of};
use crate::names::{marks, tell_names};
use crate::post::Post;
use crate::replies::{Sender, tell, tell_of};
use bytetext::NoMemory;
use slab::Slab;
use std::alloc::Global;

// Returns the members of the channel called `name`.
fn members_of<'a>(channels: &'a [ServerChannel], name: &[u8]) -> &'a [ServerMember] {
    match channel_of(channels, name) {
        Some(channel) => channel.members.as_slice(),
        None => &[],
    }
}

/// Answers a NAMES of the client `me` for the channel `name`. A channel that doesn't exist has no members.
///
/// # Errors
/// Returns `NoMemory` if an allocation fails.
pub fn names(
    alloc: Global,
    post: &mut Post<'_>,
    clients: &Slab<ClientIdentity>,
    channels: &[ServerChannel],
    me: &Sender<'_>,
    name: &[u8],
) -> Result<(), NoMemory>
    ensures { OnOk result (readers post.new ≡ readers post.old) }
{
    let members = members_of(channels, name);
    tell_names(alloc, post, clients, me, name, members)
}

// Returns the words of the reply about a member, with a space before each.
fn words_of(
    alloc: Global,
    name: &[u8],
    member: &ServerMember,
    person: &ClientIdentity,
) -> Result<Vec<u8>, NoMemory> {
    let name = repeated(alloc, name)?;
    let (nick, user) = (person.nick.as_bytes(), person.user.as_bytes());
    let words = [
        name.as_slice(),
        b" ",
        user,
        b" local irc.test ",
        nick,
        b" H",
    ];
    let mut words = words.concat(alloc)?;
    words.extend_from_slice(marks(member))?;
    Ok(words)
}

// Sends the reply about one member.
fn tell_member(
    alloc: Global,
    post: &mut Post<'_>,
    clients: &Slab<ClientIdentity>,
    me: &Sender<'_>,
    name: &[u8],
    member: &ServerMember,
) -> Result<(), NoMemory>
    ensures { OnOk result (readers post.new ≡ readers post.old) }
{
    let Some(person) = clients.get(member.client) else {
        return Ok(());
    };
    let words = words_of(alloc, name, member, person)?;
    let last = [b"0 ", person.nick.as_bytes()].concat(alloc)?;
    tell(alloc, post, me, b"352", words.as_slice(), last.as_slice())
}

/// Answers a WHO of the client `me` for the channel `name`. A channel that doesn't exist has no members.
///
/// # Errors
/// Returns `NoMemory` if an allocation fails.
pub fn who(
    alloc: Global,
    post: &mut Post<'_>,
    clients: &Slab<ClientIdentity>,
    channels: &[ServerChannel],
    me: &Sender<'_>,
    name: &[u8],
) -> Result<(), NoMemory>
    ensures { OnOk result (readers post.new ≡ readers post.old) }
{
    for member in members_of(channels, name) {
        tell_member(alloc, post, clients, me, name, member)?;
    }
    tell_of(alloc, post, me, b"315", name, b"End of who")
}
