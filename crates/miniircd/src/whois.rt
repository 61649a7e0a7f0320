// WHOIS (RFC 2812 section 3.6.2).
ghost use Rattle.std.specs.Prelude.{◌≡◌, OnOk};
ghost use Rattle.miniircd.specs.Mail.{readers};

use crate::client_identity::ClientIdentity;
use crate::lines::repeated;
use crate::member::{ServerChannel, member_of};
use crate::names::marked_name;
use crate::people::holder;
use crate::post::Post;
use crate::replies::{Sender, tell, tell_of};
use crate::talk::if_there;
use bytetext::NoMemory;
use slab::Slab;
use std::alloc::Global;

/// Answers a WHOIS of the client `me` for `nick`. The server keeps no real names and replies with the nick where one
/// belongs.
///
/// # Errors
/// Returns `NoMemory` if an allocation fails.
pub fn whois(
    alloc: Global,
    post: &mut Post<'_>,
    clients: &Slab<ClientIdentity>,
    channels: &[ServerChannel],
    me: &Sender<'_>,
    nick: &[u8],
) -> Result<(), NoMemory>
    ensures { OnOk result (readers post.new ≡ readers post.old) }
{
    if nick.is_empty() {
        return tell(alloc, post, me, b"431", b"", b"No nickname given");
    }
    tell_nick(alloc, post, clients, channels, me, nick)?;
    tell_of(alloc, post, me, b"318", nick, b"End of WHOIS list")
}

// Sends the replies about the registered client called `nick`, or the reply that there is none.
fn tell_nick(
    alloc: Global,
    post: &mut Post<'_>,
    clients: &Slab<ClientIdentity>,
    channels: &[ServerChannel],
    me: &Sender<'_>,
    nick: &[u8],
) -> Result<(), NoMemory>
    ensures { OnOk result (readers post.new ≡ readers post.old) }
{
    match if_there(clients, holder(clients, nick)) {
        Some(client) => tell_client(alloc, post, clients, channels, me, client),
        None => tell_of(alloc, post, me, b"401", nick, b"No such nick"),
    }
}

// Sends the replies about a connected client.
fn tell_client(
    alloc: Global,
    post: &mut Post<'_>,
    clients: &Slab<ClientIdentity>,
    channels: &[ServerChannel],
    me: &Sender<'_>,
    client: usize,
) -> Result<(), NoMemory>
    ensures { OnOk result (readers post.new ≡ readers post.old) }
{
    let Some(person) = clients.get(client) else {
        return Ok(());
    };
    let nick = person.nick.as_bytes();
    let words = words_of(alloc, person)?;
    tell(alloc, post, me, b"311", words.as_slice(), nick)?;
    tell_channels(alloc, post, channels, me, client, nick)?;
    tell_server(alloc, post, me, nick)
}

// Sends the reply that says which server a client is on: this one.
fn tell_server(
    alloc: Global,
    post: &mut Post<'_>,
    me: &Sender<'_>,
    nick: &[u8],
) -> Result<(), NoMemory>
    ensures { OnOk result (readers post.new ≡ readers post.old) }
{
    let mut words = repeated(alloc, nick)?;
    words.extend_from_slice(b" irc.test")?;
    tell(alloc, post, me, b"312", words.as_slice(), b"A small server")
}

// Returns the words of the reply about a client, with a space before each.
fn words_of(alloc: Global, person: &ClientIdentity) -> Result<Vec<u8>, NoMemory> {
    let nick = repeated(alloc, person.nick.as_bytes())?;
    let words = [nick.as_slice(), b" ", person.user.as_bytes(), b" local *"];
    Ok(words.concat(alloc)?)
}

// Sends the channels that a client is on, each in a reply of its own.
fn tell_channels(
    alloc: Global,
    post: &mut Post<'_>,
    channels: &[ServerChannel],
    me: &Sender<'_>,
    client: usize,
    nick: &[u8],
) -> Result<(), NoMemory>
    ensures { OnOk result (readers post.new ≡ readers post.old) }
{
    for channel in channels {
        if let Some(member) = member_of(channel.members.as_slice(), client) {
            let name = marked_name(alloc, member, channel.name.as_bytes())?;
            tell_of(alloc, post, me, b"319", nick, name.as_bytes())?;
        }
    }
    Ok(())
}
