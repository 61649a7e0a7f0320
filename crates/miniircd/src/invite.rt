// INVITE (RFC 2812 section 3.2.7).
ghost use Rattle.std.specs.Prelude.{◌≡◌, OnOk};
ghost use Rattle.miniircd.specs.Mail.{readers};

use crate::client_identity::ClientIdentity;
use crate::lines::{relayed, repeated, source_of};
use crate::member::{ServerChannel, channel_of, is_member};
use crate::people::holder;
use crate::post::Post;
use crate::replies::{Sender, tell, tell_of};
use crate::talk::if_there;
use bytetext::NoMemory;
use slab::Slab;
use std::alloc::Global;

/// Answers an INVITE by `me` of `nick` to the channel `name`, which need not exist. An INVITE doesn't let in a client
/// that a ban keeps out.
///
/// # Errors
/// Returns `NoMemory` if an allocation fails.
pub fn invite(
    alloc: Global,
    post: &mut Post<'_>,
    clients: &Slab<ClientIdentity>,
    channels: &[ServerChannel],
    me: &Sender<'_>,
    nick: &[u8],
    name: &[u8],
) -> Result<(), NoMemory>
    ensures { OnOk result (readers post.new ≡ readers post.old) }
{
    let Some(client) = if_there(clients, holder(clients, nick)) else {
        return tell_of(alloc, post, me, b"401", nick, b"No such nick");
    };
    if let Some(channel) = channel_of(channels, name) {
        if !is_member(channel.members.as_slice(), me.key) {
            return tell_of(alloc, post, me, b"442", name, b"Not on channel");
        }
        if is_member(channel.members.as_slice(), client) {
            let words = both(alloc, nick, name)?;
            return tell(
                alloc,
                post,
                me,
                b"443",
                words.as_slice(),
                b"is already on channel",
            );
        }
    }
    let words = repeated(alloc, name)?;
    tell(alloc, post, me, b"341", words.as_slice(), nick)?;
    pass_on(alloc, post, me, client, nick, name)
}

// Returns the two words that a reply repeats, with a space before each.
fn both(alloc: Global, first: &[u8], second: &[u8]) -> Result<Vec<u8>, NoMemory> {
    let mut words = repeated(alloc, first)?;
    words.extend_from_slice(repeated(alloc, second)?.as_slice())?;
    Ok(words)
}

// Sends the INVITE to the invited client.
fn pass_on(
    alloc: Global,
    post: &mut Post<'_>,
    me: &Sender<'_>,
    client: usize,
    nick: &[u8],
    name: &[u8],
) -> Result<(), NoMemory>
    ensures { OnOk result (readers post.new ≡ readers post.old) }
{
    let source = source_of(alloc, me.person)?;
    let words = repeated(alloc, nick)?;
    let line = relayed(alloc, source.as_slice(), b"INVITE", words.as_slice(), name)?;
    post.send(alloc, client, line.as_slice())
}
