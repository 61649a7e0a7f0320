// Walks over the clients.
ghost use Rattle.std.specs.Prelude.{◌≡◌, OnOk};
ghost use Rattle.miniircd.specs.People.{holder};
ghost use Rattle.miniircd.specs.Mail.{readers};

use crate::client_identity::ClientIdentity;
use crate::member::{ServerChannel, is_member};
use crate::post::Post;
use bytetext::NoMemory;
use slab::Slab;
use std::alloc::Global;

/// Returns the client that holds `nick`.
pub fn holder(clients: &Slab<ClientIdentity>, nick: &[u8]) -> Option<usize>
    ensures { result ≡ holder nick.now clients.now.slots }
{
    for (client, person) in clients.iter() {
        if person.is_called(nick) {
            return Some(client);
        }
    }
    None
}

// Returns whether the clients `a` and `b` share a channel.
fn shares(channels: &[ServerChannel], a: usize, b: usize) -> bool {
    channels.iter().any(|channel| {
        is_member(channel.members.as_slice(), a) && is_member(channel.members.as_slice(), b)
    })
}

/// Sends `text` once to each other client that shares a channel with `client`.
///
/// # Errors
/// Returns `NoMemory` if an allocation fails.
pub fn spread_to_neighbours(
    alloc: Global,
    post: &mut Post<'_>,
    clients: &Slab<ClientIdentity>,
    channels: &[ServerChannel],
    client: usize,
    text: &[u8],
) -> Result<(), NoMemory>
    ensures { OnOk result (readers post.new ≡ readers post.old) }
{
    for (other, _) in clients.iter() {
        if other != client && shares(channels, client, other) {
            post.send(alloc, other, text)?;
        }
    }
    Ok(())
}
