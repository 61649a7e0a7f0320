// PRIVMSG and NOTICE (RFC 2812 section 3.3), and PING (section 3.7.2).
ghost use Rattle.std.specs.Prelude.{◌≡◌, ◌∷◌, [], IfOk, OnOk};
ghost use Rattle.std.specs.Option.{option_copied};
ghost use Rattle.miniircd.specs.People.{holder};
ghost use Rattle.miniircd.specs.Mail.{posted, readers};
ghost use Rattle.miniircd.specs.Talk.{loudly, speech, talk_to_room, talk_to_client, talk_letters, if_there, talk_command, pong};
ghost use Rattle.miniircd.specs.Lines.{told, repeated};

use crate::client_identity::ClientIdentity;
use crate::lines::{relayed, source_of};
use crate::member::{ServerChannel, channel_of, is_member};
use crate::people::holder;
use crate::post::Post;
use crate::replies::{Sender, spread_to_others, tell_of};
use bytetext::NoMemory;
use rfccase::is_channel_name;
use slab::Slab;
use std::alloc::Global;

// Sends a refusal, unless the message is a NOTICE.
fn refuse(
    alloc: Global,
    post: &mut Post<'_>,
    me: &Sender<'_>,
    loud: bool,
    code: &[u8],
    word: &[u8],
    last: &[u8],
) -> Result<(), NoMemory>
    ensures { OnOk result (post.new
        ≡ posted (loudly loud (told me.now.key me.now.person.now code.now (repeated word.now) last.now)) post.old) }
{
    if loud {
        tell_of(alloc, post, me, code, word, last)?;
    }
    Ok(())
}

fn talk_command(loud: bool) -> &'static [u8]
    ensures { result.now ≡ talk_command loud }
{
    if loud { b"PRIVMSG" } else { b"NOTICE" }
}

// Returns the line that the server passes on.
fn speech(
    alloc: Global,
    person: &ClientIdentity,
    loud: bool,
    target: &[u8],
    text: &[u8],
) -> Result<Vec<u8>, NoMemory>
    ensures { IfOk result (λ line. line.items ≡ speech loud person.now target.now text.now) }
{
    let source = source_of(alloc, person)?;
    let mut words = Vec::from_slice(alloc, b" ")?;
    words.extend_from_slice(target)?;
    relayed(
        alloc,
        source.as_slice(),
        talk_command(loud),
        words.as_slice(),
        text,
    )
}

fn talk_to_room(
    alloc: Global,
    post: &mut Post<'_>,
    me: &Sender<'_>,
    loud: bool,
    target: &[u8],
    text: &[u8],
    channel: Option<&ServerChannel>,
) -> Result<(), NoMemory>
    ensures { OnOk result (post.new
        ≡ posted (talk_to_room loud me.now.key me.now.person.now target.now text.now (option_copied channel.entry))
        post.old) }
{
    let Some(channel) = channel else {
        return refuse(alloc, post, me, loud, b"403", target, b"No such channel");
    };
    let members = channel.members.as_slice();
    if !is_member(members, me.key) {
        return refuse(alloc, post, me, loud, b"442", target, b"Not on channel");
    }
    let line = speech(alloc, me.person, loud, target, text)?;
    spread_to_others(alloc, post, members, me.key, line.as_slice())
}

fn talk_to_client(
    alloc: Global,
    post: &mut Post<'_>,
    me: &Sender<'_>,
    loud: bool,
    target: &[u8],
    text: &[u8],
    to: Option<usize>,
) -> Result<(), NoMemory>
    ensures { OnOk result (post.new
        ≡ posted (talk_to_client loud me.now.key me.now.person.now target.now text.now to) post.old) }
{
    let Some(to) = to else {
        return refuse(alloc, post, me, loud, b"401", target, b"No such nick");
    };
    let line = speech(alloc, me.person, loud, target, text)?;
    post.send(alloc, to, line.as_slice())
}

// Returns the client, if it is registered.
pub(crate) fn if_there(clients: &Slab<ClientIdentity>, client: Option<usize>) -> Option<usize>
    ensures { result ≡ if_there clients.now.slots client }
{
    let client = client?;
    match clients.get(client) {
        Some(person) if person.is_registered() => Some(client),
        Some(_) | None => None,
    }
}

/// Answers a PRIVMSG if `loud`, or else a NOTICE, in which `me` says `text` to `target`, a channel or a client.
///
/// # Errors
/// Returns `NoMemory` if an allocation fails.
pub fn talk(
    alloc: Global,
    post: &mut Post<'_>,
    clients: &Slab<ClientIdentity>,
    channels: &[ServerChannel],
    me: &Sender<'_>,
    loud: bool,
    target: &[u8],
    text: &[u8],
) -> Result<(), NoMemory>
    ensures told { OnOk result (post.new
        ≡ posted (talk_letters loud me.now.key me.now.person.now clients.now.slots channels.now target.now text.now)
        post.old) }
    ensures readers { OnOk result (readers post.new ≡ readers post.old) }
{
    if is_channel_name(target) {
        let channel = channel_of(channels, target);
        talk_to_room(alloc, post, me, loud, target, text, channel)?;
    } else {
        let to = if_there(clients, holder(clients, target));
        talk_to_client(alloc, post, me, loud, target, text, to)?;
    }
    Ok(())
}

/// Answers a PING of `client` with the parameter `text`.
///
/// # Errors
/// Returns `NoMemory` if an allocation fails.
pub fn answer_ping(
    alloc: Global,
    post: &mut Post<'_>,
    client: usize,
    text: &[u8],
) -> Result<(), NoMemory>
    ensures told { OnOk result (post.new ≡ posted (pong client text.now ∷ []) post.old) }
    ensures readers { OnOk result (readers post.new ≡ readers post.old) }
{
    let line = relayed(alloc, b"irc.test", b"PONG", b" irc.test", text)?;
    post.send(alloc, client, line.as_slice())
}
