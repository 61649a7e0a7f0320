// Commands that change nothing here (RFC 2812 sections 3.2.6, 3.7.3, 4.8 and 4.9; IRCv3's CAP).
ghost use Rattle.std.specs.Prelude.{◌≡◌, OnOk};
ghost use Rattle.miniircd.specs.Mail.{readers};

use crate::client_command::Inquiry;
use crate::client_identity::ClientIdentity;
use crate::invite::invite;
use crate::lines::repeated;
use crate::member::ServerChannel;
use crate::people::holder;
use crate::post::Post;
use crate::replies::{Sender, tell, tell_of};
use crate::talk::if_there;
use crate::texts::{is_same, word};
use crate::whois::whois;
use bytetext::{NoMemory, Text};
use itoa::Buffer;
use slab::Slab;
use std::alloc::Global;

// The most nicks that the server answers a USERHOST for (RFC 2812 section 4.8).
const MAX_ASKED: usize = 5;

/// Answers the command `inquiry` of the client `me`, which has the parameters `params` and changes nothing on this
/// server. A PONG needs no answer.
///
/// # Errors
/// Returns `NoMemory` if an allocation fails.
pub fn inquire(
    alloc: Global,
    post: &mut Post<'_>,
    clients: &Slab<ClientIdentity>,
    channels: &[ServerChannel],
    me: &Sender<'_>,
    inquiry: Inquiry,
    params: &[Text],
) -> Result<(), NoMemory>
    ensures { OnOk result (readers post.new ≡ readers post.old) }
{
    let first = word(params, 0);
    let second = word(params, 1);
    match inquiry {
        Inquiry::Cap => cap(alloc, post, me, first, second),
        Inquiry::Invite => invite(alloc, post, clients, channels, me, first, second),
        Inquiry::Ison => ison(alloc, post, clients, me, params),
        Inquiry::List => list(alloc, post, channels, me, first),
        Inquiry::Pong => Ok(()),
        Inquiry::Userhost => userhost(alloc, post, clients, me, params),
        Inquiry::Whois => whois(alloc, post, clients, channels, me, last_of_two(params)),
    }
}

// Returns the second parameter, or the first if there is no second.
fn last_of_two(params: &[Text]) -> &[u8] {
    if params.len() > 1 {
        word(params, 1)
    } else {
        word(params, 0)
    }
}

// CAP: the server has no other capabilities.
fn cap(
    alloc: Global,
    post: &mut Post<'_>,
    me: &Sender<'_>,
    subcommand: &[u8],
    asked: &[u8],
) -> Result<(), NoMemory>
    ensures { OnOk result (readers post.new ≡ readers post.old) }
{
    if is_same(subcommand, b"LS") {
        tell(alloc, post, me, b"CAP", b" LS", b"")
    } else if is_same(subcommand, b"LIST") {
        tell(alloc, post, me, b"CAP", b" LIST", b"")
    } else if is_same(subcommand, b"REQ") {
        tell(alloc, post, me, b"CAP", b" NAK", asked)
    } else if is_same(subcommand, b"END") {
        Ok(())
    } else {
        tell_of(alloc, post, me, b"410", subcommand, b"Invalid CAP command")
    }
}

// Returns the registered client called `nick`.
fn person_of<'a>(clients: &'a Slab<ClientIdentity>, nick: &[u8]) -> Option<&'a ClientIdentity> {
    clients.get(if_there(clients, holder(clients, nick))?)
}

// Appends to `present` those of `nicks`, separated by spaces, that registered clients hold, each after a space.
fn push_present(
    clients: &Slab<ClientIdentity>,
    present: &mut Vec<u8>,
    nicks: &[u8],
) -> Result<(), NoMemory> {
    for nick in nicks.split(|byte| *byte == b' ') {
        if let Some(person) = person_of(clients, nick) {
            present.push(b' ')?;
            present.extend_from_slice(person.nick.as_bytes())?;
        }
    }
    Ok(())
}

// ISON: replies with those of the nicks that registered clients hold.
fn ison(
    alloc: Global,
    post: &mut Post<'_>,
    clients: &Slab<ClientIdentity>,
    me: &Sender<'_>,
    params: &[Text],
) -> Result<(), NoMemory>
    ensures { OnOk result (readers post.new ≡ readers post.old) }
{
    let mut present = Vec::new(alloc);
    for nicks in params {
        push_present(clients, &mut present, nicks.as_bytes())?;
    }
    tell(
        alloc,
        post,
        me,
        b"303",
        b"",
        after_space(present.as_slice()),
    )
}

// Returns a text without the space that it begins with.
fn after_space(text: &[u8]) -> &[u8] {
    match text {
        [] => b"",
        [_, rest @ ..] => rest,
    }
}

// Returns what USERHOST says of a client, with a space before it.
fn userhost_of(alloc: Global, person: &ClientIdentity) -> Result<Vec<u8>, NoMemory> {
    let (nick, user) = (person.nick.as_bytes(), person.user.as_bytes());
    let words: [&[u8]; 5] = [b" ", nick, b"=+", user, b"@local"];
    Ok(words.concat(alloc)?)
}

// USERHOST: replies with who the registered clients of at most five nicks are. Nobody is away, and nobody is an
// operator of the server.
fn userhost(
    alloc: Global,
    post: &mut Post<'_>,
    clients: &Slab<ClientIdentity>,
    me: &Sender<'_>,
    params: &[Text],
) -> Result<(), NoMemory>
    ensures { OnOk result (readers post.new ≡ readers post.old) }
{
    let mut told = Vec::new(alloc);
    for nick in &params[..MAX_ASKED.min(params.len())] {
        if let Some(person) = person_of(clients, nick.as_bytes()) {
            told.append(&mut userhost_of(alloc, person)?)?;
        }
    }
    tell(alloc, post, me, b"302", b"", after_space(told.as_slice()))
}

// Returns whether `names`, a list separated by commas, names the channel. An empty list names every channel.
fn is_asked(names: &[u8], channel: &ServerChannel) -> bool {
    let mut each = names.split(|byte| *byte == b',');
    names.is_empty() || each.any(|name| is_same(name, channel.name.as_bytes()))
}

// Sends the reply about one channel: how many are on it, and its topic.
fn tell_channel(
    alloc: Global,
    post: &mut Post<'_>,
    me: &Sender<'_>,
    channel: &ServerChannel,
) -> Result<(), NoMemory>
    ensures { OnOk result (readers post.new ≡ readers post.old) }
{
    let name = repeated(alloc, channel.name.as_bytes())?;
    let mut buffer = Buffer::new();
    let count = buffer.format(channel.members.len()).as_bytes();
    let words = [name.as_slice(), b" ", count].concat(alloc)?;
    let topic = channel.topic.as_bytes();
    tell(alloc, post, me, b"322", words.as_slice(), topic)
}

// LIST: replies about the channels of these names, or about all if there are no names.
fn list(
    alloc: Global,
    post: &mut Post<'_>,
    channels: &[ServerChannel],
    me: &Sender<'_>,
    names: &[u8],
) -> Result<(), NoMemory>
    ensures { OnOk result (readers post.new ≡ readers post.old) }
{
    for channel in channels {
        if is_asked(names, channel) {
            tell_channel(alloc, post, me, channel)?;
        }
    }
    tell(alloc, post, me, b"323", b"", b"End of LIST")
}
