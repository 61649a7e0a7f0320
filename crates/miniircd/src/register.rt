// NICK and USER (RFC 2812 sections 3.1.2 and 3.1.3).
ghost use Rattle.std.specs.Prelude.{◌≡◌, map, take, IfOk, OnOk};
ghost use Rattle.std.specs.List.{list_all};
ghost use Rattle.miniircd.specs.People.{holder};
ghost use Rattle.miniircd.specs.Mail.{readers};
ghost use Rattle.miniircd.specs.declared.server_change.ServerChange.TheVariants.{Same};
ghost use Rattle.miniircd.specs.Commands.{is_other, is_nick_byte, is_nick, nick_change, user_byte, user_change};

use crate::client_identity::ClientIdentity;
use crate::lines::{relayed, source_of};
use crate::member::ServerChannel;
use crate::people::{holder, spread_to_neighbours};
use crate::post::Post;
use crate::replies::{Sender, tell, tell_of};
use crate::server_change::ServerChange;
use crate::texts::front;
use bytetext::{NoMemory, Text, TryCopy};
use slab::Slab;
use std::alloc::Global;

// The most bytes of a nick, and of a user name.
const MAX_NAME: usize = 30;

// Returns whether the holder is another client.
fn is_other(client: usize, holder: Option<usize>) -> bool
    ensures { result ≡ is_other client holder }
{
    match holder {
        Some(holder) => holder != client,
        None => false,
    }
}

fn is_nick_byte(byte: u8) -> bool
    ensures { result ≡ is_nick_byte byte }
{
    byte > b' ' && !b"!@,*?:#&+%~.".contains(&byte)
}

fn are_nick_bytes(text: &[u8]) -> bool
    ensures { result ≡ list_all is_nick_byte text.now }
{
    text.iter().all(|byte| is_nick_byte(*byte))
}

fn is_nick(text: &[u8]) -> bool
    ensures { result ≡ is_nick text.now }
{
    text.len() > 0 && (text.len() <= MAX_NAME && are_nick_bytes(text))
}

// Welcomes a client that has given both names.
fn welcome(
    alloc: Global,
    post: &mut Post<'_>,
    client: usize,
    person: &ClientIdentity,
) -> Result<(), NoMemory>
    ensures { OnOk result (readers post.new ≡ readers post.old) }
{
    if !person.is_registered() {
        return Ok(());
    }
    let me = Sender {
        key: client,
        person,
    };
    tell(alloc, post, &me, b"001", b"", b"Welcome")?;
    tell(alloc, post, &me, b"422", b"", b"No MOTD")
}

// Sends a new nick to the client and to each client that shares a channel with it.
fn announce(
    alloc: Global,
    post: &mut Post<'_>,
    clients: &Slab<ClientIdentity>,
    channels: &[ServerChannel],
    me: &Sender<'_>,
    new: &[u8],
) -> Result<(), NoMemory>
    ensures { OnOk result (readers post.new ≡ readers post.old) }
{
    let source = source_of(alloc, me.person)?;
    let line = relayed(alloc, source.as_slice(), b"NICK", b"", new)?;
    post.send(alloc, me.key, line.as_slice())?;
    spread_to_neighbours(alloc, post, clients, channels, me.key, line.as_slice())
}

/// Answers a NICK of the client `me` that asks for the nick `new`.
///
/// # Errors
/// Returns `NoMemory` if an allocation fails.
pub fn nick(
    alloc: Global,
    post: &mut Post<'_>,
    clients: &Slab<ClientIdentity>,
    channels: &[ServerChannel],
    me: &Sender<'_>,
    new: &[u8],
) -> Result<ServerChange, NoMemory>
    ensures change { IfOk result
        (λ change. change ≡ nick_change me.now.key me.now.person.now clients.now.slots new.now) }
    ensures readers { OnOk result (readers post.new ≡ readers post.old) }
{
    if is_other(me.key, holder(clients, new)) {
        return refuse(alloc, post, me, b"433", new, b"Nickname in use");
    }
    if !is_nick(new) {
        return refuse(alloc, post, me, b"432", new, b"Erroneous nickname");
    }
    let person = called(alloc, me.person, new)?;
    tell_nick(alloc, post, clients, channels, me, &person)?;
    Ok(ServerChange::Person(person))
}

// Tells the client why it doesn't get the nick `new`.
fn refuse(
    alloc: Global,
    post: &mut Post<'_>,
    me: &Sender<'_>,
    code: &[u8],
    new: &[u8],
    why: &[u8],
) -> Result<ServerChange, NoMemory>
    ensures change { IfOk result (λ change. change ≡ Same) }
    ensures readers { OnOk result (readers post.new ≡ readers post.old) }
{
    tell_of(alloc, post, me, code, new, why)?;
    Ok(ServerChange::Same)
}

// Returns a client under the nick `new`.
fn called(alloc: Global, person: &ClientIdentity, new: &[u8]) -> Result<ClientIdentity, NoMemory>
    ensures { IfOk result (λ after. after ≡ record person.now { nick = new.now }) }
{
    Ok(ClientIdentity {
        nick: Text::from_slice(alloc, new)?,
        user: person.user.copy(alloc)?,
    })
}

// Sends the new nick of a registered client, and welcomes one that the nick registers. `person` is the client under it.
fn tell_nick(
    alloc: Global,
    post: &mut Post<'_>,
    clients: &Slab<ClientIdentity>,
    channels: &[ServerChannel],
    me: &Sender<'_>,
    person: &ClientIdentity,
) -> Result<(), NoMemory>
    ensures { OnOk result (readers post.new ≡ readers post.old) }
{
    if me.person.is_registered() {
        announce(alloc, post, clients, channels, me, person.nick.as_bytes())
    } else {
        welcome(alloc, post, me.key, person)
    }
}

fn user_byte(byte: u8) -> u8
    ensures { result ≡ user_byte byte }
{
    if byte == b'!' || byte == b'@' {
        b'_'
    } else {
        byte
    }
}

// Returns a user name, in which `!` and `@` can't stand.
fn user_name(alloc: Global, text: &[u8]) -> Result<Vec<u8>, NoMemory>
    ensures { IfOk result (λ name. name.items ≡ map user_byte text.now) }
{
    let mut name = Vec::with_capacity(alloc, text.len())?;
    for byte in text {
        name.push(user_byte(*byte))?;
    }
    Ok(name)
}

// Returns a client with the user name that `name` gives it.
fn named(alloc: Global, person: &ClientIdentity, name: &[u8]) -> Result<ClientIdentity, NoMemory>
    ensures { IfOk result (λ after. after ≡ record person.now { user = map user_byte (take 30 name.now) }) }
{
    let name = user_name(alloc, front(name, MAX_NAME))?;
    Ok(ClientIdentity {
        nick: person.nick.copy(alloc)?,
        user: Text::new(name),
    })
}

/// Answers a USER of the client `me` with the user name `name`.
///
/// # Errors
/// Returns `NoMemory` if an allocation fails.
pub fn user(
    alloc: Global,
    post: &mut Post<'_>,
    me: &Sender<'_>,
    name: &[u8],
) -> Result<ServerChange, NoMemory>
    ensures change { IfOk result (λ change. change ≡ user_change me.now.person.now name.now) }
    ensures readers { OnOk result (readers post.new ≡ readers post.old) }
{
    if me.person.user.len() > 0 {
        return Ok(ServerChange::Same);
    }
    let person = named(alloc, me.person, name)?;
    welcome(alloc, post, me.key, &person)?;
    Ok(ServerChange::Person(person))
}
