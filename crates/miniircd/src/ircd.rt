// The server.
ghost use Rattle.std.specs.Prelude.{◌≡◌, ◌≤◌, ◌↔◌, [], true, None, Some, Err, IfOk, IfSome, OnOk, OnErr, slice_set};
ghost use Rattle.slab.specs.Slab.{ContainsKey};
ghost use Rattle.bytetext.specs.declared.failure.Failure.TheVariants.{Refused, NoMemory};
ghost use Rattle.ircline.specs.Words.{up_to};
ghost use Rattle.ircline.specs.Classes.{is_end};
ghost use Rattle.ircline.specs.Reading.{line_of, TakesMemory};
ghost use Rattle.miniircd.specs.declared.fault.ServerFault.TheVariants.{Full, NoSuchClient};
ghost use Rattle.miniircd.specs.People.{held_at};
ghost use Rattle.miniircd.specs.Mail.{IsTold, are_sound};
ghost use Rattle.miniircd.specs.Whole.{IsWhole};
ghost use Rattle.miniircd.specs.Talk.{is_there};
ghost use Rattle.miniircd.specs.Server.{count, Comes, effected, left, after, letters};

use crate::answers::{ServerReply, farewell_of, reply_to};
use crate::client::{Client, SentLine};
use crate::client_identity::ClientIdentity;
use crate::fault::{IrcdError, ServerFault};
use crate::member::ServerChannel;
use crate::replies::Sender;
use crate::server_change::{Effect, ServerChange};
use bytetext::{Failure, Seq};
use slab::Slab;
use std::alloc::Global;
use std::marker::Model;

/// The most clients that the server has.
pub const MAX_CLIENTS: usize = 64;

/// A small IRC server in memory: it reads the lines of its clients, and answers with the lines that it sends to them.
///
/// ```text
/// let mut server = Ircd::new(alloc);
/// let ann = server.connect(alloc)?;
/// server.line(alloc, ann, b"NICK ann")?;                  // no line yet
/// server.line(alloc, ann, b"USER ann 0 * :Ann")?;         // to ann: :irc.test 001 ann :Welcome, and 422
/// server.line(alloc, ann, b"JOIN #egg")?;                 // to ann: her JOIN, 353 and 366
/// server.gone(alloc, ann)?;                               // nobody shared a channel with her
/// ```
#[derive(Drop)]
pub struct Ircd {
    clients: Slab<ClientIdentity>,
    channels: Vec<ServerChannel>,
}

impl Model for Ircd {
    ghost use Rattle.miniircd.specs.Server.{Server};
    ghost use Rattle.miniircd.specs.Whole.{IsWhole};

    ghost Value = { Server };

    ghost view = { λ s. record { clients = s.clients.slots; channels = s.channels.items } };

    ghost invariant = { λ s. IsWhole s.clients.slots s.channels.items };
}

impl Ircd {
    /// Creates a server without clients and channels. Allocates nothing.
    pub fn new(alloc: Global) -> Ircd
        ensures { result ≡ record { clients = []; channels = [] } }
    {
        Ircd {
            clients: Slab::new(alloc),
            channels: Vec::new(alloc),
        }
    }

    /// Adds a client and returns its number.
    ///
    /// # Errors
    /// Returns [`ServerFault::Full`] if the server has 64 clients, and `NoMemory` if it has fewer and the client can't be
    /// allocated.
    pub fn connect(&mut self, alloc: Global) -> Result<Client, IrcdError>
        ensures full { (result ≡ Err (Refused Full)) ↔ (64 ≤ count self.old) }
        ensures came { IfOk result (λ client. Comes client.0 self.old self.new) }
        ensures err { OnErr result (self.new ≡ self.old) }
    {
        if self.clients.len() >= MAX_CLIENTS {
            return Err(Failure::Refused(ServerFault::Full));
        }
        let key = self.clients.insert(ClientIdentity::blank(alloc))?;
        Ok(Client(key))
    }

    /// Takes in `text`, a line of `client` with or without its CR and LF, and returns the lines that the server sends
    /// because of it, in order. A bad line is ignored.
    ///
    /// # Errors
    /// Returns [`ServerFault::NoSuchClient`] if `client` is not connected, and `NoMemory` if it is and an allocation fails.
    pub fn line(
        &mut self,
        alloc: Global,
        client: Client,
        text: &[u8],
    ) -> Result<Seq<SentLine>, IrcdError>
        ensures unknown { (result ≡ Err (Refused NoSuchClient)) ↔ (held_at self.old.clients client.0 ≡ None) }
        ensures after { OnOk result (self.new ≡ after client.0 text.now self.old) }
        ensures told { IfOk result (λ lines. IfSome (letters client.0 text.now self.old)
            (λ letters. IsTold letters lines)) }
        ensures sound { IfOk result (λ lines. are_sound self.new.clients None lines ≡ true) }
        ensures err { OnErr result (self.new ≡ self.old) }
        // A bad line allocates nothing.
        ensures memory { (result ≡ Err NoMemory) → TakesMemory (line_of (up_to is_end text.now)) }
    {
        let Some(person) = self.clients.get(client.0) else {
            return Err(Failure::Refused(ServerFault::NoSuchClient));
        };
        let me = Sender {
            key: client.0,
            person,
        };
        let reply = reply_to(alloc, &self.clients, &mut self.channels, &me, text)?;
        let ServerReply { effect, lines } = reply;
        commit(&mut self.clients, &mut self.channels, client.0, effect);
        Ok(lines)
    }

    /// Removes `client`, whose connection has ended, and returns its QUIT for each client that shared a channel with
    /// it.
    ///
    /// # Errors
    /// Returns [`ServerFault::NoSuchClient`] if `client` is not connected, and `NoMemory` if it is and an allocation fails.
    pub fn gone(&mut self, alloc: Global, client: Client) -> Result<Seq<SentLine>, IrcdError>
        ensures unknown { (result ≡ Err (Refused NoSuchClient)) ↔ (held_at self.old.clients client.0 ≡ None) }
        ensures left { OnOk result (self.new ≡ left client.0 self.old) }
        ensures sound { IfOk result (λ lines. are_sound self.new.clients None lines ≡ true) }
        ensures err { OnErr result (self.new ≡ self.old) }
    {
        let Some(person) = self.clients.get(client.0) else {
            return Err(Failure::Refused(ServerFault::NoSuchClient));
        };
        let me = Sender {
            key: client.0,
            person,
        };
        let reply = farewell_of(alloc, &self.clients, self.channels.as_slice(), &me, None)?;
        let ServerReply { effect, lines } = reply;
        commit(&mut self.clients, &mut self.channels, client.0, effect);
        Ok(lines)
    }

    /// Returns whether `client` is connected, and has given a nick and a user name.
    pub fn is_registered(&self, client: Client) -> bool
        ensures { result ≡ is_there (held_at self.now.clients client.0) }
    {
        match self.clients.get(client.0) {
            Some(person) => person.is_registered(),
            None => false,
        }
    }

    /// Does nothing, and states that, whatever was called before, each member of a channel is a connected client, and
    /// nicks, user names and topics are allowed in lines.
    pub fn is_whole(&self)
        ensures { IsWhole self.now.clients self.now.channels }
    {
        let _ = &self.channels;
    }
}

// Sets what a connected client has said of itself.
fn place(clients: &mut Slab<ClientIdentity>, client: usize, person: ClientIdentity)
    requires { ContainsKey clients.old client }
    ensures { clients.new.slots ≡ slice_set clients.old.slots client (Some person) }
{
    clients[client] = person;
}

// Removes a connected client.
fn remove(clients: &mut Slab<ClientIdentity>, client: usize)
    requires { ContainsKey clients.old client }
    ensures { clients.new.slots ≡ slice_set clients.old.slots client None }
{
    clients.remove(client);
}

// Does what a line of a connected client does. Allocates nothing.
fn commit(
    clients: &mut Slab<ClientIdentity>,
    channels: &mut Vec<ServerChannel>,
    client: usize,
    effect: Effect,
)
    requires { ContainsKey clients.old client }
    ensures clients { clients.new.slots ≡ (effected client effect (record { clients = clients.old.slots; channels = channels.old.items })).clients }
    ensures channels { channels.new.items ≡ (effected client effect (record { clients = clients.old.slots; channels = channels.old.items })).channels }
{
    match effect {
        Effect::Changed(ServerChange::Same) => {}
        Effect::Changed(ServerChange::Person(person)) => place(clients, client, person),
        Effect::Changed(ServerChange::Channels(after)) => *channels = after.into_vec(),
        Effect::Left(after) => {
            remove(clients, client);
            *channels = after.into_vec();
        }
    }
}
