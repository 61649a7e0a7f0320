// What the server answers to one line of a connected client, before anything is changed.
ghost use Rattle.std.specs.Prelude.{◌≡◌, [], true, Some, None, IfOk, IfSome, OnErr};
ghost use Rattle.ircline.specs.declared.line.Line.TheVariants.{Message as message_line};
ghost use Rattle.ircline.specs.Words.{up_to};
ghost use Rattle.ircline.specs.Classes.{is_end};
ghost use Rattle.ircline.specs.Reading.{line_of, TakesMemory};
ghost use Rattle.miniircd.specs.declared.server_change.Effect.TheVariants.{Changed, Left};
ghost use Rattle.miniircd.specs.declared.server_change.ServerChange.TheVariants.{Same};
ghost use Rattle.miniircd.specs.Mail.{are_sound, deliveries};
ghost use Rattle.miniircd.specs.Rooms.{rooms_after, Leave};
ghost use Rattle.miniircd.specs.Commands.{change_of};
ghost use Rattle.miniircd.specs.Talk.{exact_letters};
ghost use Rattle.miniircd.specs.Server.{changed, effected, after_message, after_line, letters_of, IsSoundAfter};

use crate::channel_edit::{ChannelEdit, rooms_after};
use crate::client::SentLine;
use crate::client_command::read_command;
use crate::client_identity::ClientIdentity;
use crate::lines::{farewell, source_of};
use crate::member::ServerChannel;
use crate::people::spread_to_neighbours;
use crate::post::Post;
use crate::replies::Sender;
use crate::server_change::{Effect, ServerChange};
use crate::texts::param;
use crate::turn::answer;
use bytetext::{NoMemory, Seq};
use ircline::{Line, Message, read_line};
use slab::Slab;
use std::alloc::Global;

/// What a line of a client does to the server, and the lines that the server sends because of it.
#[derive(Drop)]
pub struct ServerReply {
    /// What the line does.
    pub effect: Effect,
    /// The lines, in order.
    pub lines: Seq<SentLine>,
}

// Returns the reply to a message other than QUIT.
fn reply_to_message(
    alloc: Global,
    clients: &Slab<ClientIdentity>,
    channels: &mut Vec<ServerChannel>,
    me: &Sender<'_>,
    message: &Message,
) -> Result<ServerReply, NoMemory>
    ensures change { IfOk result
        (λ reply. effected me.now.key reply.effect (record { clients = clients.now.slots; channels = channels.new.items })
        ≡ changed me.now.key (change_of me.now.key me.now.person.now clients.now.slots channels.old.items message.now)
        (record { clients = clients.now.slots; channels = channels.old.items })) }
    ensures err { OnErr result (channels.new.items ≡ channels.old.items) }
    ensures told { IfOk result
        (λ reply. IfSome (exact_letters me.now.key me.now.person.now clients.now.slots channels.old.items message.now)
        (λ letters. reply.lines ≡ deliveries clients.now.slots None letters)) }
    ensures sound { IfOk result (λ reply. IsSoundAfter me.now.key clients.now.slots reply.effect reply.lines) }
{
    let mut post = Post::new(alloc, clients, None);
    let change = answer(alloc, &mut post, clients, channels, me, message)?;
    Ok(ServerReply {
        effect: Effect::Changed(change),
        lines: Seq::new(post.into_lines()),
    })
}

// Starts the lines for the clients that stay when `leaver` leaves.
fn post_of_leaver(alloc: Global, clients: &Slab<ClientIdentity>, leaver: usize) -> Post<'_>
    ensures { result ≡ record { clients = clients.now.slots; leaver = Some leaver; lines = [] } }
{
    Post::new(alloc, clients, Some(leaver))
}

/// Returns what happens when the client `me` leaves, with the `reason` that it may give.
///
/// # Errors
/// Returns `NoMemory` if an allocation fails.
pub fn farewell_of(
    alloc: Global,
    clients: &Slab<ClientIdentity>,
    channels: &[ServerChannel],
    me: &Sender<'_>,
    reason: Option<&[u8]>,
) -> Result<ServerReply, NoMemory>
    ensures left { IfOk result (λ reply. reply.effect ≡ Left (rooms_after None (Leave me.now.key) channels.now)) }
    ensures sound { IfOk result (λ reply. IsSoundAfter me.now.key clients.now.slots reply.effect reply.lines) }
{
    let lines = farewells(alloc, clients, channels, me, reason)?;
    let after = rooms_after(alloc, channels, None, ChannelEdit::Leave(me.key))?;
    Ok(ServerReply {
        effect: Effect::Left(Seq::new(after)),
        lines,
    })
}

// Returns the QUIT of the client `me` for each client that shares a channel with it.
fn farewells(
    alloc: Global,
    clients: &Slab<ClientIdentity>,
    channels: &[ServerChannel],
    me: &Sender<'_>,
    reason: Option<&[u8]>,
) -> Result<Seq<SentLine>, NoMemory>
    ensures { IfOk result (λ lines. are_sound clients.now.slots (Some me.now.key) lines ≡ true) }
{
    let line = quit_line(alloc, me, reason)?;
    let mut post = post_of_leaver(alloc, clients, me.key);
    spread_to_neighbours(alloc, &mut post, clients, channels, me.key, line.as_slice())?;
    Ok(Seq::new(post.into_lines()))
}

// Returns the QUIT of the client `me`.
fn quit_line(alloc: Global, me: &Sender<'_>, reason: Option<&[u8]>) -> Result<Vec<u8>, NoMemory> {
    let source = source_of(alloc, me.person)?;
    farewell(alloc, source.as_slice(), reason)
}

// Returns the reply to a message, be it a QUIT or another.
fn reply_to_any(
    alloc: Global,
    clients: &Slab<ClientIdentity>,
    channels: &mut Vec<ServerChannel>,
    me: &Sender<'_>,
    message: &Message,
) -> Result<ServerReply, NoMemory>
    ensures after { IfOk result
        (λ reply. effected me.now.key reply.effect (record { clients = clients.now.slots; channels = channels.new.items }) ≡ after_message me.now.key me.now.person.now message.now
        (record { clients = clients.now.slots; channels = channels.old.items })) }
    ensures told { IfOk result
        (λ reply. IfSome (letters_of me.now.key me.now.person.now (message_line message.now)
        (record { clients = clients.now.slots; channels = channels.old.items }))
        (λ letters. reply.lines ≡ deliveries clients.now.slots None letters)) }
    ensures err { OnErr result (channels.new.items ≡ channels.old.items) }
    ensures sound { IfOk result (λ reply. IsSoundAfter me.now.key clients.now.slots reply.effect reply.lines) }
{
    let command = read_command(message.command.as_bytes());
    if command.is_quit() {
        let reason = param(message.params.as_slice(), 0);
        farewell_of(alloc, clients, channels.as_slice(), me, reason)
    } else {
        reply_to_message(alloc, clients, channels, me, message)
    }
}

/// Returns the reply to `text`, a line of the client `me`.
///
/// # Errors
/// Returns `NoMemory` if an allocation fails; the channels are then unchanged.
pub fn reply_to(
    alloc: Global,
    clients: &Slab<ClientIdentity>,
    channels: &mut Vec<ServerChannel>,
    me: &Sender<'_>,
    text: &[u8],
) -> Result<ServerReply, NoMemory>
    ensures after { IfOk result
        (λ reply. effected me.now.key reply.effect (record { clients = clients.now.slots; channels = channels.new.items }) ≡ after_line me.now.key me.now.person.now (line_of (up_to is_end text.now))
        (record { clients = clients.now.slots; channels = channels.old.items })) }
    ensures told { IfOk result
        (λ reply. IfSome (letters_of me.now.key me.now.person.now (line_of (up_to is_end text.now))
        (record { clients = clients.now.slots; channels = channels.old.items }))
        (λ letters. reply.lines ≡ deliveries clients.now.slots None letters)) }
    ensures err { OnErr result (channels.new.items ≡ channels.old.items) }
    ensures sound { IfOk result (λ reply. IsSoundAfter me.now.key clients.now.slots reply.effect reply.lines) }
    ensures memory { OnErr result (TakesMemory (line_of (up_to is_end text.now))) }
{
    let line = read_line(alloc, text)?;
    reply_to_line(alloc, clients, channels, me, &line)
}

// Returns the reply to a line of the client `me`.
fn reply_to_line(
    alloc: Global,
    clients: &Slab<ClientIdentity>,
    channels: &mut Vec<ServerChannel>,
    me: &Sender<'_>,
    line: &Line,
) -> Result<ServerReply, NoMemory>
    ensures after { IfOk result
        (λ reply. effected me.now.key reply.effect (record { clients = clients.now.slots; channels = channels.new.items }) ≡ after_line me.now.key me.now.person.now line.now
        (record { clients = clients.now.slots; channels = channels.old.items })) }
    ensures told { IfOk result
        (λ reply. IfSome (letters_of me.now.key me.now.person.now line.now
        (record { clients = clients.now.slots; channels = channels.old.items }))
        (λ letters. reply.lines ≡ deliveries clients.now.slots None letters)) }
    ensures err { OnErr result (channels.new.items ≡ channels.old.items) }
    ensures sound { IfOk result (λ reply. IsSoundAfter me.now.key clients.now.slots reply.effect reply.lines) }
    ensures memory { OnErr result (TakesMemory line.now) }
{
    match line {
        Line::Bad(_) => Ok(no_reply(alloc)),
        Line::Message(message) => reply_to_any(alloc, clients, channels, me, message),
    }
}

// Returns the reply to a line that is ignored. Allocates nothing.
fn no_reply(alloc: Global) -> ServerReply
    ensures same { result.effect ≡ Changed Same }
    ensures silent { result.lines ≡ [] }
{
    ServerReply {
        effect: Effect::Changed(ServerChange::Same),
        lines: Seq::empty(alloc),
    }
}
