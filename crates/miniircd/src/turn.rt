// One message of a client: what it changes, and which lines the server sends for it.
ghost use Rattle.std.specs.Prelude.{◌≡◌, ◌==◌, ◌∷◌, [], drop, IfOk, IfSome, OnErr, OnOk};
ghost use Rattle.std.specs.List.{slice_split};
ghost use Rattle.miniircd.specs.Mail.{readers, posted};
ghost use Rattle.miniircd.specs.People.{word_at};
ghost use Rattle.miniircd.specs.Rooms.{joined_each, room};
ghost use Rattle.miniircd.specs.Lines.{join_letters_each, source_of};
ghost use Rattle.miniircd.specs.Commands.{change_by, change_of, standing_in, kick_change, mode_change};
ghost use Rattle.miniircd.specs.Server.{LeavesAs};
ghost use Rattle.miniircd.specs.declared.server_change.ServerChange.TheVariants.{Same};
ghost use Rattle.miniircd.specs.Talk.{talk_letters, pong, exact_by, exact_of_few, exact_letters};

use crate::client_command::{ClientCommand, Inquiry, read_command};
use crate::client_identity::ClientIdentity;
use crate::inquiries::inquire;
use crate::join::join_each;
use crate::member::ServerChannel;
use crate::mode::mode;
use crate::post::Post;
use crate::register::{nick, user};
use crate::replies::{Sender, tell, tell_of};
use crate::rooms::{kick, part, topic};
use crate::server_change::ServerChange;
use crate::talk::{answer_ping, talk};
use crate::texts::{param, params_from, word};
use crate::who::{names, who};
use bytetext::{NoMemory, Text};
use ircline::Message;
use slab::Slab;
use std::alloc::Global;

// Returns the pieces of a list separated by commas.
fn names_in(alloc: Global, list: &[u8]) -> Result<Vec<Text>, NoMemory>
    ensures { IfOk result (λ names. names.items ≡ slice_split (λ b. b == 44) list.now) }
{
    let mut names = Vec::new(alloc);
    for name in list.split(|byte| *byte == b',') {
        names.push(Text::from_slice(alloc, name)?)?;
    }
    Ok(names)
}

// Lets a client join the channels of a list.
fn join(
    alloc: Global,
    post: &mut Post<'_>,
    clients: &Slab<ClientIdentity>,
    channels: &mut Vec<ServerChannel>,
    me: &Sender<'_>,
    list: &[u8],
) -> Result<ServerChange, NoMemory>
    ensures change { IfOk result (λ change. change ≡ Same) }
    ensures joined { OnOk result (channels.new.items
        ≡ joined_each me.now.key (source_of me.now.person.now) (slice_split (λ b. b == 44) list.now) channels.old.items) }
    ensures told { OnOk result (post.new
        ≡ posted (join_letters_each me.now.key me.now.person.now clients.now.slots (slice_split (λ b. b == 44) list.now) channels.old.items)
        post.old) }
    ensures readers { OnOk result (readers post.new ≡ readers post.old) }
    ensures err { OnErr result (channels.new.items ≡ channels.old.items) }
{
    let names = names_in(alloc, list)?;
    join_each(alloc, post, clients, me, names.as_slice(), channels)?;
    Ok(ServerChange::Same)
}

// Answers a KICK with these parameters.
fn kick_by(
    alloc: Global,
    post: &mut Post<'_>,
    clients: &Slab<ClientIdentity>,
    channels: &[ServerChannel],
    me: &Sender<'_>,
    params: &[Text],
) -> Result<ServerChange, NoMemory>
    ensures change { IfOk result (λ change. change
        ≡ kick_change (standing_in me.now.key (room (word_at 0 params.now) channels.now)) clients.now.slots (word_at 0 params.now)
        (word_at 1 params.now) channels.now) }
    ensures readers { OnOk result (readers post.new ≡ readers post.old) }
{
    let name = word(params, 0);
    let nick = word(params, 1);
    let reason = param(params, 2);
    kick(alloc, post, clients, channels, me, name, nick, reason)
}

// Answers a MODE with these parameters.
fn mode_by(
    alloc: Global,
    post: &mut Post<'_>,
    clients: &Slab<ClientIdentity>,
    channels: &[ServerChannel],
    me: &Sender<'_>,
    params: &[Text],
) -> Result<ServerChange, NoMemory>
    ensures change { IfOk result (λ change. change
        ≡ mode_change (standing_in me.now.key (room (word_at 0 params.now) channels.now)) clients.now.slots (word_at 0 params.now)
        (word_at 1 params.now) (drop 2 params.now) channels.now) }
    ensures readers { OnOk result (readers post.new ≡ readers post.old) }
{
    let name = word(params, 0);
    let modes = word(params, 1);
    let arguments = params_from(params, 2);
    mode(alloc, post, clients, channels, me, name, modes, arguments)
}

// Answers a PRIVMSG or a NOTICE with these parameters, which changes nothing.
fn talk_by(
    alloc: Global,
    post: &mut Post<'_>,
    clients: &Slab<ClientIdentity>,
    channels: &[ServerChannel],
    me: &Sender<'_>,
    loud: bool,
    params: &[Text],
) -> Result<ServerChange, NoMemory>
    ensures change { IfOk result (λ change. change ≡ Same) }
    ensures told { OnOk result (post.new
        ≡ posted (talk_letters loud me.now.key me.now.person.now clients.now.slots channels.now (word_at 0 params.now)
        (word_at 1 params.now)) post.old) }
    ensures readers { OnOk result (readers post.new ≡ readers post.old) }
{
    let target = word(params, 0);
    let text = word(params, 1);
    talk(alloc, post, clients, channels, me, loud, target, text)?;
    Ok(ServerChange::Same)
}

// Answers a NAMES for the channel `name`, which changes nothing.
fn names_by(
    alloc: Global,
    post: &mut Post<'_>,
    clients: &Slab<ClientIdentity>,
    channels: &[ServerChannel],
    me: &Sender<'_>,
    name: &[u8],
) -> Result<ServerChange, NoMemory>
    ensures change { IfOk result (λ change. change ≡ Same) }
    ensures readers { OnOk result (readers post.new ≡ readers post.old) }
{
    names(alloc, post, clients, channels, me, name)?;
    Ok(ServerChange::Same)
}

// Answers a WHO for the channel `name`, which changes nothing.
fn who_by(
    alloc: Global,
    post: &mut Post<'_>,
    clients: &Slab<ClientIdentity>,
    channels: &[ServerChannel],
    me: &Sender<'_>,
    name: &[u8],
) -> Result<ServerChange, NoMemory>
    ensures change { IfOk result (λ change. change ≡ Same) }
    ensures readers { OnOk result (readers post.new ≡ readers post.old) }
{
    who(alloc, post, clients, channels, me, name)?;
    Ok(ServerChange::Same)
}

// Answers a PING with this token, which changes nothing.
fn ping_by(
    alloc: Global,
    post: &mut Post<'_>,
    me: &Sender<'_>,
    token: &[u8],
) -> Result<ServerChange, NoMemory>
    ensures change { IfOk result (λ change. change ≡ Same) }
    ensures told { OnOk result (post.new ≡ posted (pong me.now.key token.now ∷ []) post.old) }
    ensures readers { OnOk result (readers post.new ≡ readers post.old) }
{
    answer_ping(alloc, post, me.key, token)?;
    Ok(ServerChange::Same)
}

// Answers an inquiry, which changes nothing.
fn inquire_by(
    alloc: Global,
    post: &mut Post<'_>,
    clients: &Slab<ClientIdentity>,
    channels: &[ServerChannel],
    me: &Sender<'_>,
    inquiry: Inquiry,
    params: &[Text],
) -> Result<ServerChange, NoMemory>
    ensures change { IfOk result (λ change. change ≡ Same) }
    ensures readers { OnOk result (readers post.new ≡ readers post.old) }
{
    inquire(alloc, post, clients, channels, me, inquiry, params)?;
    Ok(ServerChange::Same)
}

// Replies to the unknown command `name`, which changes nothing.
fn tell_unknown(
    alloc: Global,
    post: &mut Post<'_>,
    me: &Sender<'_>,
    name: &[u8],
) -> Result<ServerChange, NoMemory>
    ensures change { IfOk result (λ change. change ≡ Same) }
    ensures readers { OnOk result (readers post.new ≡ readers post.old) }
{
    tell_of(alloc, post, me, b"421", name, b"Unknown command")?;
    Ok(ServerChange::Same)
}

// Carries out a command that its client may send, with the parameters that it needs. The caller handles QUIT.
fn act(
    alloc: Global,
    post: &mut Post<'_>,
    clients: &Slab<ClientIdentity>,
    channels: &mut Vec<ServerChannel>,
    me: &Sender<'_>,
    command: ClientCommand,
    name: &[u8],
    params: &[Text],
) -> Result<ServerChange, NoMemory>
    ensures change { IfOk result (λ change. LeavesAs me.now.key clients.now.slots change channels.new.items
        (change_by command me.now.key me.now.person.now clients.now.slots channels.old.items params.now) channels.old.items) }
    ensures err { OnErr result (channels.new.items ≡ channels.old.items) }
    ensures told { OnOk result
        (IfSome (exact_by command me.now.key me.now.person.now clients.now.slots channels.old.items params.now)
        (λ letters. post.new ≡ posted letters post.old)) }
    ensures readers { OnOk result (readers post.new ≡ readers post.old) }
{
    let rooms = channels.as_slice();
    let first = word(params, 0);
    match command {
        ClientCommand::Nick => nick(alloc, post, clients, rooms, me, first),
        ClientCommand::User => user(alloc, post, me, first),
        ClientCommand::Join => join(alloc, post, clients, channels, me, first),
        ClientCommand::Part => part(alloc, post, rooms, me, first, param(params, 1)),
        ClientCommand::Topic => topic(alloc, post, rooms, me, first, param(params, 1)),
        ClientCommand::Kick => kick_by(alloc, post, clients, rooms, me, params),
        ClientCommand::Mode => mode_by(alloc, post, clients, rooms, me, params),
        ClientCommand::Privmsg => talk_by(alloc, post, clients, rooms, me, true, params),
        ClientCommand::Notice => talk_by(alloc, post, clients, rooms, me, false, params),
        ClientCommand::Names => names_by(alloc, post, clients, rooms, me, first),
        ClientCommand::Who => who_by(alloc, post, clients, rooms, me, first),
        ClientCommand::Ping => ping_by(alloc, post, me, first),
        ClientCommand::Ask(inquiry) => {
            inquire_by(alloc, post, clients, rooms, me, inquiry, params)
        }
        ClientCommand::Unknown => tell_unknown(alloc, post, me, name),
        ClientCommand::Quit => Ok(ServerChange::Same),
    }
}

// Replies to a client that gave too few parameters.
fn tell_few(
    alloc: Global,
    post: &mut Post<'_>,
    me: &Sender<'_>,
    command: ClientCommand,
    word: &[u8],
) -> Result<(), NoMemory>
    ensures told { OnOk result
        (IfSome (exact_of_few command me.now.key me.now.person.now word.now) (λ letters. post.new
        ≡ posted letters post.old)) }
    ensures readers { OnOk result (readers post.new ≡ readers post.old) }
{
    match command {
        ClientCommand::Notice => Ok(()),
        ClientCommand::Nick
        | ClientCommand::User
        | ClientCommand::Join
        | ClientCommand::Part
        | ClientCommand::Topic
        | ClientCommand::Kick
        | ClientCommand::Mode
        | ClientCommand::Privmsg
        | ClientCommand::Names
        | ClientCommand::Who
        | ClientCommand::Ping
        | ClientCommand::Quit
        | ClientCommand::Ask(_)
        | ClientCommand::Unknown => tell_of(alloc, post, me, b"461", word, b"Need more parameters"),
    }
}

// Answers a command with too few parameters, which changes nothing.
fn few_by(
    alloc: Global,
    post: &mut Post<'_>,
    me: &Sender<'_>,
    command: ClientCommand,
    word: &[u8],
) -> Result<ServerChange, NoMemory>
    ensures change { IfOk result (λ change. change ≡ Same) }
    ensures told { OnOk result
        (IfSome (exact_of_few command me.now.key me.now.person.now word.now) (λ letters. post.new
        ≡ posted letters post.old)) }
    ensures readers { OnOk result (readers post.new ≡ readers post.old) }
{
    tell_few(alloc, post, me, command, word)?;
    Ok(ServerChange::Same)
}

// Replies to a client that must register first, and changes nothing.
fn tell_stranger(
    alloc: Global,
    post: &mut Post<'_>,
    me: &Sender<'_>,
) -> Result<ServerChange, NoMemory>
    ensures change { IfOk result (λ change. change ≡ Same) }
    ensures readers { OnOk result (readers post.new ≡ readers post.old) }
{
    tell(alloc, post, me, b"451", b"", b"Not registered")?;
    Ok(ServerChange::Same)
}

/// Answers `message` of the client `me` and returns what it changes.
///
/// # Errors
/// Returns `NoMemory` if an allocation fails.
pub fn answer(
    alloc: Global,
    post: &mut Post<'_>,
    clients: &Slab<ClientIdentity>,
    channels: &mut Vec<ServerChannel>,
    me: &Sender<'_>,
    message: &Message,
) -> Result<ServerChange, NoMemory>
    ensures change { IfOk result (λ change. LeavesAs me.now.key clients.now.slots change channels.new.items
        (change_of me.now.key me.now.person.now clients.now.slots channels.old.items message.now) channels.old.items) }
    ensures err { OnErr result (channels.new.items ≡ channels.old.items) }
    ensures told { OnOk result
        (IfSome (exact_letters me.now.key me.now.person.now clients.now.slots channels.old.items message.now)
        (λ letters. post.new ≡ posted letters post.old)) }
    ensures readers { OnOk result (readers post.new ≡ readers post.old) }
{
    let name = message.command.as_bytes();
    let params = message.params.as_slice();
    let command = read_command(name);
    if !(me.person.is_registered() || command.is_open()) {
        return tell_stranger(alloc, post, me);
    }
    if params.len() < command.needed() {
        return few_by(alloc, post, me, command, name);
    }
    act(alloc, post, clients, channels, me, command, name, params)
}
