// JOIN (RFC 2812 section 3.2.1).
ghost use Rattle.std.specs.Prelude.{◌≡◌, ◌∷◌, [], IfOk, OnErr, OnOk, codes};
ghost use Rattle.std.specs.Option.{option_copied};
ghost use Rattle.miniircd.specs.Mail.{posted};
ghost use Rattle.miniircd.specs.Rooms.{room, entered, entrance_of, joined, joined_each, undone};
ghost use Rattle.miniircd.specs.declared.undo_step.UndoStep.TheVariants.{Nowhere};
ghost use Rattle.miniircd.specs.Lines.{told, repeated, source_of, relayed, spread, titling, arrival, join_letters, join_letters_each};

use crate::client_identity::ClientIdentity;
use crate::entrance::{Entrance, find_entrance};
use crate::lines::{relayed, source_of};
use crate::member::{ServerChannel, ServerMember, channel_of};
use crate::names::tell_names;
use crate::post::Post;
use crate::replies::{Sender, spread, tell_of};
use crate::undo_step::{UndoStep, enter, undo};
use bytetext::{NoMemory, Text};
use slab::Slab;
use std::alloc::Global;

// Sends the topic, if there is one, to the client that joins.
fn tell_topic(
    alloc: Global,
    post: &mut Post<'_>,
    me: &Sender<'_>,
    name: &[u8],
    topic: &[u8],
) -> Result<(), NoMemory>
    ensures { OnOk result (post.new ≡ posted (titling me.now.key me.now.person.now name.now topic.now) post.old) }
{
    if topic.len() > 0 {
        tell_of(alloc, post, me, b"332", name, topic)?;
    }
    Ok(())
}

// Sends the JOIN to the members.
fn announce(
    alloc: Global,
    post: &mut Post<'_>,
    me: &Sender<'_>,
    name: &[u8],
    members: &[ServerMember],
) -> Result<(), NoMemory>
    ensures { OnOk result (post.new
        ≡ posted (spread (relayed (source_of me.now.person.now) (codes "JOIN") [] name.now) members.now) post.old) }
{
    let source = source_of(alloc, me.person)?;
    let line = relayed(alloc, source.as_slice(), b"JOIN", b"", name)?;
    spread(alloc, post, members, line.as_slice())
}

// Sends the JOIN to the members, and the topic and the names to the new one.
fn arrive(
    alloc: Global,
    post: &mut Post<'_>,
    clients: &Slab<ClientIdentity>,
    me: &Sender<'_>,
    name: &[u8],
    channel: Option<&ServerChannel>,
) -> Result<(), NoMemory>
    ensures { OnOk result (post.new
        ≡ posted (arrival me.now.key me.now.person.now name.now clients.now.slots (option_copied channel.entry))
        post.old) }
{
    let Some(channel) = channel else {
        return Ok(());
    };
    let members = channel.members.as_slice();
    announce(alloc, post, me, name, members)?;
    tell_topic(alloc, post, me, name, channel.topic.as_bytes())?;
    tell_names(alloc, post, clients, me, name, members)?;
    Ok(())
}

// Sends what a JOIN brings about to the members of the channel that the client has entered.
fn greet(
    alloc: Global,
    post: &mut Post<'_>,
    clients: &Slab<ClientIdentity>,
    me: &Sender<'_>,
    name: &[u8],
    channels: &[ServerChannel],
) -> Result<(), NoMemory>
    ensures { OnOk result (post.new
        ≡ posted (arrival me.now.key me.now.person.now name.now clients.now.slots (room name.now channels.now)) post.old) }
{
    arrive(alloc, post, clients, me, name, channel_of(channels, name))
}

// Lets a client join a channel that is open to it.
fn come_in(
    alloc: Global,
    post: &mut Post<'_>,
    clients: &Slab<ClientIdentity>,
    me: &Sender<'_>,
    name: &[u8],
    channels: &mut Vec<ServerChannel>,
) -> Result<UndoStep, NoMemory>
    ensures joined { OnOk result (channels.new.items ≡ entered name.now me.now.key channels.old.items) }
    ensures back { IfOk result (λ entry. undone entry channels.new.items ≡ channels.old.items) }
    ensures told { OnOk result (post.new
        ≡ posted (arrival me.now.key me.now.person.now name.now clients.now.slots (room name.now channels.new.items))
        post.old) }
    ensures err { OnErr result (channels.new.items ≡ channels.old.items) }
{
    let entry = enter(alloc, channels, name, me.key)?;
    match greet(alloc, post, clients, me, name, channels.as_slice()) {
        Ok(()) => Ok(entry),
        Err(refused) => {
            undo(channels, entry);
            Err(refused)
        }
    }
}

// Tells a client why it can't join.
fn keep_out(
    alloc: Global,
    post: &mut Post<'_>,
    me: &Sender<'_>,
    code: &[u8],
    name: &[u8],
    why: &[u8],
) -> Result<UndoStep, NoMemory>
    ensures nowhere { IfOk result (λ entry. entry ≡ Nowhere) }
    ensures told { OnOk result (post.new
        ≡ posted (told me.now.key me.now.person.now code.now (repeated name.now) why.now ∷ []) post.old) }
{
    tell_of(alloc, post, me, code, name, why)?;
    Ok(UndoStep::Nowhere)
}

// Returns what keeps a client out of the channel of one name.
fn entrance_for(
    alloc: Global,
    channels: &[ServerChannel],
    me: &Sender<'_>,
    name: &[u8],
) -> Result<Entrance, NoMemory>
    ensures { IfOk result (λ entrance. entrance
        ≡ entrance_of me.now.key (source_of me.now.person.now) name.now channels.now) }
{
    let source = source_of(alloc, me.person)?;
    Ok(find_entrance(channels, name, me.key, source.as_slice()))
}

// Lets a client join the channel of one name, if it may.
#[tactic(auto, using(crate::proofs::MailLemmas::posted_none))]
fn join(
    alloc: Global,
    post: &mut Post<'_>,
    clients: &Slab<ClientIdentity>,
    me: &Sender<'_>,
    name: &[u8],
    channels: &mut Vec<ServerChannel>,
) -> Result<UndoStep, NoMemory>
    ensures joined { OnOk result (channels.new.items ≡ joined me.now.key (source_of me.now.person.now) name.now channels.old.items) }
    ensures back { IfOk result (λ entry. undone entry channels.new.items ≡ channels.old.items) }
    ensures told { OnOk result (post.new
        ≡ posted (join_letters me.now.key me.now.person.now clients.now.slots name.now channels.old.items) post.old) }
    ensures err { OnErr result (channels.new.items ≡ channels.old.items) }
{
    match entrance_for(alloc, channels.as_slice(), me, name)? {
        Entrance::Open => come_in(alloc, post, clients, me, name, channels),
        Entrance::Inside => Ok(UndoStep::Nowhere),
        Entrance::Nameless => keep_out(alloc, post, me, b"403", name, b"No such channel"),
        Entrance::TooMany => {
            let why = b"You have joined too many channels";
            keep_out(alloc, post, me, b"405", name, why)
        }
        Entrance::Banned => keep_out(alloc, post, me, b"474", name, b"Cannot join channel (+b)"),
    }
}

/// Answers a JOIN of the client `me` to the channels called `names`, one after another.
///
/// # Errors
/// Returns `NoMemory` if an allocation fails; the channels are then unchanged.
#[tactic(auto, using(crate::proofs::MailLemmas::posted_append, crate::proofs::MailLemmas::posted_none))]
pub fn join_each(
    alloc: Global,
    post: &mut Post<'_>,
    clients: &Slab<ClientIdentity>,
    me: &Sender<'_>,
    names: &[Text],
    channels: &mut Vec<ServerChannel>,
) -> Result<(), NoMemory>
    ensures joined { OnOk result (channels.new.items ≡ joined_each me.now.key (source_of me.now.person.now) names.now channels.old.items) }
    ensures told { OnOk result (post.new
        ≡ posted (join_letters_each me.now.key me.now.person.now clients.now.slots names.now channels.old.items)
        post.old) }
    ensures err { OnErr result (channels.new.items ≡ channels.old.items) }
{
    let [name, more @ ..] = names else {
        return Ok(());
    };
    let entry = join(alloc, post, clients, me, name.as_bytes(), channels)?;
    match join_each(alloc, post, clients, me, more, channels) {
        Ok(()) => Ok(()),
        Err(refused) => {
            undo(channels, entry);
            Err(refused)
        }
    }
}
