// MODE (RFC 2812 section 3.2.3).
ghost use Rattle.std.specs.Prelude.{◌≡◌, IfOk, OnOk, if◌then◌else◌};
ghost use Rattle.std.specs.List.{list_any};
ghost use Rattle.miniircd.specs.Mail.{readers};
ghost use Rattle.miniircd.specs.declared.server_change.ServerChange.TheVariants.{Same, Channels};
ghost use Rattle.miniircd.specs.Rooms.{room};
ghost use Rattle.miniircd.specs.Commands.{standing_in, is_mark, is_ban_of, counts, marked_on, banned_on, target_on, moded, moded_each, mode_change};

use crate::bans::{is_full, tell_bans};
use crate::channel_edit::{ChannelEdit, rooms_after};
use crate::client_identity::ClientIdentity;
use crate::lines::repeated;
use crate::member::{ServerChannel, channel_of};
use crate::modes::{Single, singles};
use crate::post::Post;
use crate::replies::{Sender, tell, tell_of};
use crate::rooms::{pass_on, target_on, turn_away};
use crate::server_change::ServerChange;
use crate::standing::{Standing, find_standing};
use bytetext::{NoMemory, Seq, Text, copies_of};
use rfccase::is_channel_name;
use slab::Slab;
use std::alloc::Global;

// Returns whether the letter is that of a mark.
fn is_mark(letter: u8) -> bool
    ensures { result ≡ is_mark letter }
{
    letter == b'o' || letter == b'v'
}

// Returns whether the mode sets or clears a ban.
fn is_ban(single: &Single) -> bool
    ensures { result ≡ is_ban_of single.now }
{
    single.letter == b'b' && single.argument.len() > 0
}

// Returns whether the mode asks for the bans.
fn is_question(single: &Single) -> bool {
    single.letter == b'b' && single.argument.is_empty()
}

// Returns whether the mode would change something, provided that there is such a member.
fn counts(single: &Single) -> bool
    ensures { result ≡ counts single.now }
{
    (is_mark(single.letter) || single.letter == b'b') && single.argument.len() > 0
}

// Returns whether any of these modes would.
fn any_counts(singles: &[Single]) -> bool
    ensures { result ≡ list_any counts singles.now }
{
    singles.iter().any(|single| counts(single))
}

// Sends a single mode to all who are on the channel, as a line of its own.
fn pass_mode_on(
    alloc: Global,
    post: &mut Post<'_>,
    channels: &[ServerChannel],
    me: &Sender<'_>,
    name: &[u8],
    single: &Single,
) -> Result<(), NoMemory>
    ensures { OnOk result (readers post.new ≡ readers post.old) }
{
    let sign = if single.on { b" +" } else { b" -" };
    let mut words = Vec::from_slice(alloc, sign)?;
    words.push(single.letter)?;
    let argument = single.argument.as_bytes();
    pass_on(
        alloc,
        post,
        channels,
        me,
        b"MODE",
        name,
        words.as_slice(),
        argument,
    )
}

// Sets or clears a mark of a member, if there is one.
fn mark(
    alloc: Global,
    post: &mut Post<'_>,
    channels: Vec<ServerChannel>,
    me: &Sender<'_>,
    name: &[u8],
    single: &Single,
    target: Option<usize>,
) -> Result<Vec<ServerChannel>, NoMemory>
    ensures marked { IfOk result (λ after. after.items ≡ marked_on target name.now single.now channels.items) }
    ensures readers { OnOk result (readers post.new ≡ readers post.old) }
{
    let Some(client) = target else {
        return Ok(channels);
    };
    pass_mode_on(alloc, post, channels.as_slice(), me, name, single)?;
    let edit = ChannelEdit::Mark {
        client,
        is_voice: single.letter == b'v',
        on: single.on,
    };
    rooms_after(alloc, channels.as_slice(), Some(name), edit)
}

// Replies that a channel has no room for a ban.
fn tell_full(
    alloc: Global,
    post: &mut Post<'_>,
    me: &Sender<'_>,
    name: &[u8],
) -> Result<(), NoMemory>
    ensures { OnOk result (readers post.new ≡ readers post.old) }
{
    let mut words = repeated(alloc, name)?;
    words.extend_from_slice(b" b")?;
    tell(
        alloc,
        post,
        me,
        b"478",
        words.as_slice(),
        b"Channel list is full",
    )
}

// Sets or clears a ban and sends the mode to all who are on the channel. A ban for which there is no room is refused.
fn ban(
    alloc: Global,
    post: &mut Post<'_>,
    channels: Vec<ServerChannel>,
    me: &Sender<'_>,
    name: &[u8],
    single: &Single,
) -> Result<Vec<ServerChannel>, NoMemory>
    ensures banned { IfOk result (λ after. after.items ≡ banned_on name.now single.now channels.items) }
    ensures readers { OnOk result (readers post.new ≡ readers post.old) }
{
    let text = single.argument.as_bytes();
    if single.on && is_full(channel_of(channels.as_slice(), name), text) {
        tell_full(alloc, post, me, name)?;
        return Ok(channels);
    }
    pass_mode_on(alloc, post, channels.as_slice(), me, name, single)?;
    let edit = ChannelEdit::Ban {
        text,
        on: single.on,
    };
    rooms_after(alloc, channels.as_slice(), Some(name), edit)
}

// Applies one single mode of an operator.
fn apply(
    alloc: Global,
    post: &mut Post<'_>,
    clients: &Slab<ClientIdentity>,
    channels: Vec<ServerChannel>,
    me: &Sender<'_>,
    name: &[u8],
    single: &Single,
) -> Result<Vec<ServerChannel>, NoMemory>
    ensures moded { IfOk result (λ after. after.items ≡ moded clients.now.slots name.now single.now channels.items) }
    ensures readers { OnOk result (readers post.new ≡ readers post.old) }
{
    if is_mark(single.letter) {
        let target = target_on(
            clients,
            channels.as_slice(),
            name,
            single.argument.as_bytes(),
        );
        return mark(alloc, post, channels, me, name, single, target);
    }
    if is_ban(single) {
        return ban(alloc, post, channels, me, name, single);
    }
    Ok(channels)
}

// Applies the single modes of an operator, one after another.
fn apply_each(
    alloc: Global,
    post: &mut Post<'_>,
    clients: &Slab<ClientIdentity>,
    channels: &[ServerChannel],
    me: &Sender<'_>,
    name: &[u8],
    singles: &[Single],
) -> Result<Vec<ServerChannel>, NoMemory>
    ensures moded { IfOk result
        (λ after. after.items ≡ moded_each clients.now.slots name.now singles.now channels.now) }
    ensures readers { OnOk result (readers post.new ≡ readers post.old) }
{
    let mut after = copies_of(alloc, channels)?;
    for single in singles {
        after = apply(alloc, post, clients, after, me, name, single)?;
    }
    Ok(after)
}

// Refuses the modes of a client that is no operator, if one of them counts.
fn refuse(
    alloc: Global,
    post: &mut Post<'_>,
    me: &Sender<'_>,
    name: &[u8],
    singles: &[Single],
) -> Result<(), NoMemory>
    ensures { OnOk result (readers post.new ≡ readers post.old) }
{
    if any_counts(singles) {
        turn_away(alloc, post, me, name, Standing::Plain)?;
    }
    Ok(())
}

// Replies with the modes of a channel, which has none, to a MODE without `modes`.
fn tell_modes(
    alloc: Global,
    post: &mut Post<'_>,
    channels: &[ServerChannel],
    me: &Sender<'_>,
    name: &[u8],
    modes: &[u8],
) -> Result<(), NoMemory>
    ensures { OnOk result (readers post.new ≡ readers post.old) }
{
    if !modes.is_empty() {
        return Ok(());
    }
    if channel_of(channels, name).is_some() {
        tell_of(alloc, post, me, b"324", name, b"+")?;
    } else if is_channel_name(name) {
        turn_away(alloc, post, me, name, Standing::Unknown)?;
    }
    Ok(())
}

// Sends the bans of a channel to a client that is on it, if the modes ask for them.
fn answer_questions(
    alloc: Global,
    post: &mut Post<'_>,
    channels: &[ServerChannel],
    me: &Sender<'_>,
    name: &[u8],
    singles: &[Single],
) -> Result<(), NoMemory>
    ensures { OnOk result (readers post.new ≡ readers post.old) }
{
    if singles.iter().any(|single| is_question(single)) {
        tell_bans(alloc, post, channels, me, name)?;
    }
    Ok(())
}

/// Answers a MODE of the client `me` on the channel `name`. `modes` is the mode string, and `arguments` are its
/// arguments. Without `modes` it asks for the modes of the channel, and b without a text asks for its bans. If no mode
/// counts, it changes nothing.
///
/// # Errors
/// Returns `NoMemory` if an allocation fails.
pub fn mode(
    alloc: Global,
    post: &mut Post<'_>,
    clients: &Slab<ClientIdentity>,
    channels: &[ServerChannel],
    me: &Sender<'_>,
    name: &[u8],
    modes: &[u8],
    arguments: &[Text],
) -> Result<ServerChange, NoMemory>
    ensures change { IfOk result (λ change. change
        ≡ mode_change (standing_in me.now.key (room name.now channels.now)) clients.now.slots name.now modes.now arguments.now channels.now) }
    ensures readers { OnOk result (readers post.new ≡ readers post.old) }
{
    tell_modes(alloc, post, channels, me, name, modes)?;
    let singles = singles(alloc, modes, arguments)?;
    let standing = find_standing(channels, name, me.key);
    match standing {
        Standing::Unknown | Standing::Outside => {
            keep_out(alloc, post, me, name, modes, standing)?;
            Ok(ServerChange::Same)
        }
        Standing::Plain => {
            hear_member(alloc, post, channels, me, name, singles.as_slice())?;
            Ok(ServerChange::Same)
        }
        Standing::Op => {
            hear_operator(alloc, post, clients, channels, me, name, singles.as_slice())
        }
    }
}

// Refuses the modes of a client that is not on the channel, if there are modes.
fn keep_out(
    alloc: Global,
    post: &mut Post<'_>,
    me: &Sender<'_>,
    name: &[u8],
    modes: &[u8],
    standing: Standing,
) -> Result<(), NoMemory>
    ensures { OnOk result (readers post.new ≡ readers post.old) }
{
    if is_about_a_channel(name, modes) {
        turn_away(alloc, post, me, name, standing)?;
    }
    Ok(())
}

// Answers the modes of a client that is on the channel and is no operator of it.
fn hear_member(
    alloc: Global,
    post: &mut Post<'_>,
    channels: &[ServerChannel],
    me: &Sender<'_>,
    name: &[u8],
    singles: &[Single],
) -> Result<(), NoMemory>
    ensures { OnOk result (readers post.new ≡ readers post.old) }
{
    answer_questions(alloc, post, channels, me, name, singles)?;
    refuse(alloc, post, me, name, singles)
}

// Answers and applies the modes of an operator.
fn hear_operator(
    alloc: Global,
    post: &mut Post<'_>,
    clients: &Slab<ClientIdentity>,
    channels: &[ServerChannel],
    me: &Sender<'_>,
    name: &[u8],
    singles: &[Single],
) -> Result<ServerChange, NoMemory>
    ensures change { IfOk result (λ change. change ≡ (if list_any counts singles.now
        then Channels (moded_each clients.now.slots name.now singles.now channels.now) else Same)) }
    ensures readers { OnOk result (readers post.new ≡ readers post.old) }
{
    answer_questions(alloc, post, channels, me, name, singles)?;
    if !any_counts(singles) {
        return Ok(ServerChange::Same);
    }
    let after = apply_each(alloc, post, clients, channels, me, name, singles)?;
    Ok(ServerChange::Channels(Seq::new(after)))
}

// Returns whether there are modes, and the name is a channel's.
fn is_about_a_channel(name: &[u8], modes: &[u8]) -> bool {
    modes.len() > 0 && is_channel_name(name)
}
