// The bans of a channel (RFC 2811 section 4.3.1, and RFC 2812 section 3.2.3).
ghost use Rattle.std.specs.Prelude.{◌≡◌, ◌++◌, IfOk, OnOk, count_by, filter, not};
ghost use Rattle.std.specs.Option.{option_copied};
ghost use Rattle.wildmask.specs.Masks.{host_fault};
ghost use Rattle.miniircd.specs.Mail.{readers};
ghost use Rattle.miniircd.specs.Rooms.{is_ban, other_bans, ban_unless, is_full};

use crate::member::{ServerChannel, channel_of};
use crate::post::Post;
use crate::replies::{Sender, tell_of};
use crate::texts::is_same;
use bytetext::{Failure, NoMemory, TryCopy};
use std::alloc::Global;
use wildmask::Mask;

// The most bans that a channel has.
const MAX_BANS: usize = 60;

// Returns whether `ban` has the text `text`, by casemapping.
fn is_ban(text: &[u8], ban: &Mask) -> bool
    ensures { result ≡ is_ban text.now ban.now }
{
    is_same(text, ban.text())
}

// Returns how many of `bans` have another text than `text`.
fn count_other_bans(bans: &[Mask], text: &[u8]) -> usize
    ensures { result ≡ count_by (λ mask. not (is_ban text.now mask)) bans.now }
{
    bans.iter().filter(|ban| !is_ban(text, *ban)).count()
}

/// Returns those of `bans` that have another text than `text`.
///
/// # Errors
/// Returns `NoMemory` if an allocation fails.
pub fn other_bans(alloc: Global, bans: &[Mask], text: &[u8]) -> Result<Vec<Mask>, NoMemory>
    ensures { IfOk result (λ after. after.items ≡ other_bans text.now bans.now) }
{
    let mut after = Vec::with_capacity(alloc, bans.len())?;
    for ban in bans {
        if !is_ban(text, ban) {
            after.push(ban.copy(alloc)?)?;
        }
    }
    Ok(after)
}

/// Appends the ban of `text` to `bans`. A text that is not a hostmask of at most 120 bytes is no ban.
///
/// # Errors
/// Returns `NoMemory` if an allocation fails.
pub fn push_ban(alloc: Global, bans: &mut Vec<Mask>, text: &[u8]) -> Result<(), NoMemory>
    ensures { OnOk result (bans.new.items ≡ bans.old.items ++ ban_unless (host_fault text.now) text.now) }
{
    match Mask::host(alloc, text) {
        Ok(ban) => bans.push(ban)?,
        Err(Failure::Refused(_)) => {}
        Err(Failure::NoMemory) => return Err(NoMemory),
    }
    Ok(())
}

/// Returns whether `channel`, if there is one, has no room for the ban of `text`.
pub fn is_full(channel: Option<&ServerChannel>, text: &[u8]) -> bool
    ensures { result ≡ is_full text.now (option_copied channel.entry) }
{
    match channel {
        Some(channel) => count_other_bans(channel.bans.as_slice(), text) >= MAX_BANS,
        None => false,
    }
}

// Sends each of `bans` to the client that asked.
fn tell_each(
    alloc: Global,
    post: &mut Post<'_>,
    me: &Sender<'_>,
    name: &[u8],
    bans: &[Mask],
) -> Result<(), NoMemory>
    ensures { OnOk result (readers post.new ≡ readers post.old) }
{
    for ban in bans {
        tell_of(alloc, post, me, b"367", name, ban.text())?;
    }
    Ok(())
}

/// Sends the bans of the channel `name`, if it exists, to the client `me`.
///
/// # Errors
/// Returns `NoMemory` if an allocation fails.
pub fn tell_bans(
    alloc: Global,
    post: &mut Post<'_>,
    channels: &[ServerChannel],
    me: &Sender<'_>,
    name: &[u8],
) -> Result<(), NoMemory>
    ensures { OnOk result (readers post.new ≡ readers post.old) }
{
    match channel_of(channels, name) {
        Some(channel) => {
            tell_each(alloc, post, me, name, channel.bans.as_slice())?;
            tell_of(alloc, post, me, b"368", name, b"End of channel ban list")
        }
        None => Ok(()),
    }
}
