// The list of the bans.
ghost use Rattle.std.specs.Prelude.{◌≡◌, true, IfOk, IfErr, length};
ghost use Rattle.bytetext.specs.declared.failure.Failure.TheVariants.{NoMemory as no_memory};
ghost use Rattle.userfile.specs.Apply.{has_ban_room, new_ban, marked, with_sticky};
ghost use Rattle.userfile.specs.Held.{has_ban, bans_of, bans_without};
ghost use Rattle.userfile.specs.Shapes.{is_hostmask};

use crate::ban::Ban;
use crate::error::ChangeError;
use crate::limits::MAX_CHANNEL_BANS;
use crate::texts::is_same;
use crate::user_edits::hostmask_of;
use bytetext::{Text, TryCopy};
use std::alloc::Global;

// Whether a ban of this channel and mask exists.
pub(crate) fn has_ban(bans: &[Ban], channel: &[u8], mask: &[u8]) -> bool
    ensures { result ≡ has_ban channel.now mask.now bans.now }
{
    bans.iter().any(|ban| ban.is_of(channel, mask))
}

// Whether a channel has room for a person's ban.
pub(crate) fn has_ban_room(channel: &[u8], bans: &[Ban]) -> bool
    ensures { result ≡ has_ban_room channel.now bans.now }
{
    channel.is_empty() || bans_of(channel, bans) < MAX_CHANNEL_BANS
}

// The number of a channel's bans.
fn bans_of(channel: &[u8], bans: &[Ban]) -> usize
    ensures { result ≡ length (bans_of channel.now bans.now) }
{
    bans.iter()
        .filter(|ban| is_same(channel, ban.channel.as_bytes()))
        .count()
}

// Creates a ban from copies of these texts; the mask must be a hostmask. The ban isn't sticky.
pub(crate) fn ban_of(
    alloc: Global,
    channel: &Text,
    mask: &Text,
    creator: &Text,
    expires: u64,
    comment: &Text,
) -> Result<Ban, ChangeError>
    requires { is_hostmask mask.now ≡ true }
    ensures ok { IfOk result (λ ban. ban ≡ new_ban channel.now mask.now creator.now expires comment.now) }
    ensures err { IfErr result (λ e. e ≡ no_memory) }
{
    let mask = hostmask_of(alloc, mask)?;
    Ok(Ban {
        channel: channel.copy(alloc)?,
        mask,
        creator: creator.copy(alloc)?,
        expires,
        comment: comment.copy(alloc)?,
        sticky: false,
    })
}

// Removes the ban of this channel and mask, and keeps the others in their order.
pub(crate) fn keep_other_bans(bans: &mut Vec<Ban>, channel: &[u8], mask: &[u8])
    ensures { bans.new.items ≡ bans_without channel.now mask.now bans.old.items }
{
    bans.retain(|ban| !ban.is_of(channel, mask));
}

// Marks the ban of this channel and mask as sticky, or as not sticky.
pub(crate) fn set_sticky(bans: &mut [Ban], channel: &[u8], mask: &[u8], on: bool)
    ensures { bans.new ≡ with_sticky channel.now mask.now on bans.old }
{
    for ban in bans.iter_mut() {
        mark(ban, channel, mask, on);
    }
}

// Marks a ban if it is the one of this channel and mask.
fn mark(ban: &mut Ban, channel: &[u8], mask: &[u8], on: bool)
    ensures { ban.new ≡ marked channel.now mask.now on ban.old }
{
    if ban.is_of(channel, mask) {
        ban.sticky = on;
    }
}
