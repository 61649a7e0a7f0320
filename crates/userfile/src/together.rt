// Which records can be together in one userfile.
ghost use Rattle.std.specs.Prelude.{◌≡◌};
ghost use Rattle.std.specs.List.{list_any, list_all};
ghost use Rattle.rfccase.specs.Casemapping.{is_same};
ghost use Rattle.userfile.specs.Together.{is_entry, is_user, is_good_ban, repeats_channel, repeats_handle, repeats_mask, repeats_ban, is_over, records_fault};

use crate::ban::Ban;
use crate::bans::has_ban;
use crate::channel_flags::ChannelFlags;
use crate::error::ChangeFault;
use crate::hostmask::{Hostmask, has_mask};
use crate::limits::{MAX_BANS, MAX_CHANNELS, MAX_MASKS, MAX_USERS};
use crate::refusals::{fault_if, first_of_two};
use crate::shapes::{is_ban_channel, is_comment, is_handle, is_info};
use crate::texts::is_same;
use crate::user::User;
use rfccase::is_channel_name;

/// Returns whether `user` is good: the handle passes [`is_handle`](crate::is_handle), each channel is
/// named once, is a channel name and has flags, and the info text passes [`is_info`](crate::is_info).
#[tactic(auto, unfolding(crate::specs::Together::is_user))]
pub fn is_user(user: &User) -> bool
    ensures { result ≡ is_user user.now }
{
    is_handle(user.handle.as_bytes())
        && are_entries(user.channels.as_slice())
        && !repeats_channel(user.channels.as_slice())
        && is_info(user.info.as_bytes())
}

/// Returns whether `ban` is good: the creator is a handle, and the channel and the comment may be a ban's.
#[tactic(auto, unfolding(crate::specs::Together::is_good_ban))]
pub fn is_ban(ban: &Ban) -> bool
    ensures { result ≡ is_good_ban ban.now }
{
    is_handle(ban.creator.as_bytes())
        && is_ban_channel(ban.channel.as_bytes())
        && is_comment(ban.comment.as_bytes())
}

/// Returns whether each of the `users` passes [`is_user`].
pub fn are_users(users: &[User]) -> bool
    ensures { result ≡ list_all is_user users.now }
{
    users.iter().all(is_user)
}

/// Returns whether each of the `bans` passes [`is_ban`].
pub fn are_bans(bans: &[Ban]) -> bool
    ensures { result ≡ list_all is_good_ban bans.now }
{
    bans.iter().all(is_ban)
}

// The first reason why records can't be together in one userfile.
pub(crate) fn records_fault(users: &[User], bans: &[Ban]) -> Option<ChangeFault>
    ensures { result ≡ records_fault users.now bans.now }
{
    first_of_two(
        fault_if(repeats_handle(users), ChangeFault::UserExists),
        first_of_two(
            fault_if(some_repeats_mask(users), ChangeFault::MaskExists),
            first_of_two(
                fault_if(repeats_ban(bans), ChangeFault::BanExists),
                fault_if(
                    users.len() > MAX_USERS || bans.len() > MAX_BANS || some_over(users),
                    ChangeFault::Full,
                ),
            ),
        ),
    )
}

fn are_entries(entries: &[ChannelFlags]) -> bool
    ensures { result ≡ list_all is_entry entries.now }
{
    entries.iter().all(|entry| is_channel_name(entry.channel.as_bytes()) && !entry.flags.is_empty())
}

fn repeats_channel(entries: &[ChannelFlags]) -> bool
    ensures { result ≡ repeats_channel entries.now }
{
    match entries {
        [] => false,
        [first, rest @ ..] => has_channel(rest, first.channel.as_bytes()) || repeats_channel(rest),
    }
}

fn has_channel(entries: &[ChannelFlags], channel: &[u8]) -> bool
    ensures { result ≡ list_any (λ e. is_same channel.now e.channel) entries.now }
{
    entries
        .iter()
        .any(|entry| is_same(channel, entry.channel.as_bytes()))
}

fn repeats_handle(users: &[User]) -> bool
    ensures { result ≡ repeats_handle users.now }
{
    match users {
        [] => false,
        [first, rest @ ..] => has_handle(rest, first.handle.as_bytes()) || repeats_handle(rest),
    }
}

fn has_handle(users: &[User], handle: &[u8]) -> bool
    ensures { result ≡ list_any (λ u. is_same handle.now u.handle) users.now }
{
    users
        .iter()
        .any(|user| is_same(handle, user.handle.as_bytes()))
}

fn some_repeats_mask(users: &[User]) -> bool
    ensures { result ≡ list_any (λ user. repeats_mask user.masks) users.now }
{
    users.iter().any(|user| repeats_mask(user.masks.as_slice()))
}

fn repeats_mask(masks: &[Hostmask]) -> bool
    ensures { result ≡ repeats_mask masks.now }
{
    match masks {
        [] => false,
        [first, rest @ ..] => has_mask(rest, first.as_bytes()) || repeats_mask(rest),
    }
}

fn repeats_ban(bans: &[Ban]) -> bool
    ensures { result ≡ repeats_ban bans.now }
{
    match bans {
        [] => false,
        [first, rest @ ..] => {
            has_ban(rest, first.channel.as_bytes(), first.mask.as_bytes()) || repeats_ban(rest)
        }
    }
}

fn some_over(users: &[User]) -> bool
    ensures { result ≡ list_any is_over users.now }
{
    users.iter().any(|user| user.masks.len() > MAX_MASKS || user.channels.len() > MAX_CHANNELS)
}
