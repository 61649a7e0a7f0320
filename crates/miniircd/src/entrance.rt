// Who may join a channel (RFC 2812 section 3.2.1).
ghost use Rattle.std.specs.Prelude.{◌≡◌};
ghost use Rattle.std.specs.List.{list_any};
ghost use Rattle.std.specs.Option.{option_copied};
ghost use Rattle.wildmask.specs.Masks.{is_match};
ghost use Rattle.miniircd.specs.Rooms.{room, count_of, is_banned, is_on_some, entrance_of};

use crate::member::{ServerChannel, channel_of, is_member};
use rfccase::is_channel_name;
use wildmask::Mask;

// The most channels that a client may be on.
const MAX_CHANNELS: usize = 20;

/// What keeps a client out of a channel, in the order in which it is tested.
#[derive(Clone, Copy)]
pub enum Entrance {
    // The name is not a channel's.
    Nameless,
    // The client is on it already.
    Inside,
    // The client is on as many channels as it may be.
    TooMany,
    // A ban of the channel matches the client.
    Banned,
    // Nothing: the client may join.
    Open,
}

// Returns how many channels a client is on.
fn count_of(channels: &[ServerChannel], client: usize) -> usize
    ensures { result ≡ count_of client channels.now }
{
    channels
        .iter()
        .filter(|channel| is_member(channel.members.as_slice(), client))
        .count()
}

// Returns whether one of `bans` matches `source`, a `nick!user@host`.
fn one_matches(bans: &[Mask], source: &[u8]) -> bool
    ensures { result ≡ list_any (λ mask. is_match mask source.now) bans.now }
{
    bans.iter().any(|ban| ban.matches(source))
}

// Returns whether a ban of the channel, if there is one, matches `source`, a `nick!user@host`.
fn is_banned(channel: Option<&ServerChannel>, source: &[u8]) -> bool
    ensures { result ≡ is_banned source.now (option_copied channel.entry) }
{
    match channel {
        Some(channel) => one_matches(channel.bans.as_slice(), source),
        None => false,
    }
}

// Returns whether a client is on the channel, if there is one.
fn is_inside(channel: Option<&ServerChannel>, client: usize) -> bool
    ensures { result ≡ is_on_some client (option_copied channel.entry) }
{
    match channel {
        Some(channel) => is_member(channel.members.as_slice(), client),
        None => false,
    }
}

/// Returns what keeps `client`, whose `nick!user@host` is `source`, out of the channel called `name`.
pub fn find_entrance(
    channels: &[ServerChannel],
    name: &[u8],
    client: usize,
    source: &[u8],
) -> Entrance
    ensures { result ≡ entrance_of client source.now name.now channels.now }
{
    let channel = channel_of(channels, name);
    if !is_channel_name(name) {
        Entrance::Nameless
    } else if is_inside(channel, client) {
        Entrance::Inside
    } else if count_of(channels, client) >= MAX_CHANNELS {
        Entrance::TooMany
    } else if is_banned(channel, source) {
        Entrance::Banned
    } else {
        Entrance::Open
    }
}
