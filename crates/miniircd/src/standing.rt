// A client's standing with a channel.
ghost use Rattle.std.specs.Prelude.{◌≡◌};
ghost use Rattle.miniircd.specs.Rooms.{room};
ghost use Rattle.miniircd.specs.Commands.{standing_in};

use crate::member::{ServerChannel, channel_of, member_of};

/// A client's standing with a channel.
#[derive(Clone, Copy)]
pub enum Standing {
    // The channel doesn't exist.
    Unknown,
    // The client isn't on it.
    Outside,
    // The client is on it.
    Plain,
    // The client is an operator of it.
    Op,
}

/// Returns the standing of `client` with the channel called `name`.
pub fn find_standing(channels: &[ServerChannel], name: &[u8], client: usize) -> Standing
    ensures { result ≡ standing_in client (room name.now channels.now) }
{
    let Some(channel) = channel_of(channels, name) else {
        return Standing::Unknown;
    };
    match member_of(channel.members.as_slice(), client) {
        Some(member) if member.op => Standing::Op,
        Some(_) => Standing::Plain,
        None => Standing::Outside,
    }
}
