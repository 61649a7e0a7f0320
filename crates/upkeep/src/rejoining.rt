// What changes at the connection to the server: by a configuration that is read again, or because an admin asks for it.
ghost use Rattle.std.specs.Prelude.{◌<◌, length};
ghost use Rattle.bytetext.specs.declared.moment.TheConstants.{MOMENTS_END};

use crate::ending::RunError;
use crate::uplink_deeds::jump;
use bytetext::Text;
use control::ChannelWords;
use net::Log;
use serverlink::IrcConnection;
use settings::Settings;
use std::alloc::Global;

/// Has the connection go on by `new` settings: leaves channels that are no longer named, joins those that are new, takes
/// the keys of the others, and asks for another nick. If the server is no longer in the list, leaves it for the first of the new list.
///
/// # Errors
/// `NoMemory` if an allocation fails.
pub fn take_uplink<R: AllocGlobal>(
    rt: &R,
    log: &mut Log,
    uplink: &mut IrcConnection,
    old: &Settings,
    new: &Settings,
    now: u64,
) -> Result<(), RunError>
    requires moment { now < MOMENTS_END }
    requires some { 0 < length new.now.servers }
{
    let number = new.station.number;
    let _changed = uplink.take_channels(rt.alloc(), new.channels.as_slice(), number, now)?;
    if old.nick.as_bytes() != new.nick.as_bytes() {
        uplink.take_nick(rt.alloc(), new.nick.as_bytes())?;
    }
    match uplink.place_in(old.servers.as_slice(), new.servers.as_slice()) {
        Some(place) => uplink.relist(new.servers.len(), place),
        None => {
            // Without a connection it is refused, and nothing is to be left.
            let _answer = jump(rt, log, uplink, old, now)?;
            uplink.relist(new.servers.len(), 0);
        }
    }
    Ok(())
}

/// Has the bot join a channel, until it ends or reads its configuration again. Returns the answer.
///
/// # Errors
/// `NoMemory` if an allocation fails.
pub fn join(
    alloc: Global,
    uplink: &mut IrcConnection,
    words: ChannelWords,
    settings: &Settings,
    now: u64,
) -> Result<Vec<u8>, RunError> {
    let ChannelWords { channel, key } = words;
    let number = settings.station.number;
    let answer: &[u8] = if uplink.add_channel(alloc, channel.as_bytes(), key, number, now)? {
        b"joining\n"
    } else {
        b"refused listed already: say -chan and this channel first, to join it by another key\n"
    };
    Ok(Vec::from_slice(alloc, answer)?)
}

/// Has the bot leave a channel, until it ends or reads its configuration again. Returns the answer.
///
/// # Errors
/// `NoMemory` if an allocation fails.
pub fn part(
    alloc: Global,
    uplink: &mut IrcConnection,
    channel: &Text,
) -> Result<Vec<u8>, RunError> {
    let answer: &[u8] = if uplink.drop_channel(alloc, channel.as_bytes())? {
        b"leaving\n"
    } else {
        b"refused not listed: say status, which shows the channels\n"
    };
    Ok(Vec::from_slice(alloc, answer)?)
}
