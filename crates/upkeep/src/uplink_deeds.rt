// What a bot does at its server because an admin asks for it.
ghost use Rattle.std.specs.Prelude.{◌<◌};
ghost use Rattle.bytetext.specs.declared.moment.TheConstants.{MOMENTS_END};

use crate::ending::RunError;
use bytetext::{NoMemory, Text};
use net::Log;
use serverlink::{IrcConnection, MAX_LINE, Why};
use settings::Settings;
use std::alloc::Global;

// At the end, the process waits at most this many seconds for what is still unsent.
const LAST_SECONDS: u64 = 2;

/// Queues a line for the server, after the lines before it, as an admin asks, and returns the answer.
///
/// # Errors
/// `NoMemory` if an allocation fails.
pub fn say(alloc: Global, uplink: &mut IrcConnection, line: Text) -> Result<Vec<u8>, RunError> {
    if uplink.session().is_none() {
        return Ok(Vec::from_slice(
            alloc,
            b"refused no server: wait until the bot is connected\n",
        )?);
    }
    if !uplink.own.has_room() {
        return Ok(Vec::from_slice(alloc, b"refused 64 lines wait: say it later\n")?);
    }
    uplink.own.put(line)?;
    Ok(Vec::from_slice(alloc, b"said\n")?)
}

/// Disconnects from this server, as an admin asks, and returns the answer. The next server is tried after a wait.
///
/// # Errors
/// `NoMemory` if an allocation fails.
pub fn jump<R: AllocGlobal>(
    rt: &R,
    log: &mut Log,
    uplink: &mut IrcConnection,
    settings: &Settings,
    now: u64,
) -> Result<Vec<u8>, RunError>
    requires moment { now < MOMENTS_END }
{
    if uplink.session().is_none() {
        return Ok(Vec::from_slice(
            rt.alloc(),
            b"refused no server: the next is tried in time\n",
        )?);
    }
    uplink.tell(log, settings, b"QUIT :changing servers", now)?;
    let _sent = uplink.send();
    uplink.lose(log, Why::Jump, now);
    Ok(Vec::from_slice(rt.alloc(), b"jumping\n")?)
}

/// Queues a QUIT for the server, as an admin asks, and marks the process to end: `until` is the second until which it waits
/// for what is still unsent. Returns the answer.
///
/// # Errors
/// `NoMemory` if an allocation fails.
pub fn die<R: AllocGlobal>(
    rt: &R,
    log: &mut Log,
    uplink: &mut IrcConnection,
    until: &mut Option<u64>,
    settings: &Settings,
    text: &Text,
    now: u64,
) -> Result<Vec<u8>, RunError> {
    let line = quit_line(rt.alloc(), text.as_bytes())?;
    uplink.own.clear();
    uplink.tell(log, settings, line.as_slice(), now)?;
    if until.is_none() {
        *until = Some(now.saturating_add(LAST_SECONDS));
    }
    Ok(Vec::from_slice(rt.alloc(), b"ending\n")?)
}

// QUIT and a text, truncated to the length of a line.
fn quit_line(alloc: Global, text: &[u8]) -> Result<Vec<u8>, NoMemory> {
    let mut line = Vec::from_slice(alloc, b"QUIT :")?;
    line.extend_from_slice(text)?;
    line.truncate(MAX_LINE);
    Ok(line)
}
