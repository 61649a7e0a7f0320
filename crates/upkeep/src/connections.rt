// All connections of a bot's process: to its server, to the other bots, and to administrators.
ghost use Rattle.std.specs.Prelude.{◌<◌};
ghost use Rattle.bytetext.specs.declared.moment.TheConstants.{MOMENTS_END};

use administrators::Admins;
use bytetext::NoMemory;
use net::{Log, Registry};
use peers::{Dice, Links};
use serverlink::IrcConnection;
use settings::Settings;
use std::fs::File;
use std::net::Net;
use std::random::RandomSource;
use std::rt::Files;

/// Unless the process is to end, at second `until`, connects what is lost and due, and accepts other bots. Returns whether a
/// connection to a server began.
///
/// # Errors
/// `NoMemory` if an allocation fails.
pub fn connect<R: AllocGlobal + Net + Files<File = File> + RandomSource>(
    rt: &R,
    log: &mut Log,
    registry: &Registry,
    until: Option<u64>,
    uplink: &mut IrcConnection,
    links: &mut Links,
    settings: &Settings,
    now: u64,
) -> Result<bool, NoMemory>
    requires moment { now < MOMENTS_END }
{
    if until.is_some() {
        return Ok(false);
    }
    let _linking = links.connect(rt, &mut Dice::new(), log, registry, settings, now)?;
    uplink.connect(rt, log, registry, settings, now)
}

/// Keeps up the connection to the server, offers each connection its unsent bytes, and closes the connections that are
/// over. Returns whether another turn is due at once: a connection may take more, is to be closed, or has more to be done
/// for it, as a login that derives its salted password.
///
/// # Errors
/// `NoMemory` if an allocation fails.
pub fn send<R: AllocGlobal>(
    rt: &R,
    log: &mut Log,
    uplink: &mut IrcConnection,
    admins: &mut Admins,
    links: &mut Links,
    settings: &Settings,
    now: u64,
) -> Result<bool, NoMemory>
    requires moment { now < MOMENTS_END }
{
    uplink.keep(rt, log, settings, now)?;
    let derives = uplink.derive(rt, log, settings, now)?;
    let server = uplink.send();
    let admins = admins.send();
    let peers = links.send()?;
    uplink.let_go(log, now);
    links.let_go(log, now);
    Ok(derives || server || admins || peers)
}
