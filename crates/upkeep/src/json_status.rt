// A bot's state as JSON.
ghost use Rattle.std.specs.Prelude.{IfOk};
ghost use Rattle.recordjson.specs.Words.{IsPlainLine};

use crate::flooding::{FloodWatch, put_ignores};
use administrators::{Admins, Asks};
use bytetext::NoMemory;
use peers::{Links, put_status_json};
use recordjson::JsonLine;
use serverlink::{IrcConnection, Session};
use settings::Settings;
use std::alloc::Global;

/// Returns the state of a bot at `version`, whose nick is `nick`, as a line of JSON: the facts that
/// [`status_of`](crate::status_of) says, and who is ignored at `now`.
///
/// # Errors
/// `NoMemory` if an allocation fails.
pub fn status_json(
    alloc: Global,
    version: u32,
    nick: &[u8],
    uplink: &IrcConnection,
    links: &Links,
    asks: &Asks,
    admins: &Admins,
    floods: &FloodWatch,
    settings: &Settings,
    now: u64,
) -> Result<Vec<u8>, NoMemory>
    ensures plain { IfOk result (λ text. IsPlainLine text.items) }
{
    let mut line = JsonLine::new(alloc);
    line.put_first(b"bot")?;
    line.put_number(u64::from(settings.station.number))?;
    line.put_next(b"version")?;
    line.put_number(u64::from(version))?;
    put_irc(&mut line, nick, uplink, settings)?;
    put_ignores(&mut line, floods, now)?;
    line.put_next(b"links")?;
    put_status_json(alloc, &mut line, links, version)?;
    put_counts(&mut line, uplink, links, asks, admins)?;
    line.finish()
}

// The server, the second of the next attempt to connect, and the channels.
fn put_irc(
    line: &mut JsonLine,
    nick: &[u8],
    uplink: &IrcConnection,
    settings: &Settings,
) -> Result<(), NoMemory> {
    line.put_next(b"server")?;
    match uplink.session() {
        Some(session) => {
            put_server(line, uplink.place(), settings)?;
            put_session(line, session, nick)?;
            line.put_next(b"due")?;
            line.put_words(b"null")?;
        }
        None => {
            line.put_words(b"null")?;
            line.put_next(b"due")?;
            line.put_number(uplink.due())?;
        }
    }
    line.put_next(b"channels")?;
    put_channels(line, uplink)
}

// The server at a place of the list: `null` for its host and port if the list has no such place.
fn put_server(line: &mut JsonLine, place: usize, settings: &Settings) -> Result<(), NoMemory> {
    line.put_first(b"host")?;
    match settings.servers.as_slice().get(place) {
        Some(server) => {
            line.put_text(server.address.host.as_bytes())?;
            line.put_next(b"port")?;
            line.put_number(u64::from(server.address.port))
        }
        None => {
            line.put_words(b"null")?;
            line.put_next(b"port")?;
            line.put_words(b"null")
        }
    }
}

// The connection, on which the bot's nick is `nick`; and the end of the server's object.
fn put_session(line: &mut JsonLine, session: &Session, nick: &[u8]) -> Result<(), NoMemory> {
    line.put_next(b"since")?;
    line.put_number(session.began())?;
    line.put_next(b"nick")?;
    line.put_text(nick)?;
    line.put_next(b"welcomed")?;
    line.put_truth(session.is_welcomed)?;
    line.put_next(b"unsent")?;
    line.put_number(session.unsent() as u64)?;
    line.put_words(b"}")
}

fn put_channels(line: &mut JsonLine, uplink: &IrcConnection) -> Result<(), NoMemory> {
    line.put_words(b"[")?;
    for place in 0..uplink.channels.len() {
        line.put_comma(place)?;
        put_channel(line, uplink, place)?;
    }
    line.put_words(b"]")
}

// The channel at a place, and whether the bot is on it.
fn put_channel(line: &mut JsonLine, uplink: &IrcConnection, place: usize) -> Result<(), NoMemory> {
    let Some(seat) = uplink.channels.get(place) else {
        return line.put_words(b"null");
    };
    line.put_first(b"channel")?;
    line.put_text(seat.channel())?;
    line.put_next(b"on")?;
    line.put_truth(seat.is_on())?;
    line.put_words(b"}")
}

// What waits in this bot: the asks of a leaf, its own lines, its administrators and their answers; and the end.
fn put_counts(
    line: &mut JsonLine,
    uplink: &IrcConnection,
    links: &Links,
    asks: &Asks,
    admins: &Admins,
) -> Result<(), NoMemory> {
    line.put_next(b"asks")?;
    if links.is_leaf() {
        line.put_number(asks.len() as u64)?;
    } else {
        line.put_words(b"null")?;
    }
    line.put_next(b"lines")?;
    line.put_number(uplink.own.len() as u64)?;
    line.put_next(b"admins")?;
    line.put_number(admins.len() as u64)?;
    line.put_next(b"answers")?;
    line.put_number(admins.unsent() as u64)?;
    line.put_words(b"}")
}
