// A bot's state, as lines.
use crate::flooding::FloodWatch;
use administrators::{Admins, Asks};
use bytetext::NoMemory;
use itoa::Buffer;
use peers::{Links, put_status};
use serverlink::{IrcConnection, Session};
use settings::Settings;
use std::alloc::Global;

/// Returns the lines that describe the state of a bot at `version`, whose nick is `nick`, and say who is
/// ignored at `now`.
///
/// # Errors
/// `NoMemory` if an allocation fails.
pub fn status_of(
    alloc: Global,
    version: u32,
    nick: &[u8],
    uplink: &IrcConnection,
    links: &Links,
    asks: &Asks,
    admins: &Admins,
    floods: &FloodWatch,
    settings: &Settings,
    now: u64,
) -> Result<Vec<u8>, NoMemory> {
    let mut text = Vec::new(alloc);
    put_count(&mut text, b"version ", u64::from(version))?;
    put_server(&mut text, nick, uplink, settings)?;
    for place in 0..uplink.channels.len() {
        put_channel(&mut text, uplink, place)?;
    }
    floods.put_status(&mut text, now)?;
    put_status(&mut text, links, version)?;
    if links.is_leaf() {
        put_count(&mut text, b"asks ", asks.len() as u64)?;
    }
    put_count(&mut text, b"lines ", uplink.own.len() as u64)?;
    put_count(&mut text, b"admins ", admins.len() as u64)?;
    put_count(&mut text, b"answers ", admins.unsent() as u64)?;
    Ok(text)
}

// Appends the server, and since when it is connected, or when the next one is tried.
fn put_server(
    text: &mut Vec<u8>,
    nick: &[u8],
    uplink: &IrcConnection,
    settings: &Settings,
) -> Result<(), NoMemory> {
    match uplink.session() {
        Some(session) => {
            put_name(text, uplink.place(), settings)?;
            put_session(text, session, nick)
        }
        None => put_count(text, b"no server, next try at ", uplink.due()),
    }
}

// Appends the server at a place of the list.
fn put_name(text: &mut Vec<u8>, place: usize, settings: &Settings) -> Result<(), NoMemory> {
    if let Some(server) = settings.servers.as_slice().get(place) {
        put(text, b"server ")?;
        put(text, server.address.host.as_bytes())?;
        put_count(text, b" ", u64::from(server.address.port))?;
    }
    Ok(())
}

// Appends the connection, on which the bot's nick is `nick`.
fn put_session(text: &mut Vec<u8>, session: &Session, nick: &[u8]) -> Result<(), NoMemory> {
    put_count(text, b"since ", session.began())?;
    put(text, b"nick ")?;
    put(text, nick)?;
    put(text, b"\n")?;
    if !session.is_welcomed {
        put(text, b"not welcomed yet\n")?;
    }
    put_count(text, b"unsent ", session.unsent() as u64)
}

// Appends the channel at a place, and whether the bot is on it.
fn put_channel(text: &mut Vec<u8>, uplink: &IrcConnection, place: usize) -> Result<(), NoMemory> {
    if let Some(seat) = uplink.channels.get(place) {
        put(text, b"channel ")?;
        put(text, seat.channel())?;
        put(text, if seat.is_on() { b" on\n" } else { b" off\n" })?;
    }
    Ok(())
}

fn put_count(text: &mut Vec<u8>, word: &[u8], count: u64) -> Result<(), NoMemory> {
    let mut buffer = Buffer::new();
    put(text, word)?;
    put(text, buffer.format(count).as_bytes())?;
    put(text, b"\n")
}

fn put(text: &mut Vec<u8>, bytes: &[u8]) -> Result<(), NoMemory> {
    text.extend_from_slice(bytes)?;
    Ok(())
}
