// The state of a bot's connections to the others, as lines.
ghost use Rattle.std.specs.Prelude.{◌≢◌, OnErr};
ghost use Rattle.peers.specs.declared.links.Links.TheVariants.{Alone};

use crate::hub_connection::{Hub, HubConnection};
use crate::hub_link::HubLink;
use crate::hub_links::HubLinks;
use crate::link_wire::LinkWire;
use crate::links::Links;
use crate::seat::Seat;
use bytetext::NoMemory;
use itoa::Buffer;
use net::Way;
use std::fmt::Display;

/// Appends to `text` the lines that say which bots of `links` are linked. `version` is the version of this bot's records.
///
/// - At a hub: how many leaves are linked. For each of them the version that it said last, by how many versions it is
///   behind the hub, the number of bytes that wait for it, since which second it is linked, and its address. While the
///   hub may be an older copy of itself, also why.
/// - At a leaf: the same of its hub, which is ahead by some versions, or when the next attempt to connect is due.
///
/// # Errors
/// `NoMemory` if an allocation fails: never for a bot that is alone.
pub fn put_status(text: &mut Vec<u8>, links: &Links, version: u32) -> Result<(), NoMemory>
    ensures memory { OnErr result (links.now ≢ Alone) }
{
    match links {
        Links::Alone => Ok(()),
        Links::Hub(hub) => put_hub(text, hub, version),
        Links::Leaf(leaf) => put_leaf(text, leaf, version),
    }
}

fn put_hub(text: &mut Vec<u8>, hub: &HubLinks, version: u32) -> Result<(), NoMemory> {
    put_count(text, b"linked leaves ", hub.linked() as u64)?;
    put(text, b"\n")?;
    for (leaf, place) in hub.seats.iter().enumerate() {
        if let Some(seat) = place {
            put_seat(text, leaf, seat, version)?;
        }
    }
    put_doubt(text, hub)
}

fn put_seat(text: &mut Vec<u8>, leaf: usize, seat: &Seat, version: u32) -> Result<(), NoMemory> {
    put_count(text, b"leaf ", leaf as u64)?;
    put_count(text, b" version ", u64::from(seat.version))?;
    put_count(
        text,
        b" behind ",
        u64::from(version.saturating_sub(seat.version)),
    )?;
    put_wire(text, &seat.wire, seat.since, &seat.way)
}

// What waits for the other end, since when it is linked, and its address.
fn put_wire(text: &mut Vec<u8>, wire: &LinkWire, since: u64, way: &Way) -> Result<(), NoMemory> {
    put_count(text, b" unsent ", wire.waiting() as u64)?;
    put_count(text, b" since ", since)?;
    put(text, b" address ")?;
    put_text(text, way)?;
    put(text, b"\n")
}

// Why the hub may be an older copy of itself, if it may.
fn put_doubt(text: &mut Vec<u8>, hub: &HubLinks) -> Result<(), NoMemory> {
    let Some(doubt) = hub.doubt() else {
        return Ok(());
    };
    put_count(
        text,
        b"in doubt, so no change is taken: leaf ",
        u64::from(doubt.leaf),
    )?;
    put(text, b": ")?;
    put_text(text, &doubt.refusal)?;
    put(text, b"\n")
}

fn put_leaf(text: &mut Vec<u8>, leaf: &HubConnection, version: u32) -> Result<(), NoMemory> {
    match &leaf.hub {
        Some(Hub::Linked(link)) => put_link(text, link, version),
        Some(Hub::Meets(_)) => put(text, b"connecting to the hub\n"),
        None => {
            put_count(text, b"no hub, next try at ", leaf.due())?;
            put(text, b"\n")
        }
    }
}

fn put_link(text: &mut Vec<u8>, link: &HubLink, version: u32) -> Result<(), NoMemory> {
    put_count(
        text,
        b"linked to the hub, version ",
        u64::from(link.version),
    )?;
    put_count(
        text,
        b" ahead ",
        u64::from(link.version.saturating_sub(version)),
    )?;
    put_wire(text, &link.wire, link.since, &link.way)
}

fn put_count(text: &mut Vec<u8>, word: &[u8], count: u64) -> Result<(), NoMemory> {
    let mut buffer = Buffer::new();
    put(text, word)?;
    put(text, buffer.format(count).as_bytes())
}

fn put_text<T: Display>(text: &mut Vec<u8>, value: &T) -> Result<(), NoMemory> {
    let written = format!(in *text.allocator(); "{value}")?;
    put(text, written.as_bytes())
}

fn put(text: &mut Vec<u8>, bytes: &[u8]) -> Result<(), NoMemory> {
    text.extend_from_slice(bytes)?;
    Ok(())
}
