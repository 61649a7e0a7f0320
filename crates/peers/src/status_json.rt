// The state of a bot's connections to the others, as JSON.
use crate::hub_connection::{Hub, HubConnection};
use crate::hub_link::HubLink;
use crate::hub_links::HubLinks;
use crate::link_wire::LinkWire;
use crate::links::Links;
use crate::seat::Seat;
use bytetext::NoMemory;
use net::Way;
use recordjson::JsonLine;
use std::alloc::Global;
use std::fmt::Display;

/// Appends to `line` the object that says which bots of `links` are linked. `version` is the version of this bot's
/// records. The facts are those of [`put_status`](crate::put_status):
///
/// - of a bot that is alone, `{"kind":"alone"}`;
/// - of a hub, `"leaves"`, an object for each linked leaf, and `"doubt"`, which is `null` unless the hub may be an
///   older copy of itself;
/// - of a leaf, `"hub"`, which is `null` unless the leaf is linked, and `"due"`, the second of the next attempt to
///   connect, which is `null` while the leaf is connected.
///
/// # Errors
/// `NoMemory` if an allocation fails.
pub fn put_status_json(
    alloc: Global,
    line: &mut JsonLine,
    links: &Links,
    version: u32,
) -> Result<(), NoMemory> {
    line.put_first(b"kind")?;
    match links {
        Links::Alone => line.put_words(b"\"alone\"}"),
        Links::Hub(hub) => put_hub(alloc, line, hub, version),
        Links::Leaf(leaf) => put_leaf(alloc, line, leaf, version),
    }
}

fn put_hub(
    alloc: Global,
    line: &mut JsonLine,
    hub: &HubLinks,
    version: u32,
) -> Result<(), NoMemory> {
    line.put_words(b"\"hub\"")?;
    line.put_next(b"leaves")?;
    put_seats(alloc, line, hub, version)?;
    line.put_next(b"doubt")?;
    put_doubt(alloc, line, hub)?;
    line.put_words(b"}")
}

// The list of the leaves that are linked.
fn put_seats(
    alloc: Global,
    line: &mut JsonLine,
    hub: &HubLinks,
    version: u32,
) -> Result<(), NoMemory> {
    line.put_words(b"[")?;
    let mut is_first = true;
    for (leaf, place) in hub.seats.iter().enumerate() {
        if let Some(seat) = place {
            line.put_comma(if is_first { 0 } else { leaf })?;
            put_seat(alloc, line, leaf, seat, version)?;
            is_first = false;
        }
    }
    line.put_words(b"]")
}

fn put_seat(
    alloc: Global,
    line: &mut JsonLine,
    leaf: usize,
    seat: &Seat,
    version: u32,
) -> Result<(), NoMemory> {
    let behind = version.saturating_sub(seat.version);
    line.put_first(b"leaf")?;
    line.put_number(leaf as u64)?;
    line.put_next(b"version")?;
    line.put_number(u64::from(seat.version))?;
    line.put_next(b"behind")?;
    line.put_number(u64::from(behind))?;
    put_wire(alloc, line, &seat.wire, seat.since, &seat.way)
}

// What waits for the other end, since when it is linked, and its address; and the end of the object.
fn put_wire(
    alloc: Global,
    line: &mut JsonLine,
    wire: &LinkWire,
    since: u64,
    way: &Way,
) -> Result<(), NoMemory> {
    line.put_next(b"unsent")?;
    line.put_number(wire.waiting() as u64)?;
    line.put_next(b"since")?;
    line.put_number(since)?;
    line.put_next(b"address")?;
    put_shown(alloc, line, way)?;
    line.put_words(b"}")
}

// Why the hub may be an older copy of itself, if it may.
fn put_doubt(alloc: Global, line: &mut JsonLine, hub: &HubLinks) -> Result<(), NoMemory> {
    let Some(doubt) = hub.doubt() else {
        return line.put_words(b"null");
    };
    line.put_first(b"leaf")?;
    line.put_number(u64::from(doubt.leaf))?;
    line.put_next(b"why")?;
    put_shown(alloc, line, &doubt.refusal)?;
    line.put_words(b"}")
}

fn put_leaf(
    alloc: Global,
    line: &mut JsonLine,
    leaf: &HubConnection,
    version: u32,
) -> Result<(), NoMemory> {
    line.put_words(b"\"leaf\"")?;
    line.put_next(b"hub")?;
    match &leaf.hub {
        Some(Hub::Linked(link)) => put_link(alloc, line, link, version)?,
        Some(Hub::Meets(_)) | None => line.put_words(b"null")?,
    }
    line.put_next(b"due")?;
    if leaf.hub.is_some() {
        line.put_words(b"null")?;
    } else {
        line.put_number(leaf.due())?;
    }
    line.put_words(b"}")
}

fn put_link(
    alloc: Global,
    line: &mut JsonLine,
    link: &HubLink,
    version: u32,
) -> Result<(), NoMemory> {
    let ahead = link.version.saturating_sub(version);
    line.put_first(b"version")?;
    line.put_number(u64::from(link.version))?;
    line.put_next(b"ahead")?;
    line.put_number(u64::from(ahead))?;
    put_wire(alloc, line, &link.wire, link.since, &link.way)
}

fn put_shown<T: Display>(alloc: Global, line: &mut JsonLine, value: &T) -> Result<(), NoMemory> {
    let written = format!(in alloc; "{value}")?;
    line.put_text(written.as_bytes())
}
