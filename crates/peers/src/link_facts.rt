// The state of each of a bot's links, for those who show it.
use crate::hub_connection::{Hub, HubConnection};
use crate::hub_links::HubLinks;
use crate::links::Links;
use net::Way;

/// Another bot of the net that is linked.
#[derive(Clone, Copy, Debug)]
pub struct LinkFacts {
    /// The version that it said last.
    pub version: u32,
    /// The number of bytes that wait for it.
    pub unsent: usize,
    /// The second since which it is linked.
    pub since: u64,
    /// Its address, or that it is linked through a tunnel.
    pub way: Way,
}

impl Links {
    /// Returns the number of places for other bots. At a hub a leaf has the place of its number, from 1; at a leaf the hub
    /// has the place 0.
    pub fn places(&self) -> usize {
        match self {
            Links::Alone => 0,
            Links::Hub(hub) => hub.seats.len(),
            Links::Leaf(_) => 1,
        }
    }

    /// Returns the facts of the other bot at a place, if it is linked.
    pub fn link_at(&self, place: usize) -> Option<LinkFacts> {
        match self {
            Links::Alone => None,
            Links::Hub(hub) => leaf_at(hub, place),
            Links::Leaf(leaf) => hub_at(leaf, place),
        }
    }
}

fn leaf_at(hub: &HubLinks, place: usize) -> Option<LinkFacts> {
    match hub.seats.get(place) {
        Some(Some(seat)) => Some(LinkFacts {
            version: seat.version,
            unsent: seat.wire.waiting(),
            since: seat.since,
            way: seat.way,
        }),
        Some(None) | None => None,
    }
}

fn hub_at(leaf: &HubConnection, place: usize) -> Option<LinkFacts> {
    match &leaf.hub {
        Some(Hub::Linked(link)) if place == 0 => Some(LinkFacts {
            version: link.version,
            unsent: link.wire.waiting(),
            since: link.since,
            way: link.way,
        }),
        Some(Hub::Linked(_) | Hub::Meets(_)) | None => None,
    }
}
