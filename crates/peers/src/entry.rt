// What the log says about the connections between bots.
use crate::gone::Gone;
use bstr::ByteSlice as _;
use net::{DialFault, Way};
use std::fmt;
use std::fmt::Display;

// An event that is logged.
#[derive(Clone, Copy)]
pub(crate) enum Entry<'a> {
    // A leaf is linked.
    Joined(u16, Way),
    // A leaf is disconnected.
    LeafGone(u16, Way, Gone),
    // A connection that was not welcomed is closed; the number of the leaf, if it has shown its code.
    GuestGone(Option<u16>, Way, Gone),
    // The leaf begins to connect to the hub.
    Dialled(&'a [u8], Way),
    // An attempt to connect to the hub, or to the path of its tunnel, could not begin; the second at which the next one is due.
    NotDialled(&'a [u8], DialFault, u64),
    // The hub is linked.
    Linked(Way),
    // The hub is disconnected; the second at which the next attempt is due.
    HubGone(Gone, u64),
}

impl Display for Entry<'_> {
    fn fmt<W: fmt::Write>(&self, f: &mut fmt::Formatter<W>) -> fmt::Result {
        match *self {
            Entry::Joined(leaf, way) => put_joined(f, leaf, way),
            Entry::LeafGone(leaf, way, gone) => put_leaf_gone(f, leaf, way, gone),
            Entry::GuestGone(leaf, way, gone) => put_guest_gone(f, leaf, way, gone),
            Entry::Dialled(host, way) => put_dialled(f, host, way),
            Entry::NotDialled(host, fault, due) => put_not_dialled(f, host, fault, due),
            Entry::Linked(way) => put_linked(f, way),
            Entry::HubGone(gone, due) => write!(f, "hub lost: {gone}; next try at {due}"),
        }
    }
}

fn put_joined<W: fmt::Write>(f: &mut fmt::Formatter<W>, leaf: u16, way: Way) -> fmt::Result {
    match way {
        Way::Tcp(address) => write!(f, "leaf {leaf} linked from {address}"),
        Way::Tunnel => write!(f, "leaf {leaf} linked through the tunnel"),
    }
}

fn put_leaf_gone<W: fmt::Write>(
    f: &mut fmt::Formatter<W>,
    leaf: u16,
    way: Way,
    gone: Gone,
) -> fmt::Result {
    write!(f, "leaf {leaf} at {way} gone: {gone}")
}

fn put_guest_gone<W: fmt::Write>(
    f: &mut fmt::Formatter<W>,
    leaf: Option<u16>,
    way: Way,
    gone: Gone,
) -> fmt::Result {
    match leaf {
        Some(leaf) => write!(f, "leaf {leaf} at {way} refused: {gone}"),
        None => write!(f, "a connection from {way} closed: {gone}"),
    }
}

fn put_dialled<W: fmt::Write>(f: &mut fmt::Formatter<W>, host: &[u8], way: Way) -> fmt::Result {
    let host = host.escape_bytes();
    match way {
        Way::Tcp(address) => write!(f, "connecting to the hub {host} at {address}"),
        Way::Tunnel => write!(f, "connecting to the hub {host} through its tunnel"),
    }
}

fn put_linked<W: fmt::Write>(f: &mut fmt::Formatter<W>, way: Way) -> fmt::Result {
    match way {
        Way::Tcp(address) => write!(f, "linked to the hub at {address}"),
        Way::Tunnel => f.write_str("linked to the hub through its tunnel"),
    }
}

fn put_not_dialled<W: fmt::Write>(
    f: &mut fmt::Formatter<W>,
    host: &[u8],
    fault: DialFault,
    due: u64,
) -> fmt::Result {
    let host = host.escape_bytes();
    write!(
        f,
        "not connecting to the hub {host}: {fault}; next try at {due}"
    )
}
