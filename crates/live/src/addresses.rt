// Where the sockets are.
use net::{DoorFault, Registry, TcpDoor};
use std::io;
use std::io::ErrorKind;
use std::net::{Ipv4Addr, Net, SocketAddr};

// The token under which all sockets are watched: a turn goes over all of them, whichever has something to do.
pub(crate) const TOKEN: usize = 0;

/// Returns the address of `port` on this machine.
pub fn local(port: u16) -> SocketAddr {
    SocketAddr::from((Ipv4Addr::LOCALHOST, port))
}

// Listens on `port` of this machine, or on one that the system chooses if it is 0.
pub(crate) fn listen<R: Net>(rt: &R, registry: &Registry, port: u16) -> io::Result<TcpDoor> {
    match TcpDoor::open(rt, registry, TOKEN, local(port)) {
        Ok(door) => Ok(door),
        Err(fault) => Err(io::Error::from(kind_of(fault))),
    }
}

// The kind of the system's error for which a door can't be opened.
fn kind_of(fault: DoorFault) -> ErrorKind {
    match fault {
        DoorFault::InUse => ErrorKind::AddrInUse,
        DoorFault::NotHere => ErrorKind::AddrNotAvailable,
        DoorFault::Barred => ErrorKind::PermissionDenied,
        DoorFault::Closed => ErrorKind::Other,
    }
}

// The port on which a door listens.
pub(crate) fn port_of(door: &TcpDoor) -> io::Result<u16> {
    match door.address() {
        Some(address) => Ok(address.port()),
        None => Err(io::Error::from(ErrorKind::Other)),
    }
}
