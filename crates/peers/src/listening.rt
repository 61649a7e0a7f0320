// Where a hub listens.
use crate::door::DOOR;
use net::{AnyDoor, DoorFault, Registry, TcpDoor, UnixDoor};
use std::net::{Net, SocketAddr};
use std::rt::Files;

/// Where a hub listens.
#[derive(Clone, Copy)]
pub enum ListenPlace<'a> {
    /// At this address, over TCP.
    Address(SocketAddr),
    /// At this path of this machine, to which a tunnel brings the leaves. Nothing may exist there.
    Path(&'a str),
}

// Opens a listener at `place`, and nowhere else.
pub(crate) fn listen<R: Net + Files>(
    rt: &R,
    registry: &Registry,
    place: ListenPlace<'_>,
) -> Result<AnyDoor, DoorFault> {
    match place {
        ListenPlace::Address(address) => {
            Ok(AnyDoor::Tcp(TcpDoor::open(rt, registry, DOOR, address)?))
        }
        ListenPlace::Path(path) => Ok(AnyDoor::Unix(UnixDoor::open(rt, registry, DOOR, path)?)),
    }
}
