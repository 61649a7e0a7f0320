// Doors over TCP.
use crate::seen::{Seen, yes};
use crate::texts::opened;
use net::{TcpDoor, Watch, literal};
use std::io;
use std::net::{Ipv4Addr, Net, SocketAddr};

/// Opens doors, and tries to open one at an address that is not this machine's.
pub fn doors<R: AllocGlobal + Net>(rt: &R, seen: &mut Seen) -> io::Result<()> {
    let watch = Watch::new(rt, 8)?;
    let here = SocketAddr::from((Ipv4Addr::LOCALHOST, 0));
    let door = TcpDoor::open(rt, watch.registry(), 1, here);
    seen.note("a door", opened(&door));
    if let Some(address) = door.ok().and_then(|door| door.address()) {
        seen.note("its port is another one than 0", yes(address.port() != 0));
    }
    second_door(rt, seen, &watch, here);
    if let Some(nowhere) = literal(b"192.0.2.7", 7100) {
        let door = TcpDoor::open(rt, watch.registry(), 1, nowhere);
        seen.note("a door elsewhere", opened(&door));
    }
    seen.note(
        "a name is no address",
        yes(literal(b"localhost", 1).is_none()),
    );
    Ok(())
}

// Opens a second door at the address of the first.
fn second_door<R: AllocGlobal + Net>(rt: &R, seen: &mut Seen, watch: &Watch, here: SocketAddr) {
    let Ok(door) = TcpDoor::open(rt, watch.registry(), 1, here) else {
        return;
    };
    let guest = door.let_in(watch.registry(), 2);
    seen.note("nobody waits at it", yes(guest.is_none()));
    if let Some(address) = door.address() {
        let second = TcpDoor::open(rt, watch.registry(), 2, address);
        seen.note("a second one there", opened(&second));
    }
}
