// Doors at a path.
use crate::meeting::hears;
use crate::seen::{Seen, yes};
use crate::texts::{opened, taken};
use net::{DialFault, Dialling, UnixDoor, UnixSocket, Watch, Way};
use std::io::ErrorKind;
use std::net::Net;
use std::rt::Files;
use std::{fs, io};
use streams::Stream as _;

// The path.
const PATH: &str = "control";

/// Opens a door at a path, and connects to it.
pub fn paths<R: AllocGlobal + Files + Net>(rt: &R, seen: &mut Seen) -> io::Result<()> {
    let _left = fs::remove_file(rt, PATH);
    let mut watch = Watch::new(rt, 8)?;
    let nobody = UnixSocket::connect_path(rt, watch.registry(), 2, PATH);
    seen.note("nothing is at the path", yes(is_missing(nobody)));
    seen.note("so there is no tunnel", yes(has_no_tunnel(rt, &watch)));
    let door = UnixDoor::open(rt, watch.registry(), 1, PATH);
    seen.note("a door at it", opened(&door));
    let second = UnixDoor::open(rt, watch.registry(), 3, PATH);
    seen.note("a second one", opened(&second));
    if let Ok(door) = &door {
        meet(rt, seen, &mut watch, door)?;
        seen.note("a tunnel leads to it", dialled(rt, &watch));
    }
    drop(door);
    seen.note(
        "without it there is no tunnel",
        yes(has_no_tunnel(rt, &watch)),
    );
    let nobody = UnixSocket::connect_path(rt, watch.registry(), 2, PATH);
    seen.note("nobody listens at it any more", yes(nobody.is_err()));
    seen.note("its file is left", yes(fs::remove_file(rt, PATH).is_ok()));
    Ok(())
}

fn is_missing(connected: io::Result<UnixSocket>) -> bool {
    match connected {
        Ok(_) => false,
        Err(error) => error.kind() == ErrorKind::NotFound,
    }
}

// What comes of a try to connect through a tunnel at the path.
fn dialled<R: Net>(rt: &R, watch: &Watch) -> &'static str {
    let dialling = Dialling::new(0, 300, 1);
    match dialling.connect_path(rt, watch.registry(), 5, PATH) {
        Ok(dialled) => yes(dialled.way == Way::Tunnel && dialled.socket.own_port().is_none()),
        Err(_) => "refused",
    }
}

// Whether a try to connect through a tunnel at the path finds none.
fn has_no_tunnel<R: Net>(rt: &R, watch: &Watch) -> bool {
    let dialling = Dialling::new(0, 300, 1);
    let tried = dialling.connect_path(rt, watch.registry(), 5, PATH);
    matches!(tried, Err(DialFault::NoTunnel))
}

// Connects, is let in, and sends both ways.
fn meet<R: AllocGlobal + Net>(
    rt: &R,
    seen: &mut Seen,
    watch: &mut Watch,
    door: &UnixDoor,
) -> io::Result<()> {
    let mut caller = UnixSocket::connect_path(rt, watch.registry(), 2, PATH)?;
    let Some(mut guest) = door.let_in(watch.registry(), 4) else {
        seen.note("who came", "nobody");
        return Ok(());
    };
    seen.note("a command is told", taken(caller.take(b"status\n")));
    seen.note("it is heard", yes(hears(watch, &mut guest, b"status\n")?));
    seen.note("it is answered", taken(guest.take(b".\n")));
    seen.note("that is heard", yes(hears(watch, &mut caller, b".\n")?));
    Ok(())
}
