// Connections over TCP.
use crate::meeting::{ends, guest_of, heard, hears};
use crate::seen::{Seen, yes};
use crate::texts::{given, taken};
use bytetext::Failure;
use net::{AnySocket, Arrival, DialFault, DialTokens, Dialling, TcpDoor, TcpSocket, Watch, Way};
use std::fs::File;
use std::io;
use std::net::{Ipv4Addr, Net, SocketAddr};
use std::random::RandomSource;
use std::rt::Files;
use streams::Stream as _;

// The token of the door, and below it that of the caller who connects to it.
const DOOR: usize = 7;

const CALLER: usize = 8;

// The tokens of a try to connect.
const TOKENS: DialTokens = DialTokens {
    connection: CALLER,
    lookup: 9,
};

/// Connects to a door, sends bytes both ways, closes, and connects where nobody listens.
pub fn connections<R>(rt: &R, seen: &mut Seen) -> io::Result<()>
where
    R: AllocGlobal + Net + Files<File = File> + RandomSource,
{
    let mut watch = Watch::new(rt, 8)?;
    let here = SocketAddr::from((Ipv4Addr::LOCALHOST, 0));
    let Ok(door) = TcpDoor::open(rt, watch.registry(), DOOR, here) else {
        return Ok(());
    };
    let Some(address) = door.address() else {
        return Ok(());
    };
    let mut dialling = Dialling::new(0, 300, 1);
    let registry = watch.registry();
    match dialling.connect(rt, registry, TOKENS, b"127.0.0.1", address.port(), 0) {
        Ok(Some(dialled)) => {
            seen.note(
                "it leads to the door",
                yes(dialled.way == Way::Tcp(address)),
            );
            meet(seen, &mut watch, &door, dialled.socket)?;
        }
        Ok(None) => seen.note("it leads to the door", "looked up"),
        Err(_) => seen.note("it leads to the door", "refused"),
    }
    drop(door);
    let unread = dialling.connect(rt, watch.registry(), TOKENS, b"\xff", 1, 0);
    seen.note(
        "a host that can't be read",
        yes(is_unreadable(unread.err())),
    );
    refused(rt, seen, &mut watch, address)
}

fn is_unreadable(error: Option<Failure<DialFault>>) -> bool {
    matches!(error, Some(Failure::Refused(DialFault::Unreadable)))
}

// Lets the caller in, and has both ends send something.
fn meet(seen: &mut Seen, watch: &mut Watch, door: &TcpDoor, caller: AnySocket) -> io::Result<()> {
    let mut caller = caller;
    watch.wait(10_000)?;
    seen.note(
        "the door has something to say",
        yes(watch.tokens().contains(&DOOR)),
    );
    let Some(Arrival { socket, address }) = guest_of(watch, door)? else {
        seen.note("who came", "nobody");
        return Ok(());
    };
    seen.note(
        "the guest comes from the caller's address",
        yes(is_address_of(&caller, address)),
    );
    let mut guest = socket;
    let mut piece = [0; 16];
    seen.note("before a word", given(guest.give(&mut piece)));
    seen.note("the caller is told", taken(caller.take(b"PING :a\r\n")));
    seen.note(
        "the guest hears it",
        yes(hears(watch, &mut guest, b"PING :a\r\n")?),
    );
    seen.note("the guest is told", taken(guest.take(b"PONG :a\r\n")));
    seen.note("flushed", yes(guest.flush().is_ok()));
    seen.note(
        "the caller hears it",
        yes(hears(watch, &mut caller, b"PONG :a\r\n")?),
    );
    trust(seen, watch, &mut guest, caller)
}

// Has the guest trust short reads: the read after one asks nobody. Then the caller goes, and the watch tells of the end.
fn trust(
    seen: &mut Seen,
    watch: &mut Watch,
    guest: &mut TcpSocket,
    caller: AnySocket,
) -> io::Result<()> {
    let mut caller = caller;
    let mut piece = [0; 16];
    guest.trust_short_reads(true);
    seen.note("the caller tells more", taken(caller.take(b"more")));
    seen.note("the guest hears it", yes(hears(watch, guest, b"more")?));
    seen.note("and more again", taken(caller.take(b"again")));
    seen.note("after the short read", given(guest.give(&mut piece)));
    seen.note("the read after it", yes(hears(watch, guest, b"again")?));
    drop(caller);
    seen.note("the watch tells of the end", yes(ends(watch)?));
    guest.trust_short_reads(false);
    seen.note(
        "the caller is disconnected",
        given(heard(watch, guest, &mut piece)?),
    );
    Ok(())
}

// Returns whether `caller` is at `address` of this machine.
fn is_address_of(caller: &AnySocket, address: SocketAddr) -> bool {
    match caller.own_port() {
        Some(port) => address == SocketAddr::from((Ipv4Addr::LOCALHOST, port)),
        None => false,
    }
}

// Connects to `address`, where nobody listens any more.
fn refused<R: AllocGlobal + Net>(
    rt: &R,
    seen: &mut Seen,
    watch: &mut Watch,
    address: SocketAddr,
) -> io::Result<()> {
    let mut piece = [0; 16];
    match TcpSocket::connect(rt, watch.registry(), CALLER, address) {
        Ok(mut caller) => {
            seen.note(
                "where nobody listens",
                given(heard(watch, &mut caller, &mut piece)?),
            );
        }
        Err(_) => seen.note("where nobody listens", "a fault"),
    }
    Ok(())
}
