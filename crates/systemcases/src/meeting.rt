// Waiting for one another.
use net::{Arrival, Socket, TcpDoor, Watch};
use std::io;
use std::io::{Read, Write};
use streams::{Given, Stream as _};

/// How often to wait for something, at most; `TURN` is how long each time, in milliseconds.
const TURNS: u32 = 100;

const TURN: u64 = 100;

/// The token of a guest who is let in.
pub const GUEST: usize = 9;

/// Waits for the next guest at `door`. Returns `None` if nobody comes.
pub fn guest_of(watch: &mut Watch, door: &TcpDoor) -> io::Result<Option<Arrival>> {
    for _turn in 0..TURNS {
        if let Some(arrival) = door.let_in(watch.registry(), GUEST) {
            return Ok(Some(arrival));
        }
        watch.wait(TURN)?;
    }
    Ok(None)
}

/// Waits until `socket` has something to say, and returns it; its bytes are at the start of `piece`.
pub fn heard<S: Read + Write>(
    watch: &mut Watch,
    socket: &mut Socket<S>,
    piece: &mut [u8; 16],
) -> io::Result<Given> {
    for _turn in 0..TURNS {
        match socket.give(piece) {
            Given::Stall => watch.wait(TURN)?,
            Given::Bytes(count) => return Ok(Given::Bytes(count)),
            Given::End => return Ok(Given::End),
            Given::Fault => return Ok(Given::Fault),
        }
    }
    Ok(Given::Stall)
}

/// Waits until an event tells that the other side of the guest's connection sends no more. Returns whether one came.
pub fn ends(watch: &mut Watch) -> io::Result<bool> {
    for _turn in 0..TURNS {
        watch.wait(TURN)?;
        if watch.endings().contains(&GUEST) {
            return Ok(true);
        }
    }
    Ok(false)
}

/// Returns whether the next bytes that `socket` gives are just `text`.
pub fn hears<S: Read + Write>(
    watch: &mut Watch,
    socket: &mut Socket<S>,
    text: &[u8],
) -> io::Result<bool> {
    let mut piece = [0; 16];
    match heard(watch, socket, &mut piece)? {
        Given::Bytes(count) => Ok(count == text.len() && piece.starts_with(text)),
        Given::End | Given::Stall | Given::Fault => Ok(false),
    }
}
