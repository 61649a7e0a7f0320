// The small server on loopback, for other programs.

use bytetext::NoMemory;
use live::{House, LiveError, SocketFault};
use replaying::{STREAM_FAULT, not_written, out_of_memory};
use std::alloc::Global;
use std::io;
use std::io::ErrorKind;
use std::net::Net;
use std::time::Clock;

// The longest wait for sockets after a turn in which nothing moved, in milliseconds; then it looks at the clock.
const REST: u64 = 1_000;

// Why it no longer serves.
enum ServeError {
    // The port can't be listened on, or the wait for sockets failed.
    Socket(SocketFault),
    // The port can't be written to standard output.
    Write,
    // Memory ran out.
    NoMemory,
}

impl From<io::Error> for ServeError {
    fn from(error: io::Error) -> ServeError {
        match error.kind() {
            ErrorKind::OutOfMemory => ServeError::NoMemory,
            _ => ServeError::Socket(SocketFault::of(&error)),
        }
    }
}

impl From<NoMemory> for ServeError {
    fn from(_: NoMemory) -> ServeError {
        ServeError::NoMemory
    }
}

/// Listens on `port` of 127.0.0.1, or if it is 0 on one that the system chooses. Prints the port, and serves until that
/// can't go on. Returns the exit status.
pub fn serve_port<R: Print + Eprint + AllocGlobal + Net + Clock>(rt: &R, port: u16) -> u8 {
    match serve(rt, port) {
        Ok(()) => 0,
        Err(ServeError::Socket(fault)) => {
            let _told = eprintln!(rt; "eggnet: {}", LiveError::Socket(fault));
            STREAM_FAULT
        }
        Err(ServeError::Write) => not_written(rt),
        Err(ServeError::NoMemory) => out_of_memory(rt),
    }
}

fn serve<R: Net + Clock + Print + AllocGlobal>(rt: &R, port: u16) -> Result<(), ServeError> {
    let mut house = House::open(rt, port)?;
    let port = house.port()?;
    if println!(rt; "{port}").is_err() {
        return Err(ServeError::Write);
    }
    let mut rest = 0;
    for _ in 0..u64::MAX {
        house.wait(rest)?;
        house.tick(rt.monotonic()?.as_secs())?;
        rest = if turn(rt.alloc(), &mut house)? {
            0
        } else {
            REST
        };
    }
    Ok(())
}

// Accepts waiting guests, hears all of them, sends what is queued, and drops those who are gone. Returns whether
// anything moved.
fn turn(alloc: Global, house: &mut House) -> Result<bool, NoMemory> {
    let came = house.let_in(alloc)?;
    let heard = house.read()?;
    house.step(alloc)?;
    let moved = house.send(alloc)?;
    Ok(came || heard || moved)
}
