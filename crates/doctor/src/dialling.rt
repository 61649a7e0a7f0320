// Whether somebody answers at an address.
use crate::verdict::{Bad, Fine, Verdict};
use bytetext::{Failure, NoMemory};
use net::{AnySocket, DialFault, DialTokens, Dialled, Dialling, Watch, Way};
use std::fs::File;
use std::io;
use std::io::ErrorKind;
use std::net::{Net, SocketAddr};
use std::random::RandomSource;
use std::rt::Files;
use std::time::Clock;
use streams::{Given, Stream as _};
use tunnels::{Target, dial};

// How long a name server has, and then the host, in milliseconds.
const LIMIT: u64 = 5_000;

// The longest single wait for a socket, in milliseconds.
const REST: u64 = 500;

// Nothing is tried twice, so any wait serves.
const LONGEST_WAIT: u16 = 300;

const TOKENS: DialTokens = DialTokens {
    connection: 1,
    lookup: 2,
};

// Looks the host up and connects to it, for at most `LIMIT` each; or connects to its tunnel alone. Sends nothing.
pub(crate) fn dial_verdict<R: AllocGlobal + Net + Clock + Files<File = File> + RandomSource>(
    rt: &R,
    target: Target<'_>,
) -> Result<Verdict, NoMemory> {
    let found = match Watch::new(rt, 16) {
        Ok(mut watch) => connect(rt, &mut watch, target),
        Err(error) => Err(untried(&error)),
    };
    match found {
        Ok(verdict) => Ok(verdict),
        Err(Failure::Refused(bad)) => Ok(Verdict::Bad(bad)),
        Err(Failure::NoMemory) => Err(NoMemory),
    }
}

fn connect<R: AllocGlobal + Net + Clock + Files<File = File> + RandomSource>(
    rt: &R,
    watch: &mut Watch,
    target: Target<'_>,
) -> Result<Verdict, Failure<Bad>> {
    let mut dialling = Dialling::new(0, LONGEST_WAIT, 1);
    match begin(rt, watch, &mut dialling, target) {
        Ok(Dialled { mut socket, way }) => match way {
            Way::Tcp(address) => verdict_of(rt, watch, &mut socket, address),
            // Whether somebody answers at its other end stands in the log of the tunnel.
            Way::Tunnel => Ok(Verdict::Fine(Fine::Tunnel)),
        },
        Err(fault) => Err(fault),
    }
}

// Looks the host up, and begins a connection.
fn begin<R: AllocGlobal + Net + Clock + Files<File = File> + RandomSource>(
    rt: &R,
    watch: &mut Watch,
    dialling: &mut Dialling,
    target: Target<'_>,
) -> Result<Dialled, Failure<Bad>> {
    let mut now = milliseconds(rt)?;
    let end = now.saturating_add(LIMIT);
    for _ in 0..u64::MAX {
        match dial(dialling, rt, watch.registry(), TOKENS, target, now / 1_000) {
            Ok(Some(dialled)) => return Ok(dialled),
            Ok(None) => {}
            Err(fault) => return Err(unbegun(fault)),
        }
        if now >= end {
            break;
        }
        now = rest(rt, watch, end - now)?;
    }
    Err(Failure::Refused(Bad::Host(DialFault::Unanswered)))
}

// Why no connection can even begin.
fn unbegun(fault: Failure<DialFault>) -> Failure<Bad> {
    let Failure::Refused(fault) = fault else {
        return Failure::NoMemory;
    };
    Failure::Refused(match fault {
        DialFault::Unreached => Bad::NoWay,
        DialFault::NoTunnel => Bad::NoTunnel,
        DialFault::TunnelBusy => Bad::TunnelBusy,
        DialFault::Unreadable | DialFault::Unknown | DialFault::Unanswered => Bad::Host(fault),
    })
}

// What has become of a connection.
#[derive(Clone, Copy)]
enum Attempt {
    // It is still being made.
    Pending,
    Made,
    Failed,
}

// Waits until the connection to `address` is made or has failed, at most `LIMIT`, and returns whether somebody answers.
fn verdict_of<R: Clock>(
    rt: &R,
    watch: &mut Watch,
    socket: &mut AnySocket,
    address: SocketAddr,
) -> Result<Verdict, Failure<Bad>> {
    let mut now = milliseconds(rt)?;
    let end = now.saturating_add(LIMIT);
    for _ in 0..u64::MAX {
        match attempt_of(socket) {
            Attempt::Pending => {}
            Attempt::Made => return Ok(Verdict::Fine(Fine::Answers(address))),
            Attempt::Failed => return Err(Failure::Refused(Bad::Refuses(address))),
        }
        if now >= end {
            break;
        }
        now = rest(rt, watch, end - now)?;
    }
    Err(Failure::Refused(Bad::Silent(address)))
}

fn attempt_of(socket: &mut AnySocket) -> Attempt {
    if socket.is_made() {
        return Attempt::Made;
    }
    let mut piece = [0; 1];
    match socket.give(&mut piece) {
        Given::Stall => Attempt::Pending,
        Given::Fault => Attempt::Failed,
        Given::Bytes(_) | Given::End => Attempt::Made,
    }
}

// Waits for a socket, at most so many milliseconds. Returns the time after it.
fn rest<R: Clock>(rt: &R, watch: &mut Watch, most: u64) -> Result<u64, Failure<Bad>> {
    match watch.wait(most.min(REST)) {
        Ok(()) => milliseconds(rt),
        Err(error) => Err(untried(&error)),
    }
}

// Milliseconds of the monotonic clock, which nobody sets.
fn milliseconds<R: Clock>(rt: &R) -> Result<u64, Failure<Bad>> {
    match rt.monotonic() {
        Ok(passed) => Ok(
            passed
                .as_secs()
                .saturating_mul(1_000)
                .saturating_add(u64::from(passed.subsec_millis())),
        ),
        Err(error) => Err(untried(&error)),
    }
}

// What it means that the system gives no socket or no time.
fn untried(error: &io::Error) -> Failure<Bad> {
    match error.kind() {
        ErrorKind::OutOfMemory => Failure::NoMemory,
        _ => Failure::Refused(Bad::Untried),
    }
}
