// Where a hub listens.
use crate::verdict::{Bad, Fine, Verdict};
use bytetext::NoMemory;
use net::{DoorFault, TcpDoor, Watch, literal};
use settings::Address;
use std::io::ErrorKind;
use std::net::Net;

// The token of the only door.
const TOKEN: usize = 0;

// Looks whether a hub can listen at this address: listens there for a moment, and accepts nobody.
pub(crate) fn door_verdict<R: AllocGlobal + Net>(
    rt: &R,
    address: &Address,
) -> Result<Verdict, NoMemory> {
    let Some(at) = literal(address.host.as_bytes(), address.port) else {
        return Ok(Verdict::Bad(Bad::NotHere));
    };
    match Watch::new(rt, 4) {
        Ok(watch) => Ok(verdict_of_door(TcpDoor::open(rt, watch.registry(), TOKEN, at))),
        Err(error) => match error.kind() {
            ErrorKind::OutOfMemory => Err(NoMemory),
            _ => Ok(Verdict::Bad(Bad::Untried)),
        },
    }
}

fn verdict_of_door(opened: Result<TcpDoor, DoorFault>) -> Verdict {
    match opened {
        Ok(_door) => Verdict::Fine(Fine::Door),
        Err(DoorFault::NotHere) => Verdict::Bad(Bad::NotHere),
        Err(fault) => Verdict::Bad(Bad::Door(fault)),
    }
}
