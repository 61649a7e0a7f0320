// Why a listener can't be opened.
use std::io;
use std::io::ErrorKind;
use thiserror::Error;

/// Why a door can't be opened. Each message continues the address or the path: `0.0.0.0:7100 is in use: ..`.
#[derive(Clone, Copy, Debug, PartialEq, Eq, Error)]
pub enum DoorFault {
    /// Somebody listens on this address already.
    #[error("is in use: end the program that listens there, or change the line listen")]
    InUse,
    /// No interface of this machine has this address.
    #[error("is no address of this machine")]
    NotHere,
    /// The system lets only the superuser listen on this port, or create a file at this path.
    #[error("may not be listened on: take a port above 1023, or a folder of this user's own")]
    Barred,
    /// The system has no resources left for a listener, or the path has more than 107 bytes.
    #[error("can't be listened on: the system has no file or memory for it, or its name is too long")]
    Closed,
}

// Why the system does not let a program listen.
pub(crate) fn door_fault(error: &io::Error) -> DoorFault {
    match error.kind() {
        ErrorKind::AddrInUse => DoorFault::InUse,
        ErrorKind::AddrNotAvailable => DoorFault::NotHere,
        ErrorKind::PermissionDenied => DoorFault::Barred,
        _ => DoorFault::Closed,
    }
}
