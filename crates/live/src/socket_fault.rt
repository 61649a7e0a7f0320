// Why the system opens no socket.
use std::io;
use std::io::ErrorKind;
use thiserror::Error;

/// Why the system opens no socket on a port of this machine, or why an open socket fails.
#[derive(Clone, Copy, Debug, PartialEq, Eq, Error)]
pub enum SocketFault {
    /// Another program listens on the port, or did until just now.
    #[error("the port is in use: say another one, or 0 for one that the system chooses")]
    InUse,
    /// The system doesn't allow this user to have the port.
    #[error("the port is not allowed: say one above 1023, or 0 for one that the system chooses")]
    NotAllowed,
    /// This machine doesn't have the address.
    #[error("no such address: this machine has no 127.0.0.1")]
    NoAddress,
    /// Any other error of the system.
    #[error("the system gives no socket: see how many files a process may open (ulimit -n)")]
    Other,
}

impl SocketFault {
    /// Returns which of these `error` is.
    pub fn of(error: &io::Error) -> SocketFault {
        match error.kind() {
            ErrorKind::AddrInUse => SocketFault::InUse,
            ErrorKind::PermissionDenied => SocketFault::NotAllowed,
            ErrorKind::AddrNotAvailable => SocketFault::NoAddress,
            _ => SocketFault::Other,
        }
    }
}
