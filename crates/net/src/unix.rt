// Connections and listeners at a path of this machine.
ghost use Rattle.std.specs.Prelude.{◌≡◌, IfOk, IfSome};
ghost use Rattle.streams.specs.Accounts.{nothing_yet};

use crate::door::{DoorFault, door_fault};
use crate::socket::Socket;
use mio::net::{UnixListener, UnixStream};
use mio::{Interest, Registry, Token};
use std::io;
use std::net::Net;
use std::rt::Files;

/// A connection at a path of this machine.
pub type UnixSocket = Socket<UnixStream>;

impl Socket<UnixStream> {
    /// Connects to the listener at `path`. `registry` watches the connection under `token`.
    ///
    /// # Errors
    /// The system's: `NotFound` if nothing exists at the path, `ConnectionRefused` if nobody listens there,
    /// `WouldBlock` if too many connections wait already, and others.
    pub fn connect_path<R: Net>(
        rt: &R,
        registry: &Registry,
        token: usize,
        path: &str,
    ) -> io::Result<UnixSocket>
        ensures { IfOk result (λ socket. socket.account.past ≡ nothing_yet) }
    {
        Socket::watched(registry, token, UnixStream::connect(rt, path)?)
    }
}

/// A listener at a path. It creates a file there, which stays when the listener is dropped.
pub struct UnixDoor {
    listener: UnixListener,
}

// By hand, so that this is proved once, and not in each crate in which a listener ends.
impl Drop for UnixDoor {
    fn drop(self) {
        let UnixDoor { listener: _ } = self;
    }
}

impl UnixDoor {
    /// Listens at `path`. `registry` watches the listener, so that new connections show under `token`. A file that
    /// exists there already, such as that of a killed program, must be removed first.
    ///
    /// # Errors
    /// `InUse` if a file exists there; `Barred` and `Closed`, as [`DoorFault`] describes them.
    pub fn open<R: Net + Files>(
        rt: &R,
        registry: &Registry,
        token: usize,
        path: &str,
    ) -> Result<UnixDoor, DoorFault> {
        match listen(rt, registry, token, path) {
            Ok(listener) => Ok(UnixDoor { listener }),
            Err(error) => Err(door_fault(&error)),
        }
    }

    /// Accepts the next waiting connection, which `registry` then watches under `token`. Returns `None` if none waits.
    /// At the limit of open files no connection seems to wait; a later call accepts it.
    pub fn let_in(&self, registry: &Registry, token: usize) -> Option<UnixSocket>
        ensures { IfSome result (λ socket. socket.account.past ≡ nothing_yet) }
    {
        let (stream, _) = self.listener.accept().ok()?;
        Socket::watched(registry, token, stream).ok()
    }
}

// Opens a listener that is watched under `token`.
fn listen<R: Net + Files>(
    rt: &R,
    registry: &Registry,
    token: usize,
    path: &str,
) -> io::Result<UnixListener> {
    let mut listener = UnixListener::bind(rt, path)?;
    registry.register(&mut listener, Token(token), Interest::READABLE)?;
    Ok(listener)
}
