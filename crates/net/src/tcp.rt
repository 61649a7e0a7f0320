// Connections and listeners over TCP.
ghost use Rattle.std.specs.Prelude.{◌≡◌, IfOk, IfSome};
ghost use Rattle.streams.specs.Accounts.{nothing_yet};

use crate::door::{DoorFault, door_fault};
use crate::socket::Socket;
use mio::net::{TcpListener, TcpStream};
use mio::{Interest, Registry, Token};
use std::io;
use std::net::{Net, SocketAddr};

/// A connection over TCP. Small writes are sent at once if the system can do that.
pub type TcpSocket = Socket<TcpStream>;

impl Socket<TcpStream> {
    /// Begins to connect to `address`, and returns at once. `registry` watches the connection under `token`.
    ///
    /// # Errors
    /// The system's, if the connection can't even begin: no route leads to the address, or the system has no more
    /// sockets. That nobody listens there shows later, as a fault of the stream.
    pub fn connect<R: Net>(
        rt: &R,
        registry: &Registry,
        token: usize,
        address: SocketAddr,
    ) -> io::Result<TcpSocket>
        ensures { IfOk result (λ socket. socket.account.past ≡ nothing_yet) }
    {
        watch_at_once(registry, token, TcpStream::connect(rt, address)?)
    }

    /// Returns the port of this side, if the system reports it.
    pub fn own_port(&self) -> Option<u16> {
        Some(self.stream().local_addr().ok()?.port())
    }

    /// Returns the port of the other side, if the system reports it: not once the connection has ended.
    pub fn other_port(&self) -> Option<u16> {
        Some(self.stream().peer_addr().ok()?.port())
    }
}

// Watches a connection whose small writes are sent at once.
fn watch_at_once(registry: &Registry, token: usize, stream: TcpStream) -> io::Result<TcpSocket>
    ensures { IfOk result (λ socket. socket.account.past ≡ nothing_yet) }
{
    let _at_once = stream.set_nodelay(true);
    Socket::watched(registry, token, stream)
}

/// A connection that a [`TcpDoor`] accepted.
#[derive(Drop)]
pub struct Arrival {
    /// The connection, from which nothing was read and to which nothing was sent.
    pub socket: TcpSocket,
    /// The address and the port of the other side.
    pub address: SocketAddr,
}

/// A listener over TCP.
///
/// ```text
/// while let Some(Arrival { socket, address }) = door.let_in(registry, token) { .. }
/// ```
pub struct TcpDoor {
    listener: TcpListener,
}

// By hand, so that this is proved once, and not in each crate in which a listener ends.
impl Drop for TcpDoor {
    fn drop(self) {
        let TcpDoor { listener: _ } = self;
    }
}

impl TcpDoor {
    /// Listens on `address`; the system chooses the port if it is 0. `registry` watches the listener, so that new
    /// connections show under `token`. A program that ended a moment ago does not block the address.
    ///
    /// # Errors
    /// `InUse`, `NotHere`, `Barred` and `Closed`, as [`DoorFault`] describes them.
    pub fn open<R: Net>(
        rt: &R,
        registry: &Registry,
        token: usize,
        address: SocketAddr,
    ) -> Result<TcpDoor, DoorFault> {
        match listen(rt, registry, token, address) {
            Ok(listener) => Ok(TcpDoor { listener }),
            Err(error) => Err(door_fault(&error)),
        }
    }

    /// Returns the address on which the door listens, if the system reports it.
    pub fn address(&self) -> Option<SocketAddr> {
        self.listener.local_addr().ok()
    }

    /// Accepts the next waiting connection, which `registry` then watches under `token`, and returns it with the address
    /// of its other side. Returns `None` if none waits. At the limit of open files no connection seems to wait; a later
    /// call accepts it.
    pub fn let_in(&self, registry: &Registry, token: usize) -> Option<Arrival>
        ensures { IfSome result (λ arrival. arrival.socket.account.past ≡ nothing_yet) }
    {
        let (stream, address) = self.listener.accept().ok()?;
        let socket = watch_at_once(registry, token, stream).ok()?;
        Some(Arrival { socket, address })
    }
}

// Opens a listener that is watched under `token`.
fn listen<R: Net>(
    rt: &R,
    registry: &Registry,
    token: usize,
    address: SocketAddr,
) -> io::Result<TcpListener> {
    let mut listener = TcpListener::bind(rt, address)?;
    registry.register(&mut listener, Token(token), Interest::READABLE)?;
    Ok(listener)
}
