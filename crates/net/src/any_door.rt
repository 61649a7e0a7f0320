// A listener over TCP or at a path of this machine.
ghost use Rattle.std.specs.Prelude.{◌≡◌, IfSome};
ghost use Rattle.streams.specs.Accounts.{nothing_yet};

use crate::any_socket::{AnySocket, Way};
use crate::tcp::{Arrival, TcpDoor};
use crate::unix::UnixDoor;
use mio::Registry;

/// A listener over TCP or at a path of this machine.
pub enum AnyDoor {
    /// Over TCP.
    Tcp(TcpDoor),
    /// At a path of this machine, at which a tunnel hands on what comes to it.
    Unix(UnixDoor),
}

// By hand, so that this is proved once, and not in each crate in which a listener ends.
impl Drop for AnyDoor {
    fn drop(self) {
        match self {
            AnyDoor::Tcp(_) | AnyDoor::Unix(_) => {}
        }
    }
}

/// A connection that an [`AnyDoor`] accepted.
#[derive(Drop)]
pub struct AnyArrival {
    /// The connection, from which nothing was read and to which nothing was sent.
    pub socket: AnySocket,
    /// The address and the port of the other side, or that it came through a tunnel.
    pub way: Way,
}

impl AnyDoor {
    /// Accepts the next waiting connection, which `registry` then watches under `token`. Returns `None` if none waits.
    /// At the limit of open files no connection seems to wait; a later call accepts it.
    pub fn let_in(&self, registry: &Registry, token: usize) -> Option<AnyArrival>
        ensures { IfSome result (λ arrival. arrival.socket.account.past ≡ nothing_yet) }
    {
        match self {
            AnyDoor::Tcp(door) => {
                let Arrival { socket, address } = door.let_in(registry, token)?;
                Some(AnyArrival {
                    socket: AnySocket::of_tcp(socket),
                    way: Way::Tcp(address),
                })
            }
            AnyDoor::Unix(door) => Some(AnyArrival {
                socket: AnySocket::of_unix(door.let_in(registry, token)?),
                way: Way::Tunnel,
            }),
        }
    }
}
