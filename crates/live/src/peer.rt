// A connection, and whether its two sides are even.
use crate::addresses::TOKEN;
use bytetext::NoMemory;
use net::{Bounds, Connection, Registry, TcpSocket};
use std::alloc::Global;
use std::io;
use std::net::{Net, SocketAddr};

// The maximum number of pieces of 4,096 bytes that are read in one turn. If a peer sends more, the rest is read in the
// next turn, so that the others don't wait.
const MAX_READS: usize = 64;

// The most bytes that wait to be taken or to be written. If more wait to be written, the peer reads too slowly and is
// disconnected.
const BOUNDS: Bounds = Bounds {
    heard: 262_144,
    unsent: 262_144,
};

/// One side of a connection, which may be compared with the other side if both are in one program.
pub struct Peer {
    /// The connection, with the bytes that were read but not taken yet, and the bytes that are still to be written.
    pub connection: Connection<TcpSocket>,
    // The port of the side that connects, which tells both sides that they belong to one connection; 0 if the system
    // doesn't say it.
    port: u16,
    // How many bytes were read and written, modulo 2 ^ 64.
    read: u64,
    written: u64,
}

// By hand, so that this is proved once, and not in each crate in which a connection ends.
impl Drop for Peer {
    fn drop(self) {
        let Peer {
            connection: _,
            port: _,
            read: _,
            written: _,
        } = self;
    }
}

impl Peer {
    ghost use Rattle.std.specs.Prelude.{◌≡◌, ◌↔◌, [], false, IsTrue, OnErr};

    /// Begins to connect to `address`, and returns at once. `registry` watches the connection. Small writes go out at
    /// once if the system can do that. Never allocates.
    ///
    /// # Errors
    /// Those of the system, if it can't begin to connect, or can't watch the connection.
    pub fn connect<R: Net + AllocGlobal>(
        rt: &R,
        registry: &Registry,
        address: SocketAddr,
    ) -> io::Result<Peer> {
        let socket = TcpSocket::connect(rt, registry, TOKEN, address)?;
        let port = socket.own_port().unwrap_or(0);
        Ok(Peer::of_port(rt.alloc(), socket, port))
    }

    /// Creates the accepting side of the connection `socket`. Never allocates.
    pub fn accepted(alloc: Global, socket: TcpSocket) -> Peer {
        let port = socket.other_port().unwrap_or(0);
        Peer::of_port(alloc, socket, port)
    }

    fn of_port(alloc: Global, socket: TcpSocket, port: u16) -> Peer {
        Peer {
            connection: Connection::new(alloc, socket, BOUNDS),
            port,
            read: 0,
            written: 0,
        }
    }

    /// Returns whether `other` is the other side of this connection, and each side has read all that the other has sent
    /// or queued.
    pub fn is_even_with(&self, other: &Peer) -> bool
        ensures both { IsTrue result → self.now.port ≡ other.now.port }
        ensures heard { IsTrue result → (other.now.connection.unsent.items ≡ []) × (self.now.read ≡ other.now.written) }
        ensures told { IsTrue result → (self.now.connection.unsent.items ≡ []) × (other.now.read ≡ self.now.written) }
    {
        self.port == other.port
            && self.port != 0
            && self.has_heard_all(other)
            && other.has_heard_all(self)
    }

    // Whether this side has read all that the other has sent or queued.
    fn has_heard_all(&self, other: &Peer) -> bool
        ensures { IsTrue result ↔ ((other.now.connection.unsent.items ≡ []) × (self.now.read ≡ other.now.written)) }
    {
        other.connection.unsent.is_empty() && self.read == other.written
    }

    /// Reads what has arrived, at most 64 pieces of 4,096 bytes. Returns whether any byte waits to be taken. A turn goes
    /// over all connections, so it asks this one even if no event has named it.
    ///
    /// # Errors
    /// `NoMemory` if memory cannot be allocated; never if the connection is to be closed.
    pub fn read(&mut self) -> Result<bool, NoMemory>
        ensures memory { OnErr result (self.old.connection.is_over ≡ false) }
    {
        let before = self.connection.heard.len();
        self.connection.wake();
        let _came = self.connection.read(MAX_READS)?;
        let heard = self.connection.heard.len();
        self.read = self.read.wrapping_add(heard.saturating_sub(before) as u64);
        Ok(heard > 0)
    }

    /// Offers what waits to the system, once. Returns whether it took any of it.
    pub fn send(&mut self) -> bool {
        let before = self.connection.unsent.len();
        let moved = self.connection.send();
        let sent = before.saturating_sub(self.connection.unsent.len());
        self.written = self.written.wrapping_add(sent as u64);
        moved
    }
}
