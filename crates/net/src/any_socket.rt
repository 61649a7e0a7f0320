// A socket over TCP or at a path of this machine.
use crate::socket::Socket;
use crate::tcp::TcpSocket;
use crate::unix::UnixSocket;
use mio::net::{TcpStream, UnixStream};
use std::fmt::Display;
use std::io::{Read, Write};
use std::net::SocketAddr;
use std::{fmt, io};

/// Where a connection leads.
#[derive(Clone, Copy, Debug, PartialEq, Eq)]
pub enum Way {
    /// By TCP to this address.
    Tcp(SocketAddr),
    /// To a path of this machine, at which a tunnel listens.
    Tunnel,
}

impl Display for Way {
    fn fmt<W: fmt::Write>(&self, f: &mut fmt::Formatter<W>) -> fmt::Result {
        match self {
            Way::Tcp(address) => address.fmt(f),
            Way::Tunnel => f.write_str("tunnel"),
        }
    }
}

/// The system's socket of an [`AnySocket`].
pub enum AnyStream {
    /// Over TCP.
    Tcp(TcpStream),
    /// At a path of this machine.
    Unix(UnixStream),
}

// By hand, so that this is proved once, and not in each crate in which a connection ends.
impl Drop for AnyStream {
    fn drop(self) {
        match self {
            AnyStream::Tcp(_) | AnyStream::Unix(_) => {}
        }
    }
}

impl Read for AnyStream {
    fn read(&mut self, buf: &mut [u8]) -> io::Result<usize> {
        match self {
            AnyStream::Tcp(stream) => stream.read(buf),
            AnyStream::Unix(stream) => stream.read(buf),
        }
    }
}

impl Write for AnyStream {
    fn write(&mut self, buf: &[u8]) -> io::Result<usize> {
        match self {
            AnyStream::Tcp(stream) => stream.write(buf),
            AnyStream::Unix(stream) => stream.write(buf),
        }
    }

    fn flush(&mut self) -> io::Result<()> {
        match self {
            AnyStream::Tcp(stream) => stream.flush(),
            AnyStream::Unix(stream) => stream.flush(),
        }
    }
}

/// A connection over TCP or at a path of this machine. What reads and writes need not know which.
pub type AnySocket = Socket<AnyStream>;

impl Socket<AnyStream> {
    ghost use Rattle.std.specs.Prelude.{◌≡◌, true, false};
    ghost use Rattle.net.specs.Ways.{is_at_path};

    /// Returns `socket` as one of either kind, with the same account.
    pub fn of_tcp(socket: TcpSocket) -> AnySocket
        ensures account { result.account ≡ socket.account }
        ensures tcp { is_at_path result.stream ≡ false }
    {
        let (stream, account) = socket.into_parts();
        Socket::of_parts(AnyStream::Tcp(stream), account)
    }

    /// Returns `socket` as one of either kind, with the same account.
    pub fn of_unix(socket: UnixSocket) -> AnySocket
        ensures account { result.account ≡ socket.account }
        ensures path { is_at_path result.stream ≡ true }
    {
        let (stream, account) = socket.into_parts();
        Socket::of_parts(AnyStream::Unix(stream), account)
    }

    /// Returns the port of this side of a connection over TCP, if the system reports it.
    pub fn own_port(&self) -> Option<u16> {
        match self.stream() {
            AnyStream::Tcp(stream) => Some(stream.local_addr().ok()?.port()),
            AnyStream::Unix(_) => None,
        }
    }

    /// Returns whether the connection is made, as far as the system says: one at a path is from the beginning, and one
    /// over TCP once it has another side, until it ends.
    pub fn is_made(&self) -> bool {
        match self.stream() {
            AnyStream::Tcp(stream) => stream.peer_addr().is_ok(),
            AnyStream::Unix(_) => true,
        }
    }
}
