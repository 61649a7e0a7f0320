// A socket as a stream.
ghost use Rattle.std.specs.Prelude.{◌≡◌, IfOk};
ghost use Rattle.streams.specs.Accounts.{nothing_yet};

use mio::event::Source;
use mio::{Interest, Registry, Token};
use std::io;
use std::io::{Read, Write};
use streams::{Account, Given, Obstacle, Stream, Taken, WriteFault, obstacle_of};

/// A connection that never blocks, with an account of what it gave and took. It is a [`TcpSocket`](crate::TcpSocket) or
/// a [`UnixSocket`](crate::UnixSocket). It is closed when it is dropped.
///
/// A call that would block returns [`Given::Stall`] or [`Taken::Nothing`]. So does a call while the connection is still
/// being made. An interrupted call is repeated. Each other error is a fault; if the connection is refused, the first
/// call that learns of it returns the fault.
///
/// A socket can be told to trust short reads ([`trust_short_reads`](Socket::trust_short_reads)). Then it takes a read
/// that returns fewer bytes than the buffer holds to have read all that had arrived, and the next read returns
/// [`Given::Stall`] without a system call. This saves the system call that would only report that it would block.
pub struct Socket<S> {
    pub(crate) stream: S,
    pub(crate) account: Account,
    // Whether a short read is taken to have read all that there was.
    pub(crate) trusts_short_reads: bool,
    // Whether the last read was short and is trusted. The next call stalls.
    pub(crate) is_drained: bool,
}

// By hand, so that this is proved once, and not in each crate in which a connection ends.
impl<S: Drop> Drop for Socket<S> {
    fn drop(self) {
        let Socket {
            stream: _,
            account: _,
            trusts_short_reads: _,
            is_drained: _,
        } = self;
    }
}

impl<S> Socket<S> {
    ghost use Rattle.std.specs.Prelude.{false};

    // A socket that trusts no short reads.
    pub(crate) fn of_parts(stream: S, account: Account) -> Socket<S>
        ensures stream { result.stream ≡ stream }
        ensures account { result.account ≡ account }
        ensures trusts { result.trusts_short_reads ≡ false }
        ensures asks { result.is_drained ≡ false }
    {
        Socket {
            stream,
            account,
            trusts_short_reads: false,
            is_drained: false,
        }
    }

    // Watches `stream`, a socket of the system that was asked nothing yet, under `token`.
    pub(crate) fn watched(registry: &Registry, token: usize, stream: S) -> io::Result<Socket<S>>
    where
        S: Source + Drop,
        ensures { IfOk result (λ socket. socket.account.past ≡ nothing_yet) }
    {
        let mut stream = stream;
        let both = Interest::READABLE | Interest::WRITABLE;
        registry.register(&mut stream, Token(token), both)?;
        Ok(Socket::of_parts(stream, Account::new()))
    }

    // The socket of the system, and the account of what it gave and took.
    pub(crate) fn into_parts(self) -> (S, Account)
    where
        S: Drop,
        ensures { result ≡ (self.stream, self.account) }
    {
        let Socket {
            stream,
            account,
            trusts_short_reads: _,
            is_drained: _,
        } = self;
        (stream, account)
    }

    /// Sets whether the socket trusts short reads. A new socket does not. The next read asks the system in any case, so
    /// call this after each event that names the socket.
    ///
    /// A read that returns fewer bytes than it asked for has read all that had arrived, and bytes that arrive later make
    /// a new event (epoll(7)). An end makes a new event too, unless the last event already told of it. So pass `true` only
    /// if [`Watch::endings`](crate::Watch::endings) does not have the socket's token. Otherwise pass `false`, and read
    /// until the stream returns [`Given::End`] or [`Given::Fault`].
    ///
    /// Urgent data over TCP, and open files sent to a path, can cut a read short too. The bytes after them are then read
    /// after the next event.
    pub fn trust_short_reads(&mut self, on: bool)
        ensures stream { self.new.stream ≡ self.old.stream }
        ensures account { self.new.account ≡ self.old.account }
        ensures trusts { self.new.trusts_short_reads ≡ on }
        ensures asks { self.new.is_drained ≡ false }
    {
        self.trusts_short_reads = on;
        self.is_drained = false;
    }

    // The socket of the system.
    pub(crate) fn stream(&self) -> &S {
        &self.stream
    }
}

impl<S: Read + Write> Stream for Socket<S> {
    ghost use Rattle.std.specs.Prelude.{None};

    // Nobody knows beforehand what it will give.
    ghost source = { λ socket. record { left = None; past = socket.account.past.giving } };

    ghost sink = { λ socket. record { holds = None; past = socket.account.past.taking } };

    // After a short read that is trusted, stalls without a system call.
    fn give(&mut self, buffer: &mut [u8]) -> Given {
        if self.is_drained {
            self.is_drained = false;
            self.account.note_given(Given::Stall, buffer);
            return Given::Stall;
        }
        for _turn in 0..u64::MAX {
            let answer = match self.stream.read(buffer) {
                Ok(0) => Given::End,
                Ok(count) => {
                    self.is_drained = self.trusts_short_reads && count < buffer.len();
                    Given::Bytes(count)
                }
                Err(error) => match obstacle_of(error.kind()) {
                    Obstacle::Interruption => continue,
                    Obstacle::Wait => Given::Stall,
                    Obstacle::Fault => Given::Fault,
                },
            };
            self.account.note_given(answer, buffer);
            return answer;
        }
        self.account.note_given(Given::Fault, buffer);
        Given::Fault
    }

    fn take(&mut self, bytes: &[u8]) -> Taken {
        for _turn in 0..u64::MAX {
            let answer = match self.stream.write(bytes) {
                Ok(0) => Taken::Nothing,
                Ok(count) => Taken::Bytes(count),
                Err(error) => match obstacle_of(error.kind()) {
                    Obstacle::Interruption => continue,
                    Obstacle::Wait => Taken::Nothing,
                    Obstacle::Fault => Taken::Fault,
                },
            };
            self.account.note_taken(answer, bytes);
            return answer;
        }
        self.account.note_taken(Taken::Fault, bytes);
        Taken::Fault
    }

    fn flush(&mut self) -> Result<(), WriteFault> {
        let answer = match self.stream.flush() {
            Ok(()) => Ok(()),
            Err(_) => Err(WriteFault),
        };
        self.account.note_flush(answer);
        answer
    }
}
