// A connection over which only lines are sent.
ghost use Rattle.std.specs.Prelude.{◌≡◌, ◌&&◌, not, true, [], IfOk, OnOk, OnErr};
ghost use Rattle.net.specs.Connections.{Reads, ReadsFewer, new_talk};
ghost use Rattle.serverlink.specs.Lines.{is_line};
ghost use Rattle.serverlink.specs.Talks.{told};

use crate::line::MAX_LINE;
use crate::pace::Pace;
use bytetext::NoMemory;
use net::{Bounds, Connection};
use std::alloc::Global;
use std::marker::Model;
use streams::Stream;

// The most bytes of what the server said that wait, and the most that wait to be sent.
const MOST: usize = 65_536;

const BOUNDS: Bounds = Bounds {
    heard: MOST,
    unsent: MOST,
};

/// A connection to a server. It begins over a stream that has taken nothing. From then on all that the stream has
/// taken, followed by the unsent bytes, is exactly a sequence of lines of 1 to 510 bytes without NUL, CR and LF, each
/// followed by CR and LF: the type says so of each of its values. So the server gets these lines, and the last one may
/// not have arrived whole. At most 65,536 bytes wait on either side. It counts its lines as the server does. Contracts
/// see it as a `Rattle.net.specs.Connections.Talk`.
pub struct ServerWire<S: Stream + Drop> {
    // Only `tell` tells it anything.
    pub(crate) connection: Connection<S>,
    // The server's timer, which each line that `tell` queues advances.
    pub(crate) pace: Pace,
}

// Written by hand, so that the drop is proved once.
impl<S: Stream + Drop> Drop for ServerWire<S> {
    fn drop(self) {
        let ServerWire {
            connection: _,
            pace: _,
        } = self;
    }
}

impl<S: Stream + Drop> Model for ServerWire<S> {
    ghost use Rattle.std.specs.Prelude.{◌≡◌};
    ghost use Rattle.net.specs.Connections.{Talk, talk_of};
    ghost use Rattle.serverlink.specs.declared.server_wire.TheConstants.{MOST};
    ghost use Rattle.serverlink.specs.Told.{TellsLines};

    ghost Value = { Talk };

    ghost view = { λ server. talk_of server.connection };

    // All that the stream has taken, and the unsent bytes after it, are lines.
    ghost invariant = { λ server. TellsLines (S.sink server.connection.stream) server.connection.unsent.items
        × (server.connection.bounds ≡ record { heard = MOST; unsent = MOST }) };
}

impl<S: Stream + Drop> ServerWire<S> {
    // A connection over a stream that has taken nothing. Allocates nothing.
    #[tactic(auto, using(crate::proofs::ToldLemmas::tells_begun))]
    pub(crate) fn new(alloc: Global, stream: S) -> ServerWire<S>
        requires fresh { (S.sink stream).past.taken ≡ [] }
        ensures { result ≡ new_talk (S.source stream) (S.sink stream) }
    {
        ServerWire {
            connection: Connection::new(alloc, stream, BOUNDS),
            pace: Pace::new(),
        }
    }

    // Reads what has arrived, up to `pieces` pieces. Returns whether a byte arrived. Out of memory, what was read before
    // stays.
    pub(crate) fn read(&mut self, pieces: usize) -> Result<bool, NoMemory>
        ensures reads { IfOk result (λ came. Reads pieces MOST self.old came self.new) }
        ensures fewer { OnErr result (ReadsFewer pieces MOST self.old self.new) }
    {
        self.connection.read(pieces)
    }

    // Whether the stream may have something to read.
    pub(crate) fn may_give(&self) -> bool
        ensures { result ≡ (self.now.gives && not self.now.over) }
    {
        self.connection.may_give()
    }

    /// Queues `line` for the server, after the lines before it, and counts it as sent at second `now`. Ignores bytes
    /// that are not a line. If the line does not fit, the connection is over.
    ///
    /// # Errors
    /// `NoMemory` if an allocation fails: never for bytes that are not a line. Nothing is queued then.
    pub fn tell(&mut self, line: &[u8], now: u64) -> Result<(), NoMemory>
        ensures told { OnOk result (self.new ≡ told line.now self.old) }
        ensures err { OnErr result (self.new ≡ self.old) }
        ensures memory { OnErr result (is_line line.now ≡ true) }
    {
        if line.is_empty()
            || line.len() > MAX_LINE
            || line
                .iter()
                .any(|byte| *byte == 0 || *byte == b'\n' || *byte == b'\r')
        {
            return Ok(());
        }
        let _fits = self.connection.tell(line, b"\r\n")?;
        self.pace.count(now);
        Ok(())
    }
}
