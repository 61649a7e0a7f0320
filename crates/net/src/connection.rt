// A stream, with the bytes heard from it and the bytes still to be sent to it.
ghost use Rattle.std.specs.Prelude.{◌≤◌, vec_len};

use crate::answer::brings;
use bytetext::NoMemory;
use std::alloc::Global;
use std::mem;
use streams::{Given, Stream, Taken};

// The most bytes that one call of `ask` hears.
const PIECE: usize = 4_096;

// The most that is held before whole pieces are asked for. Most lines come alone, and the allocator serves so few bytes
// faster than a whole piece.
const FIRST_PIECE: usize = 512;

/// The most bytes that a connection holds.
#[derive(Clone, Copy, Debug, PartialEq, Eq)]
pub struct Bounds {
    /// Bytes that were heard and are not taken yet.
    pub heard: usize,
    /// Bytes that are still to be sent.
    pub unsent: usize,
}

/// A stream, the bytes heard from it, and the bytes still to be sent to it.
pub struct Connection<S: Stream + Drop> {
    /// The stream, which gives and takes.
    pub stream: S,
    /// The bytes that the stream gave and nobody took yet.
    pub heard: Vec<u8>,
    /// The bytes that are still to be sent.
    pub unsent: Vec<u8>,
    /// The most bytes that `heard` and `unsent` may hold.
    pub bounds: Bounds,
    /// Whether the connection is over and is to be dropped: the stream ended or failed, or did not take enough.
    pub is_over: bool,
    /// Whether the stream may have something to read: false after a read that would block, until the connection is
    /// woken.
    pub is_ready: bool,
    /// What was heard is within its bound.
    pub ghost heard_fits: { vec_len heard ≤ bounds.heard },
    /// So is what is unsent.
    pub ghost unsent_fits: { vec_len unsent ≤ bounds.unsent },
}

// By hand, so that this is proved once.
impl<S: Stream + Drop> Drop for Connection<S> {
    fn drop(self) {
        let Connection {
            stream: _,
            heard: _,
            unsent: _,
            bounds: _,
            is_over: _,
            is_ready: _,
        } = self;
    }
}

impl<S: Stream + Drop> Connection<S> {
    ghost use Rattle.std.specs.Prelude.{◌≡◌, ◌≤◌, ◌<◌, ◌+◌, ◌++◌, ◌||◌, ◌&&◌, ◌↔◌, not, true, false};
    ghost use Rattle.std.specs.Prelude.{[], length, take, drop, IfOk, IsOk, OnErr, vec_len};
    ghost use Rattle.std.specs.Vec.{vec_capacity};
    ghost use Rattle.streams.specs.Transfers.{ReadsPiece};
    ghost use Rattle.net.specs.Connections.{Grows, Ledger, Holds, Reads, ReadsFewer, Sends};
    ghost use Rattle.net.specs.declared.connection.TheConstants.{PIECE};
    ghost use Rattle.net.specs.Connections.{begun, ends_hearing, more_handed, more_told, stalls, talk_of, told_bytes};

    /// Creates a connection over `stream` that holds at most `bounds`; nothing is heard or told on it yet. Does not
    /// allocate.
    pub fn new(alloc: Global, stream: S, bounds: Bounds) -> Connection<S>
        ensures stream { result.stream ≡ stream }
        ensures bounds { result.bounds ≡ bounds }
        ensures heard { result.heard.items ≡ [] }
        ensures unsent { result.unsent.items ≡ [] }
        ensures goes_on { result.is_over ≡ false }
        ensures ready { result.is_ready ≡ true }
        ensures holds { Holds (begun (S.source stream) (S.sink stream)) (S.source result.stream) (S.sink result.stream)
            result.heard.items result.unsent.items }
    {
        Connection {
            stream,
            heard: Vec::new(alloc),
            unsent: Vec::new(alloc),
            bounds,
            is_over: false,
            is_ready: true,
        }
    }

    /// Notes that an event has named the connection: its stream may have something to read.
    pub fn wake(&mut self)
        ensures ready { self.new.is_ready ≡ true }
        ensures stream { self.new.stream ≡ self.old.stream }
        ensures heard { self.new.heard ≡ self.old.heard }
        ensures unsent { self.new.unsent ≡ self.old.unsent }
        ensures bounds { self.new.bounds ≡ self.old.bounds }
        ensures over { self.new.is_over ≡ self.old.is_over }
    {
        self.is_ready = true;
    }

    /// Returns whether the stream may have something to read: false after a read that would block, until the next wake,
    /// and false once the connection is over.
    pub fn may_give(&self) -> bool
        ensures { result ≡ (self.now.is_ready && not self.now.is_over) }
    {
        self.is_ready && !self.is_over
    }

    /// Returns whether nothing more can be heard until what was heard is taken.
    pub fn is_full(&self) -> bool
        ensures { (result ≡ false) ↔ (vec_len self.now.heard < self.now.bounds.heard) }
    {
        self.heard.len() >= self.bounds.heard
    }

    /// Reads what has arrived, at most `pieces` pieces of at most 4,096 bytes. Asks the stream for a piece only if it
    /// may have something to read and there is room. Returns whether a byte arrived.
    ///
    /// # Errors
    /// `NoMemory` if an allocation fails: never if the stream is not asked. What was read before stays.
    pub fn read(&mut self, pieces: usize) -> Result<bool, NoMemory>
        ensures reads { IfOk result (λ came. Reads pieces self.old.bounds.heard (talk_of self.old) came (talk_of self.new)) }
        ensures fewer { OnErr result (ReadsFewer pieces self.old.bounds.heard (talk_of self.old) (talk_of self.new)) }
        ensures grows { Grows self.old.heard.items self.new.heard.items }
        ensures bounds { self.new.bounds ≡ self.old.bounds }
        ensures holds { (ledger : Ledger)
            → Holds ledger (S.source self.old.stream) (S.sink self.old.stream) self.old.heard.items self.old.unsent.items
            → Holds ledger (S.source self.new.stream) (S.sink self.new.stream) self.new.heard.items self.new.unsent.items }
    {
        let mut came = false;
        for _ in 0..pieces {
            if !self.is_ready || self.is_over || self.is_full() {
                break;
            }
            came |= brings(self.ask()?);
        }
        Ok(came)
    }

    /// Asks the stream once, for at most 4,096 bytes, and returns its answer. The connection is over if the stream ended
    /// or failed.
    ///
    /// # Errors
    /// `NoMemory` if an allocation fails. It doesn't allocate if there is already room for all that the connection may
    /// hold as heard. The stream was not asked then.
    pub fn ask(&mut self) -> Result<Given, NoMemory>
        requires room { vec_len self.old.heard < self.old.bounds.heard }
        ensures heard { IfOk result (λ answer. ReadsPiece self.old.bounds.heard (S.source self.old.stream) self.old.heard.items answer
            (S.source self.new.stream) self.new.heard.items) }
        ensures over { IfOk result (λ answer. self.new.is_over ≡ (self.old.is_over || ends_hearing answer)) }
        ensures ready { IfOk result (λ answer. self.new.is_ready ≡ (self.old.is_ready && not (stalls answer))) }
        ensures unsent { self.new.unsent.items ≡ self.old.unsent.items }
        ensures sink { S.sink self.new.stream ≡ S.sink self.old.stream }
        ensures bounds { self.new.bounds ≡ self.old.bounds }
        ensures memory_stream { OnErr result (S.source self.new.stream ≡ S.source self.old.stream) }
        ensures memory_heard { OnErr result (self.new.heard.items ≡ self.old.heard.items) }
        ensures memory_over { OnErr result (self.new.is_over ≡ self.old.is_over) }
        ensures memory_ready { OnErr result (self.new.is_ready ≡ self.old.is_ready) }
        ensures memory { OnErr result (vec_capacity self.old.heard < self.old.bounds.heard) }
        ensures holds { (ledger : Ledger)
            → Holds ledger (S.source self.old.stream) (S.sink self.old.stream) self.old.heard.items self.old.unsent.items
            → Holds ledger (S.source self.new.stream) (S.sink self.new.stream) self.new.heard.items self.new.unsent.items }
    {
        let room = self.wanted();
        self.heard.reserve(room)?;
        if room <= FIRST_PIECE {
            self.hear_into(&mut [0; FIRST_PIECE][..room])
        } else {
            self.hear_into(&mut [0; PIECE][..room])
        }
    }

    // Returns how many bytes the next call of `ask` asks for.
    fn wanted(&self) -> usize
        requires room { vec_len self.now.heard < self.now.bounds.heard }
        ensures some { 0 < result }
        ensures most { result ≤ PIECE }
        ensures room { vec_len self.now.heard + result ≤ self.now.bounds.heard }
    {
        let most = if self.heard.len() < FIRST_PIECE {
            FIRST_PIECE - self.heard.len()
        } else {
            PIECE
        };
        most.min(self.bounds.heard - self.heard.len())
    }

    // Asks the stream once for the bytes of `buffer`, for which there is room. Does not allocate.
    fn hear_into(&mut self, buffer: &mut [u8]) -> Result<Given, NoMemory>
        requires some { 0 < length buffer.old }
        requires room { vec_len self.old.heard + length buffer.old ≤ self.old.bounds.heard }
        requires reserved { vec_len self.old.heard + length buffer.old ≤ vec_capacity self.old.heard }
        ensures made { IsOk result }
        ensures heard { IfOk result (λ answer. ReadsPiece self.old.bounds.heard (S.source self.old.stream) self.old.heard.items answer
            (S.source self.new.stream) self.new.heard.items) }
        ensures over { IfOk result (λ answer. self.new.is_over ≡ (self.old.is_over || ends_hearing answer)) }
        ensures ready { IfOk result (λ answer. self.new.is_ready ≡ (self.old.is_ready && not (stalls answer))) }
        ensures unsent { self.new.unsent.items ≡ self.old.unsent.items }
        ensures sink { S.sink self.new.stream ≡ S.sink self.old.stream }
        ensures bounds { self.new.bounds ≡ self.old.bounds }
        ensures holds { (ledger : Ledger)
            → Holds ledger (S.source self.old.stream) (S.sink self.old.stream) self.old.heard.items self.old.unsent.items
            → Holds ledger (S.source self.new.stream) (S.sink self.new.stream) self.new.heard.items self.new.unsent.items }
    {
        let answer = self.stream.give(buffer);
        match answer {
            Given::Bytes(count) => self.heard.extend_from_slice(&buffer[..count])?,
            Given::End | Given::Fault => self.is_over = true,
            Given::Stall => self.is_ready = false,
        }
        Ok(answer)
    }

    /// Takes out and returns the bytes that were heard. Does not allocate.
    pub fn take_heard(&mut self, alloc: Global) -> Vec<u8>
        ensures all { result.items ≡ self.old.heard.items }
        ensures none { self.new.heard.items ≡ [] }
        ensures unsent { self.new.unsent.items ≡ self.old.unsent.items }
        ensures stream { self.new.stream ≡ self.old.stream }
        ensures bounds { self.new.bounds ≡ self.old.bounds }
        ensures over { self.new.is_over ≡ self.old.is_over }
        ensures ready { self.new.is_ready ≡ self.old.is_ready }
        ensures holds { (ledger : Ledger)
            → Holds ledger (S.source self.old.stream) (S.sink self.old.stream) self.old.heard.items self.old.unsent.items
            → Holds (more_handed ledger result.items) (S.source self.new.stream) (S.sink self.new.stream)
            self.new.heard.items self.new.unsent.items }
    {
        mem::replace(&mut self.heard, Vec::new(alloc))
    }

    /// Takes the first `count` of the bytes that were heard, or all if there are fewer. Does not allocate.
    pub fn take_front(&mut self, count: usize)
        ensures rest { self.new.heard.items ≡ drop count self.old.heard.items }
        ensures unsent { self.new.unsent.items ≡ self.old.unsent.items }
        ensures stream { self.new.stream ≡ self.old.stream }
        ensures bounds { self.new.bounds ≡ self.old.bounds }
        ensures over { self.new.is_over ≡ self.old.is_over }
        ensures ready { self.new.is_ready ≡ self.old.is_ready }
        ensures holds { (ledger : Ledger)
            → Holds ledger (S.source self.old.stream) (S.sink self.old.stream) self.old.heard.items self.old.unsent.items
            → Holds (more_handed ledger (take count self.old.heard.items)) (S.source self.new.stream) (S.sink self.new.stream)
            self.new.heard.items self.new.unsent.items }
    {
        let count = count.min(self.heard.len());
        let _taken = self.heard.drain(..count);
    }

    /// Queues `bytes` and then `end`, such as a line and its CR and LF, for the stream, after those queued before.
    /// Returns whether they fit. If they don't fit, none of them is queued, and the connection is over.
    ///
    /// # Errors
    /// `NoMemory` if an allocation fails; it doesn't allocate if there is room already, or if they don't fit. Nothing is
    /// queued then.
    pub fn tell(&mut self, bytes: &[u8], end: &[u8]) -> Result<bool, NoMemory>
        // All of them or none.
        ensures told { self.new.unsent.items ≡ self.old.unsent.items ++ told_bytes result (bytes.now ++ end.now) }
        ensures fits { IfOk result
            (λ fits. (fits ≡ true) ↔ (vec_len self.old.unsent + length (bytes.now ++ end.now) ≤ self.old.bounds.unsent)) }
        ensures over { IfOk result (λ fits. self.new.is_over ≡ (self.old.is_over || not fits)) }
        ensures memory { OnErr result (vec_capacity self.old.unsent < vec_len self.old.unsent + length (bytes.now ++ end.now)) }
        ensures memory_fits { OnErr result (vec_len self.old.unsent + length (bytes.now ++ end.now) ≤ self.old.bounds.unsent) }
        ensures memory_over { OnErr result (self.new.is_over ≡ self.old.is_over) }
        ensures heard { self.new.heard.items ≡ self.old.heard.items }
        ensures stream { self.new.stream ≡ self.old.stream }
        ensures bounds { self.new.bounds ≡ self.old.bounds }
        ensures ready { self.new.is_ready ≡ self.old.is_ready }
        ensures holds { (ledger : Ledger)
            → Holds ledger (S.source self.old.stream) (S.sink self.old.stream) self.old.heard.items self.old.unsent.items
            → Holds (more_told ledger (told_bytes result (bytes.now ++ end.now))) (S.source self.new.stream) (S.sink self.new.stream)
            self.new.heard.items self.new.unsent.items }
    {
        let room = self.bounds.unsent - self.unsent.len();
        if bytes.len() > room || end.len() > room - bytes.len() {
            self.is_over = true;
            return Ok(false);
        }
        self.unsent.reserve(bytes.len() + end.len())?;
        self.unsent.extend_from_slice(bytes)?;
        self.unsent.extend_from_slice(end)?;
        Ok(true)
    }

    /// Offers the stream all unsent bytes, once, if there are any. Returns whether it took a byte. The connection is
    /// over if the stream failed. Does not allocate.
    pub fn send(&mut self) -> bool
        ensures sends { Sends (talk_of self.old) result (talk_of self.new) }
        ensures bounds { self.new.bounds ≡ self.old.bounds }
        ensures holds { (ledger : Ledger)
            → Holds ledger (S.source self.old.stream) (S.sink self.old.stream) self.old.heard.items self.old.unsent.items
            → Holds ledger (S.source self.new.stream) (S.sink self.new.stream) self.new.heard.items self.new.unsent.items }
    {
        if self.unsent.is_empty() {
            return false;
        }
        match self.stream.take(self.unsent.as_slice()) {
            Taken::Bytes(count) => {
                let _sent = self.unsent.drain(..count);
                true
            }
            Taken::Nothing => false,
            Taken::Fault => {
                self.is_over = true;
                false
            }
        }
    }
}
